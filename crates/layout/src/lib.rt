// Where every word of the core's memory stands, and what the numbers in it mean: docs/LAYOUT.md, and crate spec_layout for definitions.
// What is added up to an address is a usize. The number of a word, and what a word holds, is a u32.
// A queue and a task are numbers too, and `q < 4`, `t < 128` conditions: most come from words that may hold anything, and a type of its own would be
// taken apart in each loop over the four queues and in each clause. The memory is one slice, as hosts lend it, with its length as a condition.
#![tactic(auto)]

// The length of the memory.
pub const WORDS: usize = 16384;

// MARKS: no task or segment, and a non-local end of a view.
pub const NONE: u32 = 4294967295;

pub const NL: u32 = 4294967294;

// THE HEADER: the length of a segment, the number of segments opened, the heights of the two stacks.
pub const LENGTH_WORD: u32 = 0;

pub const NUMBER_WORD: u32 = 1;

pub const FREE_SEGMENTS: u32 = 2;

pub const FREE_TASKS: u32 = 3;

// WHERE EACH PART BEGINS: the header, the stacks of free segments and of free task records, the records, the values.
pub const HEADER: usize = 0;

pub const SEGMENT_STACK: usize = 64;

pub const TASK_STACK: usize = 320;

pub const SEGMENT_RECORDS: usize = 448;

pub const TASK_RECORDS: usize = 1472;

pub const VALUES: usize = 8192;

pub const VALUE_WORDS: u32 = 8192;

// The most places that a segment may have.
pub const MAX_LENGTH: u32 = 64;

// How many records there are, and the words of one.
pub const SEGMENTS: u32 = 256;

pub const SEGMENT_WORDS: usize = 4;

pub const TASKS: u32 = 128;

// The last task. The top is never free, so it is also the most free records.
pub const LAST_TASK: u32 = 127;

pub const TASK_WORDS: usize = 48;

pub const QUEUES: u32 = 4;

// WORDS OF A SEGMENT'S RECORD
pub const FIRST: u32 = 0;

pub const COUNT: u32 = 1;

pub const NEXT: u32 = 2;

// WORDS OF A TASK'S RECORD. Heads and tails of a kind of views are four words from the one named here on, one for each queue.
pub const STATUS: u32 = 0;

pub const RIGHTS: u32 = 1;

pub const PARENT: u32 = 2;

pub const OLDER: u32 = 3;

pub const YOUNGER: u32 = 4;

pub const YOUNGEST: u32 = 5;

pub const QUEUE_HEADS: u32 = 16;

pub const CHILDREN_HEADS: u32 = 20;

pub const USER_HEADS: u32 = 24;

pub const RIGHT_HEADS: u32 = 28;

pub const CHILDREN_TAILS: u32 = 32;

pub const USER_TAILS: u32 = 36;

pub const RIGHT_TAILS: u32 = 40;

// How many words from QUEUE_HEADS on are heads.
pub const VIEW_HEADS: u32 = 16;

// The kinds of views that have heads and tails: those of kind k stand 4 * k words behind those of the first kind.
pub const CHILDREN: u32 = 0;

pub const USER: u32 = 1;

pub const RIGHT: u32 = 2;

// The states of a task's record.
pub const FREE: u32 = 0;

pub const UNFINISHED: u32 = 1;

pub const FINISHED: u32 = 2;

// Every right to every queue: the rights of the top.
pub const ALL_RIGHTS: u32 = 255;

// THE TOUR: a mark below TASKS is where that task is entered, TASKS more is where it is exited, END is past the last.
pub const END: u32 = 256;

// The most marks that a tour has.
pub const MARKS: u32 = 256;

// ADDRESSES of the words of the header, and of words of record 0. In record i each stands i records further.
pub const LENGTH_AT: usize = HEADER + LENGTH_WORD as usize;

pub const NUMBER_AT: usize = HEADER + NUMBER_WORD as usize;

pub const FREE_SEGMENTS_AT: usize = HEADER + FREE_SEGMENTS as usize;

pub const FIRST_AT: usize = SEGMENT_RECORDS + FIRST as usize;

pub const COUNT_AT: usize = SEGMENT_RECORDS + COUNT as usize;

pub const NEXT_AT: usize = SEGMENT_RECORDS + NEXT as usize;

pub const RIGHTS_AT: usize = TASK_RECORDS + RIGHTS as usize;

pub const QUEUE_HEADS_AT: usize = TASK_RECORDS + QUEUE_HEADS as usize;

pub const HEADS_AT: usize = TASK_RECORDS + CHILDREN_HEADS as usize;

pub const TAILS_AT: usize = TASK_RECORDS + CHILDREN_TAILS as usize;

// How far the tail of a view stands behind its head.
pub const TAIL_BEHIND: usize = TAILS_AT - HEADS_AT;
