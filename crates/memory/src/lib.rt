// Reading and writing the fields of the layout. Every function is total: past the end a read gives 0 and a write
// does nothing. A function named after a word is one call of `header`, `segment`, `task`, `get` or `put`, so that a caller names
// words and not their numbers.
#![tactic(auto, unfolding(spec_words::specs::Words::load, spec_words::specs::Words::store, spec_layout::specs::Layout::address, spec_layout::specs::Layout::read, spec_layout::specs::Layout::write))]

ghost use Rattle.std.specs.Prelude.{◌≡◌, [], ◌∷◌, length, replicate, ◌<◌, ◌^◌, ◌+◌, ◌*◌};
ghost use Rattle.spec_words.specs.Words.{load, store};
ghost use Rattle.spec_words.specs.Blocks.{store_all};
ghost use Rattle.spec_layout.specs.Layout.{address, read, write, header, free_segment, free_task, segment, task};
ghost use Rattle.spec_layout.specs.Layout.{length_word, number_word, free_segments, free_tasks, first, count, next, queue_head, head, tail};
ghost use Rattle.spec_layout.specs.Layout.{STATUS, RIGHTS, PARENT, OLDER, YOUNGER, YOUNGEST};

use layout::{
    CHILDREN_HEADS, CHILDREN_TAILS, QUEUE_HEADS, SEGMENT_RECORDS, SEGMENT_STACK, SEGMENT_WORDS,
    TASK_RECORDS, TASK_STACK, TASK_WORDS,
};

pub fn get(m: &[u32], a: usize) -> u32
    ensures { result ≡ load m.now a }
{
    if a < m.len() { m[a] } else { 0 }
}

pub fn put(m: &mut [u32], a: usize, v: u32)
    ensures { m.new ≡ store m.old a v }
{
    if a < m.len() {
        m[a] = v;
    }
}

// The words ws from address a on.
pub fn put_all(m: &mut [u32], a: usize, ws: &[u32])
    ensures { m.new ≡ store_all m.old a ws.now }
{
    if a >= m.len() {
        return;
    }
    for (i, &w) in ws.iter().enumerate() {
        put(m, a + i, w);
    }
}

// Every word 0.
pub fn clear(m: &mut [u32])
    ensures { m.new ≡ replicate (length m.old) 0 }
{
    m.fill(0);
}

fn header(m: &[u32], k: u32) -> u32
    ensures { result ≡ read m.now (header k) }
{
    get(m, k as usize)
}

fn set_header(m: &mut [u32], k: u32, v: u32)
    ensures { m.new ≡ write m.old (header k) v }
{
    put(m, k as usize, v);
}

// Place i of the stack of free segments.
pub fn free_segment(m: &[u32], i: u32) -> u32
    ensures { result ≡ read m.now (free_segment i) }
{
    get(m, SEGMENT_STACK + i as usize)
}

pub fn set_free_segment(m: &mut [u32], i: u32, v: u32)
    ensures { m.new ≡ write m.old (free_segment i) v }
{
    put(m, SEGMENT_STACK + i as usize, v);
}

// Place i of the stack of free task records.
pub fn free_task(m: &[u32], i: u32) -> u32
    ensures { result ≡ read m.now (free_task i) }
{
    get(m, TASK_STACK + i as usize)
}

pub fn set_free_task(m: &mut [u32], i: u32, v: u32)
    ensures { m.new ≡ write m.old (free_task i) v }
{
    put(m, TASK_STACK + i as usize, v);
}

// The address of word k of the record of segment s.
fn segment_word(s: u32, k: u32) -> usize
    ensures { result ≡ address (segment s k) }
{
    SEGMENT_RECORDS + s as usize * SEGMENT_WORDS + k as usize
}

// Word k of the record of segment s.
fn segment(m: &[u32], s: u32, k: u32) -> u32
    ensures { result ≡ read m.now (segment s k) }
{
    get(m, segment_word(s, k))
}

fn set_segment(m: &mut [u32], s: u32, k: u32, v: u32)
    ensures { m.new ≡ write m.old (segment s k) v }
{
    put(m, segment_word(s, k), v);
}

// The address of word k of the record of task t. k is a usize: where a caller asks for a queue or a kind that there is none of, it is past a u32.
fn task_word(t: u32, k: usize) -> usize
    requires { k < 2 ^ 48 }
    ensures { result ≡ address (task t k) }
{
    TASK_RECORDS + t as usize * TASK_WORDS + k
}

// Word k of the record of task t.
pub fn task(m: &[u32], t: u32, k: u32) -> u32
    ensures { result ≡ read m.now (task t k) }
{
    get(m, task_word(t, k as usize))
}

pub fn set_task(m: &mut [u32], t: u32, k: u32, v: u32)
    ensures { m.new ≡ write m.old (task t k) v }
{
    put(m, task_word(t, k as usize), v);
}

// THE HEADER. The length of segment s: all segments have one length.
pub fn length_of(m: &[u32], s: u32) -> u32
    ensures { result ≡ read m.now length_word }
{
    header(m, layout::LENGTH_WORD)
}

// How many segments were opened.
pub fn number(m: &[u32]) -> u32
    ensures { result ≡ read m.now number_word }
{
    header(m, layout::NUMBER_WORD)
}

// How many segments are free for queue q: all queues share one stack.
pub fn free_segments(m: &[u32], q: u32) -> u32
    ensures { result ≡ read m.now free_segments }
{
    header(m, layout::FREE_SEGMENTS)
}

pub fn set_free_segments(m: &mut [u32], q: u32, v: u32)
    ensures { m.new ≡ write m.old free_segments v }
{
    set_header(m, layout::FREE_SEGMENTS, v);
}

// How many task records are free.
pub fn free_tasks(m: &[u32]) -> u32
    ensures { result ≡ read m.now free_tasks }
{
    header(m, layout::FREE_TASKS)
}

pub fn set_free_tasks(m: &mut [u32], v: u32)
    ensures { m.new ≡ write m.old free_tasks v }
{
    set_header(m, layout::FREE_TASKS, v);
}

// A SEGMENT. Its first place, its count and its next.
pub fn first(m: &[u32], s: u32) -> u32
    ensures { result ≡ read m.now (first s) }
{
    segment(m, s, layout::FIRST)
}

pub fn set_first(m: &mut [u32], s: u32, v: u32)
    ensures { m.new ≡ write m.old (first s) v }
{
    set_segment(m, s, layout::FIRST, v);
}

pub fn count(m: &[u32], s: u32) -> u32
    ensures { result ≡ read m.now (count s) }
{
    segment(m, s, layout::COUNT)
}

pub fn set_count(m: &mut [u32], s: u32, v: u32)
    ensures { m.new ≡ write m.old (count s) v }
{
    set_segment(m, s, layout::COUNT, v);
}

pub fn next(m: &[u32], s: u32) -> u32
    ensures { result ≡ read m.now (next s) }
{
    segment(m, s, layout::NEXT)
}

pub fn set_next(m: &mut [u32], s: u32, v: u32)
    ensures { m.new ≡ write m.old (next s) v }
{
    set_segment(m, s, layout::NEXT, v);
}

// A TASK.
pub fn status(m: &[u32], t: u32) -> u32
    ensures { result ≡ read m.now (task t STATUS) }
{
    task(m, t, layout::STATUS)
}

pub fn set_status(m: &mut [u32], t: u32, v: u32)
    ensures { m.new ≡ write m.old (task t STATUS) v }
{
    set_task(m, t, layout::STATUS, v);
}

pub fn rights(m: &[u32], t: u32) -> u32
    ensures { result ≡ read m.now (task t RIGHTS) }
{
    task(m, t, layout::RIGHTS)
}

pub fn parent(m: &[u32], t: u32) -> u32
    ensures { result ≡ read m.now (task t PARENT) }
{
    task(m, t, layout::PARENT)
}

pub fn older(m: &[u32], t: u32) -> u32
    ensures { result ≡ read m.now (task t OLDER) }
{
    task(m, t, layout::OLDER)
}

pub fn set_older(m: &mut [u32], t: u32, v: u32)
    ensures { m.new ≡ write m.old (task t OLDER) v }
{
    set_task(m, t, layout::OLDER, v);
}

pub fn younger(m: &[u32], t: u32) -> u32
    ensures { result ≡ read m.now (task t YOUNGER) }
{
    task(m, t, layout::YOUNGER)
}

pub fn set_younger(m: &mut [u32], t: u32, v: u32)
    ensures { m.new ≡ write m.old (task t YOUNGER) v }
{
    set_task(m, t, layout::YOUNGER, v);
}

pub fn youngest(m: &[u32], t: u32) -> u32
    ensures { result ≡ read m.now (task t YOUNGEST) }
{
    task(m, t, layout::YOUNGEST)
}

pub fn set_youngest(m: &mut [u32], t: u32, v: u32)
    ensures { m.new ≡ write m.old (task t YOUNGEST) v }
{
    set_task(m, t, layout::YOUNGEST, v);
}

// The words ws from word k of the record of task t on.
pub fn set_words(m: &mut [u32], t: u32, k: u32, ws: &[u32])
    ensures { m.new ≡ store_all m.old (address (task t k)) ws.now }
{
    put_all(m, task_word(t, k as usize), ws);
}

// THE VIEWS OF A TASK. The head of its queue view of queue q.
pub fn queue_head(m: &[u32], t: u32, q: u32) -> u32
    ensures { result ≡ read m.now (queue_head t q) }
{
    get(m, task_word(t, QUEUE_HEADS as usize + q as usize))
}

pub fn set_queue_head(m: &mut [u32], t: u32, q: u32, v: u32)
    ensures { m.new ≡ write m.old (queue_head t q) v }
{
    put(m, task_word(t, QUEUE_HEADS as usize + q as usize), v);
}

// The address of the word of queue q among those of the views of kind k: base is where the heads stand in a record, or the tails.
fn view_word(base: u32, k: u32, t: u32, q: u32) -> usize
    ensures { result ≡ address (task t (base + k * 4 + q)) }
{
    task_word(t, base as usize + k as usize * 4 + q as usize)
}

// The head of view k of task t of queue q.
pub fn head(m: &[u32], k: u32, t: u32, q: u32) -> u32
    ensures { result ≡ read m.now (head k t q) }
{
    get(m, view_word(CHILDREN_HEADS, k, t, q))
}

pub fn set_head(m: &mut [u32], k: u32, t: u32, q: u32, v: u32)
    ensures { m.new ≡ write m.old (head k t q) v }
{
    put(m, view_word(CHILDREN_HEADS, k, t, q), v);
}

// The tail of view k of task t of queue q.
pub fn tail(m: &[u32], k: u32, t: u32, q: u32) -> u32
    ensures { result ≡ read m.now (tail k t q) }
{
    get(m, view_word(CHILDREN_TAILS, k, t, q))
}

pub fn set_tail(m: &mut [u32], k: u32, t: u32, q: u32, v: u32)
    ensures { m.new ≡ write m.old (tail k t q) v }
{
    put(m, view_word(CHILDREN_TAILS, k, t, q), v);
}
