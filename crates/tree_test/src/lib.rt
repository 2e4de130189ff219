// The memory test: opening numbers, free task records, the top and the task tree.
#![tactic(auto)]

ghost use Rattle.std.specs.Prelude.{◌≡◌, true, ◌+◌, ◌<◌, ◌≤◌, length, take};
ghost use Rattle.spec_layout.specs.Layout.{record_of};
ghost use Rattle.spec_tree.specs.Tour.{tour};
ghost use Rattle.spec_rules.specs.Contents.{decode};
ghost use Rattle.spec_rules.specs.Test.{in_range, top_test, idle_test, tree_test};
ghost use Rattle.tree_test.specs.Top.{top_alone};
ghost use Rattle.tree_test.specs.Counted.{faults_from, near_from, marks};
ghost use Rattle.tree_test.specs.Links.{record_fits, fitting};
ghost use Rattle.tree_test.specs.Walk.{entered_next, exited_next};
ghost use Rattle.tree_test.specs.Led.{Led};
ghost use Rattle.spec_words.specs.Found.{found};

use layout::{
    ALL_RIGHTS, END, FINISHED, LAST_TASK, MAX_LENGTH, NONE, OLDER, PARENT, QUEUES, RIGHTS,
    SEGMENTS, STATUS, TASK_RECORDS, TASK_STACK, TASK_WORDS, TASKS, UNFINISHED, VALUE_WORDS,
    YOUNGER, YOUNGEST,
};

// The number of tasks, as a usize.
const RECORDS: usize = TASKS as usize;

// "L is 1 to 64, segments 4 to 256, and L times segments is at most 8,192"
#[tactic(auto, using(crate::specs::Top::fits), unfolding(spec_rules::specs::Test::in_range, spec_rules::specs::Test::within, spec_words::specs::Words::both, spec_words::specs::Words::pick))]
pub fn in_range(l: u32, n: u32) -> bool
    ensures { result ≡ in_range l n }
{
    1 <= l && l <= MAX_LENGTH && QUEUES <= n && n <= SEGMENTS && l * n <= VALUE_WORDS
}

// The links and the rights of the top.
#[tactic(auto, unfolding(crate::specs::Top::top_alone, spec_words::specs::Words::both, spec_words::specs::Words::pick))]
fn top_alone(m: &[u32]) -> bool
    ensures { result ≡ top_alone m.now }
{
    memory::rights(m, 0) == ALL_RIGHTS
        && memory::parent(m, 0) == NONE
        && memory::older(m, 0) == NONE
        && memory::younger(m, 0) == NONE
}

// The top is unfinished, or finished without children.
#[tactic(auto, using(crate::specs::Top::top_open, crate::specs::Top::top_closed, crate::specs::Top::top_other, crate::specs::Top::top_parent))]
pub fn top_ok(m: &[u32]) -> bool
    ensures { result ≡ top_test (decode m.now) }
{
    let s = memory::status(m, 0);
    (s == UNFINISHED || s == FINISHED && memory::youngest(m, 0) == NONE) && top_alone(m)
}

// What is wrong with the h free records, summed up: 0 where they are records of tasks with the status of a free one. They
// are marked in d. There is no branch for a record, since that is faster.
fn mark_free(m: &[u32], d: &mut [u8; 256], h: usize) -> u64
    requires { (length m.now ≡ 16384) × (h ≤ 127) }
    ensures { (result ≡ faults_from h m.now 0) × (d.new ≡ near_from h m.now 0 d.old) }
{
    let mut w: u64 = 0;
    for t in &m[TASK_STACK..TASK_STACK + h] {
        let near = *t as usize % RECORDS;
        w += u64::from(*t / TASKS) + u64::from(m[TASK_RECORDS + near * TASK_WORDS]);
        d[near] = 1;
    }
    w
}

// How many tasks are marked in d.
fn marks(d: &[u8; 256]) -> u32
    ensures { result ≡ marks d.now }
{
    let mut n: u32 = 0;
    for mark in &d[..RECORDS] {
        n += u32::from(*mark);
    }
    n
}

// At most 127 free records, none twice, none of them task 0, each with the status of a free one. None stands on the
// stack twice where there are as many marks as records.
#[tactic(auto, using(crate::specs::Idle::idle_many), unfolding(spec_words::specs::Words::size))]
pub fn idle_ok(m: &[u32]) -> bool
    requires { length m.now ≡ 16384 }
    ensures { result ≡ idle_test (decode m.now) }
{
    let h = memory::free_tasks(m);
    if h > LAST_TASK {
        return false;
    }
    let mut d = [0u8; 256];
    mark_free(m, &mut d, h as usize) == 0 && d[0] == 0 && marks(&d) == h
}

// Is the record of task t that of an unfinished task with parent p and younger sibling y, and are its rights a part of b?
#[tactic(auto, using(crate::specs::Records::status_at, crate::specs::Records::word_at), unfolding(crate::specs::Links::record_fits, spec_words::specs::Words::both, spec_words::specs::Words::pick))]
fn record_fits(m: &[u32], t: u32, p: u32, y: u32, b: u32) -> bool
    requires { (length m.now ≡ 16384) × (t < 128) }
    ensures { result ≡ record_fits (decode m.now) t p y b }
{
    let a = TASK_RECORDS + t as usize * TASK_WORDS;
    m[a + STATUS as usize] == UNFINISHED
        && m[a + PARENT as usize] == p
        && m[a + YOUNGER as usize] == y
        && rights::subset(m[a + RIGHTS as usize], b)
}

// May task t stand where the parent is p, the younger sibling y, and the rights are to be a part of b?
#[tactic(auto, unfolding(crate::specs::Links::fitting, crate::specs::Links::record_fits, spec_words::specs::Words::both, spec_words::specs::Words::pick))]
fn fitting(m: &[u32], t: u32, p: u32, y: u32, b: u32) -> bool
    requires { length m.now ≡ 16384 }
    ensures { result ≡ fitting (decode m.now) t p y b }
{
    1 <= t && t <= LAST_TASK && record_fits(m, t, p, y, b)
}

// The mark after the one where task t is entered, if the link is right.
fn entered_next(m: &[u32], t: u32) -> Option<u32>
    requires { (length m.now ≡ 16384) × (t < 128) }
    ensures { result ≡ found END (entered_next (decode m.now) t) }
{
    let a = TASK_RECORDS + t as usize * TASK_WORDS;
    let u = m[a + YOUNGEST as usize];
    if u == NONE {
        return Some(TASKS + t);
    }
    fitting(m, u, t, NONE, m[a + RIGHTS as usize]).then_some(u)
}

// The mark after the one where task t is exited, if the link is right and the parent is a task.
fn exited_next(m: &[u32], t: u32) -> Option<u32>
    requires { (length m.now ≡ 16384) × (t < 128) }
    ensures { result ≡ found END (exited_next (decode m.now) t) }
{
    let a = TASK_RECORDS + t as usize * TASK_WORDS;
    let p = m[a + PARENT as usize];
    if p > LAST_TASK {
        return None;
    }
    let u = m[a + OLDER as usize];
    if u == NONE {
        return Some(TASKS + p);
    }
    let b = m[TASK_RECORDS + p as usize * TASK_WORDS + RIGHTS as usize];
    fitting(m, u, p, t, b).then_some(u)
}

// Where the walk along the tree stands: the next mark, and how many marks are written.
#[derive(Clone, Copy)]
struct Spot {
    mark: u32,
    written: usize,
}

// From where task t0 is exited, with i0 marks written: up to where an older sibling is entered, or to the top. The mark where
// the top is exited is for the caller to write, since it is the last.
fn climb(m: &[u32], xs: &mut [u32], n: usize, t0: u32, i0: usize) -> Option<Spot>
    requires { (length m.now ≡ 16384) × (length xs.old ≡ 256) × (n ≤ 256) × (t0 < 128) }
    ensures { Led (decode m.now) n (128 + t0) i0 xs.old i0 result xs.new }
{
    let mut t = t0;
    for i in i0..n {
        if t == 0 {
            return Some(Spot {
                mark: TASKS,
                written: i,
            });
        }
        xs[i] = TASKS + t;
        let y = exited_next(m, t)?;
        if y < TASKS {
            return Some(Spot {
                mark: y,
                written: i + 1,
            });
        }
        t = y - TASKS;
    }
    None
}

// From where task t is entered, with i marks written: to where the next task is entered or the top is exited.
fn onward(m: &[u32], xs: &mut [u32], n: usize, t: u32, i: usize) -> Option<Spot>
    requires { (length m.now ≡ 16384) × (length xs.old ≡ 256) × (n ≤ 256) × (t < 128) × (i < n) }
    ensures { Led (decode m.now) n t i xs.old (i + 1) result xs.new }
{
    xs[i] = t;
    let y = entered_next(m, t)?;
    if y < TASKS {
        return Some(Spot {
            mark: y,
            written: i + 1,
        });
    }
    climb(m, xs, n, y - TASKS, i + 1)
}

// The tour of the tree has k marks, and each link that it follows is right. The marks are left in xs.
pub fn tree_ok(m: &[u32], xs: &mut [u32], k: u32) -> bool
    requires { (length m.now ≡ 16384) × (length xs.old ≡ 256) × (k ≤ 256) }
    ensures { (result ≡ tree_test (decode m.now) k 0) × (result ≡ true → take k xs.new ≡ tour k (record_of m.now) 0) }
{
    let n = k as usize;
    let mut x: u32 = 0;
    let mut i: usize = 0;
    // A while loop: a turn writes one mark or many, and the next begins behind them.
    while i < n {
        let Some(s) = onward(m, xs, n, x, i) else {
            return false;
        };
        x = s.mark;
        i = s.written;
        if x == TASKS {
            if i >= n {
                return false;
            }
            xs[i] = x;
            return i + 1 == n;
        }
    }
    false
}
