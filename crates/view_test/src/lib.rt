// The memory test of views and segments: the views in the order of the tour, with the chains of segments; all segment records.
#![tactic(auto)]

ghost use Rattle.std.specs.Prelude.{◌≡◌, true, ◌+◌, ◌-◌, ◌*◌, ◌<◌, ◌≤◌, length, get_or, set, replicate};
ghost use Rattle.spec_lists.specs.Marks.{marking};
ghost use Rattle.spec_layout.specs.Layout.{NONE, CHILDREN, USER, RIGHT};
ghost use Rattle.spec_rules.specs.Contents.{decode};
ghost use Rattle.spec_rules.specs.Test.{view_tests};
ghost use Rattle.spec_rules.specs.Held.{held_count};
ghost use Rattle.spec_view_events.specs.Events.{queues_at, kind_at, events_at, events};
ghost use Rattle.spec_view_events.specs.Run.{PLACED, four_ones, whole, run};
ghost use Rattle.spec_view_events.specs.Walk.{Marks};
ghost use Rattle.spec_view_events.specs.Groups.{Blank};
ghost use Rattle.spec_view_events.specs.Sees.{Ready, Sees, SeesHeads};
ghost use Rattle.law_view_events.specs.Begun.{Begun};

use layout::{
    HEADS_AT, NONE, NUMBER_AT, QUEUE_HEADS_AT, QUEUES, RIGHTS_AT, TAILS_AT, TASK_WORDS, TASKS,
};
use view_steps::{HEADS, ORDERS, PLACED, SEEN, TAILS};

// The kinds of views, which count words here.
const CHILDREN: usize = layout::CHILDREN as usize;

const USER: usize = layout::USER as usize;

const RIGHT: usize = layout::RIGHT as usize;

// The bits that four words from address a on share.
fn shared(m: &[u32], a: usize) -> u32
    requires { (length m.now ≡ 16384) × (a < 16000) }
    ensures { NONE ≤ result → Blank m.now a }
{
    m[a] & m[a + 1] & m[a + 2] & m[a + 3]
}

// The four views of kind k of task t are empty.
pub fn empty(m: &[u32], t: usize, k: usize) -> bool
    requires { (length m.now ≡ 16384) × (t < 128) × (k < 3) }
    ensures { result ≡ true → Blank m.now (1492 + t * 48 + k * 4) × Blank m.now (1504 + t * 48 + k * 4) }
{
    shared(m, HEADS_AT + t * TASK_WORDS + k * 4) & shared(m, TAILS_AT + t * TASK_WORDS + k * 4)
        == NONE
}

// The four views of kind k of task t.
fn four(
    d: &mut [u8; 256],
    f: &mut [u8; 256],
    w: &mut [u32; 12],
    m: &[u32],
    t: usize,
    k: usize,
) -> bool
    requires { Ready m.now × (t < 128) × (k < 3) }
    ensures { Sees m.now (kind_at (decode m.now) t k) result
        d.old f.old w.old d.new f.new w.new }
{
    let a = HEADS_AT + t * TASK_WORDS + k * 4;
    let mut r = m[RIGHTS_AT + t * TASK_WORDS];
    for q in 0..QUEUES as usize {
        if !view_steps::view(d, f, w, m, a + q, r, q) {
            return false;
        }
        r = r / 4;
    }
    true
}

// The four queue views of task t.
// Four calls and no loop as in `four`: with the shifts written out no invariant is needed.
fn queues(d: &mut [u8; 256], w: &mut [u32; 12], m: &[u32], t: usize) -> bool
    requires { Ready m.now × (t < 128) }
    ensures { SeesHeads m.now (queues_at (decode m.now) t) result
        d.old w.old d.new w.new }
{
    let r = m[RIGHTS_AT + t * TASK_WORDS];
    let a = QUEUE_HEADS_AT + t * TASK_WORDS;
    if !view_steps::queue(d, w, m, a, r, 0) {
        return false;
    }
    if !view_steps::queue(d, w, m, a + 1, r / 4, 1) {
        return false;
    }
    if !view_steps::queue(d, w, m, a + 2, r / 16, 2) {
        return false;
    }
    view_steps::queue(d, w, m, a + 3, r / 64, 3)
}

// The user views of task t.
fn user(d: &mut [u8; 256], f: &mut [u8; 256], w: &mut [u32; 12], m: &[u32], t: usize) -> bool
    requires { Ready m.now × (t < 128) }
    ensures { Sees m.now (kind_at (decode m.now) t USER) result
        d.old f.old w.old d.new f.new w.new }
{
    empty(m, t, USER) || four(d, f, w, m, t, USER)
}

// The right views of task t and, in front of them, its user views.
fn right(d: &mut [u8; 256], f: &mut [u8; 256], w: &mut [u32; 12], m: &[u32], t: usize) -> bool
    requires { Ready m.now × (t < 128) }
    ensures { Sees m.now (λ es. kind_at (decode m.now) t RIGHT (kind_at (decode m.now) t USER es)) result
        d.old f.old w.old d.new f.new w.new }
{
    if empty(m, t, RIGHT) {
        return user(d, f, w, m, t);
    }
    four(d, f, w, m, t, RIGHT) && user(d, f, w, m, t)
}

// Task t where it is entered.
fn entered(d: &mut [u8; 256], f: &mut [u8; 256], w: &mut [u32; 12], m: &[u32], t: usize) -> bool
    requires { Ready m.now × (t < 128) }
    ensures { Sees m.now (λ es. queues_at (decode m.now) t
        (kind_at (decode m.now) t RIGHT (kind_at (decode m.now) t USER es))) result
        d.old f.old w.old d.new f.new w.new }
{
    if shared(m, QUEUE_HEADS_AT + t * TASK_WORDS) == NONE {
        return right(d, f, w, m, t);
    }
    queues(d, w, m, t) && right(d, f, w, m, t)
}

// Task t where it is exited.
fn exited(d: &mut [u8; 256], f: &mut [u8; 256], w: &mut [u32; 12], m: &[u32], t: usize) -> bool
    requires { Ready m.now × (t < 128) }
    ensures { Sees m.now (kind_at (decode m.now) t CHILDREN) result
        d.old f.old w.old d.new f.new w.new }
{
    empty(m, t, CHILDREN) || four(d, f, w, m, t, CHILDREN)
}

// A mark of the tour.
fn mark(d: &mut [u8; 256], f: &mut [u8; 256], w: &mut [u32; 12], m: &[u32], x: u32) -> bool
    requires { Ready m.now × (x < 256) }
    ensures { Sees m.now (events_at (decode m.now) x) result
        d.old f.old w.old d.new f.new w.new }
{
    if x < TASKS {
        return entered(d, f, w, m, x as usize);
    }
    exited(d, f, w, m, (x - TASKS) as usize)
}

// The four words of the state from a on are 1.
#[tactic(auto, unfolding(spec_view_events::specs::Run::four_ones, spec_words::specs::Words::load, spec_words::specs::Words::both, spec_words::specs::Words::pick))]
fn ones(w: &[u32; 12], a: usize) -> bool
    requires { a < 9 }
    ensures { result ≡ four_ones w.now a }
{
    w[a] == 1 && w[a + 1] == 1 && w[a + 2] == 1 && w[a + 3] == 1
}

// The end: the order of each queue is right, each queue view was seen, each segment placed, each chain has its tail.
#[tactic(auto, unfolding(spec_view_events::specs::Run::whole, spec_layout::specs::Layout::read, spec_layout::specs::Layout::address, spec_words::specs::Words::load, spec_words::specs::Words::both, spec_words::specs::Words::pick))]
fn whole(w: &[u32; 12], m: &[u32]) -> bool
    requires { length m.now ≡ 16384 }
    ensures { result ≡ whole (decode m.now) w.now }
{
    ones(w, ORDERS) && ones(w, SEEN) && w[PLACED] == m[NUMBER_AT] && w[HEADS] == w[TAILS]
}

// All marks of the tour.
fn walk(d: &mut [u8; 256], f: &mut [u8; 256], w: &mut [u32; 12], m: &[u32], xs: &[u32]) -> bool
    requires { Ready m.now × Marks xs.now }
    ensures { result ≡ run (decode m.now) (events (decode m.now) xs.now)
        d.old f.old w.old }
{
    for x in xs {
        if !mark(d, f, w, m, *x) {
            return false;
        }
    }
    whole(w, m)
}

// The memory test of views and segments: xs are the marks of the tour, d has those of the free segments, which count as placed
// from the start, so w has as many as were opened and are not held.
pub fn views_hold(d: &mut [u8; 256], w: &mut [u32; 12], m: &[u32], xs: &[u32]) -> bool
    requires { Begun m.now xs.now × (d.old ≡ marking (decode m.now).free (replicate 256 0))
        × (w.old ≡ set (replicate 12 0) PLACED (get_or m.now 1 0 - held_count (decode m.now))) }
    ensures { result ≡ view_tests (decode m.now) xs.now }
{
    if !segment_test::segments_hold(m) {
        return false;
    }
    let mut f = *d;
    walk(d, &mut f, w, m, xs)
}
