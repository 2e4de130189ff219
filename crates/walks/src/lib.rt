// Walks over tasks: the tour of the task tree, siblings, and what the calls ask of them. Each walk is bounded by the
// number of its steps, so it ends on any memory.
#![tactic(auto, using(crate::proofs::Found::or_end, crate::proofs::Found::some_before_end), unfolding(spec_words::specs::Words::pick, spec_words::specs::Words::both, spec_words::specs::Words::either, spec_tree::specs::Tour::exiting, spec_tree::specs::Tour::entering, spec_outcomes::specs::Views::task_at, spec_outcomes::specs::Views::kind_at, spec_outcomes::specs::Views::has_part, spec_outcomes::specs::Views::stands_at, spec_outcomes::specs::Views::just_before, spec_outcomes::specs::Views::returned_to, spec_outcomes::specs::Views::view_of, spec_outcomes::specs::Views::is_empty, spec_outcomes::specs::Views::head_of, spec_outcomes::specs::Finish::heir, spec_outcomes::specs::Waits::unfinished, spec_outcomes::specs::Waits::blocked, spec_outcomes::specs::Waits::child_pops, spec_outcomes::specs::Waits::has_child, spec_outcomes::specs::Waits::pusher_before, crate::specs::Asked::counts, spec_words::specs::Found::found))]

ghost use Rattle.std.specs.Prelude.{◌≡◌, ℕ, Bool, not, ◌<◌, ltb, eqb};
ghost use Rattle.spec_words.specs.Words.{pick, both};
ghost use Rattle.spec_words.specs.Found.{found};
ghost use Rattle.spec_layout.specs.Layout.{NONE, rights_of, record_of};
ghost use Rattle.spec_tree.specs.Rights.{pushes, pops, shares_pop};
ghost use Rattle.spec_tree.specs.Tour.{MARKS, exiting, entering, after, seek, sibling, oldest};
ghost use Rattle.spec_rules.specs.Views.{view};
ghost use Rattle.spec_outcomes.specs.Waits.{unfinished, blocked, child_pops, has_child, pusher_before};
ghost use Rattle.spec_outcomes.specs.Views.{task_at, kind_at, has_part, stands_at, just_before, returned_to};
ghost use Rattle.spec_outcomes.specs.Finish.{heir};
ghost use Rattle.walks.specs.Asked.{counts, Tests};

use layout::{CHILDREN, END, MARKS, NL, NONE, RIGHT, TASKS, UNFINISHED};

// Where task p is exited. Nowhere is END and no Option, here and below: the tour of the definitions goes on at END, and the clauses
// of `just_before` and `returned_to` give that number.
fn exiting(p: u32) -> u32
    ensures { result ≡ exiting p }
{
    if p < TASKS { TASKS + p } else { END }
}

// Where c is entered, or its parent p exited where c is no task.
fn entering(p: u32, c: u32) -> u32
    ensures { result ≡ entering p c }
{
    if c < TASKS { c } else { exiting(p) }
}

// The mark after x.
#[tactic(auto, using(crate::proofs::Tour::after_entered, crate::proofs::Tour::after_exited))]
pub fn after(m: &[u32], x: u32) -> u32
    ensures { result ≡ after (record_of m.now) x }
{
    if x < TASKS {
        return entering(x, memory::youngest(m, x));
    }
    let t = x - TASKS;
    let p = memory::parent(m, t);
    entering(p, memory::older(m, t))
}

pub fn unfinished(m: &[u32], t: u32) -> bool
    ensures { result ≡ unfinished m.now t }
{
    t < TASKS && memory::status(m, t) == UNFINISHED
}

// One of `from` and its older siblings shares a pop right with rights a.
#[tactic(auto, using(crate::specs::Steps::sibling_none, crate::specs::Steps::sibling_end, crate::specs::Steps::sibling_here, crate::specs::Steps::sibling_on))]
fn sharing(m: &[u32], a: u32, from: u32) -> bool
    ensures { result ≡ not (eqb (sibling 128 (λ c. shares_pop (rights_of m.now c) a) (record_of m.now) from) NONE) }
{
    let mut c = from;
    for _ in 0..TASKS {
        if TASKS <= c {
            return false;
        }
        if rights::shares_pop(memory::rights(m, c), a) {
            return true;
        }
        c = memory::older(m, c);
    }
    false
}

pub fn blocked(m: &[u32], t: u32) -> bool
    ensures { result ≡ blocked m.now t }
{
    sharing(m, memory::rights(m, t), memory::older(m, t))
}

pub fn child_pops(m: &[u32], t: u32, q: u32) -> bool
    requires { q < 4 }
    ensures { result ≡ child_pops m.now t q }
{
    sharing(m, rights::pop_right(q), memory::youngest(m, t))
}

pub fn has_child(m: &[u32], t: u32) -> bool
    ensures { result ≡ has_child m.now t }
{
    memory::youngest(m, t) != NONE
}

// At mark x a task is entered that may push to q.
fn meets_pusher(m: &[u32], q: u32, x: u32) -> bool
    requires { q < 4 }
    ensures { result ≡ both (ltb x 128) (pushes (rights_of m.now x) q) }
{
    x < TASKS && rights::pushes(memory::rights(m, x), q)
}

// The task that is entered or exited at mark x.
pub fn task_at(x: u32) -> u32
    ensures { result ≡ task_at x }
{
    if x < TASKS { x } else { x - TASKS }
}

// The kind of the view that stands at mark x.
pub fn kind_at(x: u32) -> u32
    ensures { result ≡ kind_at x }
{
    if x < TASKS { RIGHT } else { CHILDREN }
}

fn takes_part(m: &[u32], q: u32, x: u32) -> bool
    requires { q < 4 }
    ensures { result ≡ has_part m.now q x }
{
    rights::uses(memory::rights(m, task_at(x)), q)
}

// The view at mark x is no empty children view. The mark TASKS is where the top is exited: its children view counts even if empty.
fn counts(m: &[u32], q: u32, x: u32) -> bool
    ensures { result ≡ counts m.now q x }
{
    x <= TASKS
        || memory::head(m, CHILDREN, x - TASKS, q) != NONE
        || memory::tail(m, CHILDREN, x - TASKS, q) != NONE
}

// Most marks of a long walk have an empty children view, so that is asked first.
fn stands_at(m: &[u32], q: u32, x: u32) -> bool
    requires { q < 4 }
    ensures { result ≡ stands_at m.now q x }
{
    counts(m, q, x) && takes_part(m, q, x)
}

// The first mark from `from` on of which the test holds.
pub fn seek<F: Fn(u32) -> bool>(m: &[u32], from: u32, test: F) -> Option<u32>
    requires { F.IsAlwaysCallable test }
    ensures { (f : ℕ → Bool) → Tests (F.post test) f → result ≡ found MARKS (seek MARKS f (record_of m.now) from) }
{
    let mut x = from;
    for _ in 0..MARKS {
        if END <= x {
            return None;
        }
        if test(x) {
            return Some(x);
        }
        x = after(m, x);
    }
    None
}

pub fn pusher_before(m: &[u32], t: u32, q: u32) -> bool
    requires { q < 4 }
    ensures { result ≡ pusher_before m.now t q }
{
    seek(m, after(m, t), |x| meets_pusher(m, q, x)).is_some()
}

pub fn just_before(m: &[u32], q: u32, t: u32) -> u32
    requires { q < 4 }
    ensures { result ≡ just_before m.now q t }
{
    seek(m, after(m, t), |x| stands_at(m, q, x)).unwrap_or(END)
}

// The view (h, e) goes by its head alone.
#[tactic(auto, using(crate::proofs::Found::or_end), unfolding(spec_words::specs::Words::pick, spec_outcomes::specs::Views::returned_to, spec_outcomes::specs::Views::head_of))]
pub fn returned_to(m: &[u32], q: u32, t: u32, h: u32, e: u32) -> u32
    requires { (q < 4) × (t < 128) }
    ensures { result ≡ returned_to m.now q t (view h e) }
{
    let x = after(m, t + TASKS);
    let found = if h == NL {
        seek(m, x, |x| takes_part(m, q, x))
    } else {
        seek(m, x, |x| stands_at(m, q, x))
    };
    found.unwrap_or(END)
}

// c where c is a sibling of t that may pop q, else d.
fn heir_or(m: &[u32], t: u32, q: u32, c: u32, d: u32) -> u32
    requires { q < 4 }
    ensures { result ≡ pick (both (not (eqb c t)) (pops (rights_of m.now c) q)) c d }
{
    if c != t && rights::pops(memory::rights(m, c), q) {
        c
    } else {
        d
    }
}

// The oldest of `from` and its older siblings that may pop q and is not t, else p.
// It goes on to the last sibling where `sharing` stops at the first, so one walk for both would need to be told when to stop.
#[tactic(auto, using(crate::specs::Steps::oldest_none, crate::specs::Steps::oldest_end, crate::specs::Steps::oldest_on))]
fn oldest_popping(m: &[u32], t: u32, q: u32, from: u32, p: u32) -> u32
    requires { q < 4 }
    ensures { result ≡ oldest 128 (λ c. both (not (eqb c t)) (pops (rights_of m.now c) q)) (record_of m.now) from p }
{
    let mut c = from;
    let mut d = p;
    for _ in 0..TASKS {
        if TASKS <= c {
            return d;
        }
        d = heir_or(m, t, q, c, d);
        c = memory::older(m, c);
    }
    d
}

pub fn heir(m: &[u32], t: u32, q: u32) -> u32
    requires { q < 4 }
    ensures { result ≡ heir m.now t q }
{
    let p = memory::parent(m, t);
    oldest_popping(m, t, q, memory::youngest(m, p), p)
}
