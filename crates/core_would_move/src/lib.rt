// Whether a call of the core would move, asked of an unfinished task that no older sibling blocks. Nothing is written.
#![tactic(auto, unfolding(spec_words::specs::Words::both, spec_words::specs::Words::either, spec_words::specs::Words::pick, spec_outcomes::specs::Segments::has_none_free, spec_outcomes::specs::Views::tail_of, spec_outcomes::specs::Views::view_of, spec_runner::specs::Moves::fits_apart, spec_runner::specs::Moves::has_room, spec_runner::specs::Moves::value_fits, spec_runner::specs::Moves::push_moves, spec_runner::specs::Moves::spawn_moves, spec_runner::specs::Moves::decided, spec_runner::specs::Moves::take_moves, spec_runner::specs::Moves::sync_moves, spec_runner::specs::Moves::finish_moves))]

ghost use Rattle.std.specs.Prelude.{◌≡◌, true, ◌<◌, length, IfSome};
ghost use Rattle.spec_layout.specs.Layout.{free_height, rights_of};
ghost use Rattle.spec_tree.specs.Rights.{uses, each_queue};
ghost use Rattle.spec_outcomes.specs.Views.{just_before};
ghost use Rattle.spec_outcomes.specs.Finish.{finishes};
ghost use Rattle.spec_runner.specs.Moves.{fits_apart, has_room, value_fits, push_moves, spawn_moves, take_moves, sync_moves, finish_moves};

use layout::{CHILDREN, NL, QUEUES, RIGHT, TASKS, USER};
use spec_answers::Finding;
use views::View;

// A new segment's head can be reduced into the view at mark x.
fn fits_apart(m: &[u32], q: u32, x: u32) -> bool
    requires { 0 < free_height m.now q }
    ensures { result ≡ fits_apart m.now q x }
{
    let new = View {
        head: segments::next_free(m, q),
        tail: NL,
    };
    View::of(m, q, walks::task_at(x), walks::kind_at(x)).reducible(new)
}

// The tail segment e has room, or a segment is free.
fn has_room(m: &[u32], q: u32, e: u32) -> bool
    ensures { result ≡ has_room m.now q e }
{
    memory::count(m, e) < memory::length_of(m, e) || !segments::none_free(m, q)
}

// Task c where it is one with a right to q, so that its right view stands where it is entered.
fn entered(m: &[u32], q: u32, c: u32) -> Option<u32>
    requires { q < 4 }
    ensures { IfSome result (λ x. (x ≡ c) × (x < 128) × (uses (rights_of m.now c) q ≡ true)) }
{
    if c < TASKS && rights::uses(memory::rights(m, c), q) {
        Some(c)
    } else {
        None
    }
}

// The mark just before the user view of task t where it is at hand: where the youngest child is entered, or the older sibling if t has
// no child and its children view is empty.
fn at_hand(m: &[u32], q: u32, t: u32) -> Option<u32>
    requires { (q < 4) × (t < 128) }
    ensures { IfSome result (λ x. x ≡ just_before m.now q t) }
{
    let c = memory::youngest(m, t);
    if c < TASKS {
        return entered(m, q, c);
    }
    if t == 0 {
        return None;
    }
    // Word by word, and not by View::of: a wrong program that asks for one word of another view differs by one operand.
    let children = View {
        head: memory::head(m, CHILDREN, t, q),
        tail: memory::tail(m, CHILDREN, t, q),
    };
    if !children.is_empty() {
        return None;
    }
    entered(m, q, memory::older(m, t))
}

// For most tasks no walk is needed.
fn just_before(m: &[u32], q: u32, t: u32) -> u32
    requires { (q < 4) × (t < 128) }
    ensures { result ≡ just_before m.now q t }
{
    match at_hand(m, q, t) {
        Some(x) => x,
        None => walks::just_before(m, q, t),
    }
}

// A value can be pushed to the user view of task t.
fn value_fits(m: &[u32], t: u32, q: u32) -> bool
    requires { (q < 4) × (t < 128) }
    ensures { result ≡ value_fits m.now t q }
{
    let user = View::of(m, q, t, USER);
    if user.is_empty() {
        return !segments::none_free(m, q) && fits_apart(m, q, just_before(m, q, t));
    }
    user.tail < NL && has_room(m, q, user.tail)
}

pub fn push_moves(m: &[u32], t: u32, q: u32) -> bool
    requires { t < 128 }
    ensures { result ≡ push_moves m.now t q }
{
    q < QUEUES && rights::pushes(memory::rights(m, t), q) && value_fits(m, t, q)
}

// A spawn of a child with rights a.
pub fn spawn_moves(m: &[u32], t: u32, a: u32) -> bool
    ensures { result ≡ spawn_moves m.now t a }
{
    rights::subset(a, memory::rights(m, t)) && memory::free_tasks(m) != 0
}

// A take, whether the value stays or not.
pub fn take_moves(m: &[u32], t: u32, q: u32) -> bool
    ensures { result ≡ take_moves m.now t q }
{
    q < QUEUES
        && rights::pops(memory::rights(m, t), q)
        && !matches!(core_take::find(m, t, q), Finding::Waits)
}

pub fn sync_moves(m: &[u32], t: u32) -> bool
    ensures { result ≡ sync_moves m.now t }
{
    !walks::has_child(m, t) && core_finish::each_syncs(m, t)
}

// Task t holds nothing in any view, so that it has nothing to return.
#[tactic(auto, using(crate::proofs::Moves::blanks_finish))]
fn no_views(m: &[u32], t: u32) -> bool
    requires { (length m.now ≡ 16384) × (t < 128) }
    ensures { result ≡ true → true ≡ each_queue (finishes m.now t) }
{
    let i = t as usize;
    view_test::empty(m, i, CHILDREN as usize)
        && view_test::empty(m, i, USER as usize)
        && view_test::empty(m, i, RIGHT as usize)
}

// Most tasks that are about to finish have no views, so that is asked first.
pub fn finish_moves(m: &[u32], t: u32) -> bool
    requires { (length m.now ≡ 16384) × (t < 128) }
    ensures { result ≡ finish_moves m.now t }
{
    if walks::has_child(m, t) {
        return false;
    }
    if t == 0 {
        return core_finish::each_syncs(m, t);
    }
    no_views(m, t) || core_finish::each_finishes(m, t)
}
