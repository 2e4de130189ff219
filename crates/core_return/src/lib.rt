// What a task returns of a queue when it finishes: whether the paper has the reductions, and where the views go.
#![tactic(auto, unfolding(spec_words::specs::Words::both, spec_words::specs::Words::either, spec_words::specs::Words::pick, spec_outcomes::specs::Views::head_of, spec_outcomes::specs::Finish::queue_returned, spec_outcomes::specs::Finish::finished_queue, crate::specs::Returning::fits, crate::specs::Returning::target, crate::specs::Returning::right_fits, crate::specs::Returning::no_views, crate::specs::Returning::view_returned))]

ghost use Rattle.std.specs.Prelude.{◌≡◌, ◌<◌, eqb};
ghost use Rattle.spec_words.specs.Words.{pick};
ghost use Rattle.spec_layout.specs.Layout.{NL};
ghost use Rattle.spec_outcomes.specs.Finish.{finishes, views_returned, queue_returned, finished_queue};
ghost use Rattle.views.specs.Ends.{seen};
ghost use Rattle.core_return.specs.Returning.{no_views, fits, right_fits, view_returned};

use layout::{CHILDREN, NL, NONE, RIGHT, USER};
use views::View;

// View v can be reduced into the view that it goes to.
fn view_fits(m: &[u32], t: u32, q: u32, v: View) -> bool
    requires { (q < 4) × (t < 128) }
    ensures { result ≡ fits m.now t q (seen v) }
{
    if v.is_empty() {
        return true;
    }
    let x = walks::returned_to(m, q, t, v.head, v.tail);
    View::of(m, q, walks::task_at(x), walks::kind_at(x)).reducible(v)
}

// The right view can be reduced with children view and user view, and the result returned.
fn right_fits(m: &[u32], t: u32, q: u32, children: View, user: View) -> bool
    requires { (q < 4) × (t < 128) }
    ensures { result ≡ right_fits m.now t q (seen children) (seen user) }
{
    let left = children.reduced(m, user);
    let right = View::of(m, q, t, RIGHT).after(m, children, user);
    left.reducible(right) && view_fits(m, t, q, left.reduced(m, right))
}

// Task t has nothing to return for queue q.
fn no_views(m: &[u32], t: u32, q: u32) -> bool
    ensures { result ≡ no_views m.now t q }
{
    View::of(m, q, t, USER).is_empty()
        && View::of(m, q, t, CHILDREN).is_empty()
        && View::of(m, q, t, RIGHT).is_empty()
}

// The paper has all reductions of queue q. A task without a right to q has no views there.
#[tactic(auto, using(crate::proofs::Deciding::parts, crate::proofs::Deciding::nothing_finishes), unfolding(spec_words::specs::Words::both, spec_words::specs::Words::pick))]
pub fn finishes(m: &[u32], t: u32, q: u32) -> bool
    requires { (q < 4) × (t < 128) }
    ensures { result ≡ finishes m.now t q }
{
    if no_views(m, t, q) {
        return true;
    }
    let children = View::of(m, q, t, CHILDREN);
    let user = View::of(m, q, t, USER);
    children.reducible(user) && right_fits(m, t, q, children, user)
}

// The children view of t, into which the others are reduced, goes to the view at one of the two marks.
fn return_view(m: &mut [u32], t: u32, q: u32, nonlocal: u32, local: u32)
    ensures { m.new ≡ view_returned m.old t q nonlocal local }
{
    let v = View::of(m, q, t, CHILDREN);
    if v.is_empty() {
        return;
    }
    let x = if v.head == NL { nonlocal } else { local };
    views::merge(m, q, walks::task_at(x), walks::kind_at(x), t, CHILDREN);
}

// Where the view goes depends on the memory as it was and on the head that the reductions give. So both marks are looked
// for before the memory changes.
#[tactic(auto, using(crate::proofs::Views::nothing_returned, crate::proofs::Views::views_go))]
fn views_returned(m: &mut [u32], t: u32, q: u32)
    requires { (q < 4) × (t < 128) }
    ensures { m.new ≡ views_returned m.old t q }
{
    if no_views(m, t, q) {
        return;
    }
    let nonlocal = walks::returned_to(m, q, t, NL, NONE);
    let local = walks::returned_to(m, q, t, NONE, NONE);
    views::merge(m, q, t, CHILDREN, t, USER);
    views::merge(m, q, t, CHILDREN, t, RIGHT);
    return_view(m, t, q, nonlocal, local);
}

// The queue view goes to the heir.
fn queue_returned(m: &mut [u32], t: u32, q: u32)
    requires { q < 4 }
    ensures { m.new ≡ queue_returned m.old t q }
{
    let h = memory::queue_head(m, t, q);
    if h != NONE {
        let c = walks::heir(m, t, q);
        memory::set_queue_head(m, t, q, NONE);
        memory::set_queue_head(m, c, q, h);
    }
}

pub fn finished_queue(m: &mut [u32], t: u32, q: u32)
    requires { (q < 4) × (t < 128) }
    ensures { m.new ≡ finished_queue m.old t q }
{
    views_returned(m, t, q);
    queue_returned(m, t, q);
}
