// Views: reading, writing and reducing them, and sync.
#![tactic(auto, unfolding(spec_outcomes::specs::Sync::synced, spec_outcomes::specs::Sync::synced_queue, spec_outcomes::specs::Sync::syncs, spec_outcomes::specs::Views::behind, spec_outcomes::specs::Views::frees, spec_outcomes::specs::Views::head_of, spec_outcomes::specs::Views::is_empty, spec_outcomes::specs::Views::joined, spec_outcomes::specs::Views::merged, spec_outcomes::specs::Views::reduced, spec_outcomes::specs::Views::reducible, spec_outcomes::specs::Views::set_view, spec_outcomes::specs::Views::tail_of, spec_outcomes::specs::Views::view_of, spec_words::specs::Words::both, spec_words::specs::Words::either, spec_words::specs::Words::pick))]

ghost use Rattle.std.specs.Prelude.{◌≡◌, List, ℕ, ltb};
ghost use Rattle.spec_words.specs.Words.{both};
ghost use Rattle.spec_layout.specs.Layout.{NL};
ghost use Rattle.spec_rules.specs.Views.View.{view};
ghost use Rattle.spec_outcomes.specs.Views.{view_of, is_empty, tail_of, reducible, frees, behind, reduced, set_view, joined, merged};
ghost use Rattle.spec_outcomes.specs.Sync.{syncs, synced_queue, synced};
ghost use Rattle.views.specs.Ends.{seen};

use layout::{CHILDREN, NL, NONE, QUEUES, USER};

// A view is its two ends: a segment, none, or a non-local end.
#[derive(Clone, Copy)]
pub struct View {
    pub head: u32,
    pub tail: u32,
}

const EMPTY: View = View {
    head: NONE,
    tail: NONE,
};

impl View {
    // View k of task t.
    pub fn of(m: &[u32], q: u32, t: u32, k: u32) -> Self
        ensures { seen result ≡ view_of m.now q t k }
    {
        View {
            head: memory::head(m, k, t, q),
            tail: memory::tail(m, k, t, q),
        }
    }

    pub fn is_empty(self) -> bool
        ensures { result ≡ is_empty (seen self) }
    {
        self.head == NONE && self.tail == NONE
    }

    // The paper has the reduction of the two views.
    pub fn reducible(self, behind: Self) -> bool
        ensures { result ≡ reducible (seen self) (seen behind) }
    {
        if self.is_empty() || behind.is_empty() {
            return true;
        }
        if self.tail == NL {
            return behind.head == NL;
        }
        behind.head != NL && self.tail != behind.head
    }

    // Reducing the two views frees the tail of the left one.
    pub fn frees(self, m: &[u32], behind: Self) -> bool
        ensures { result ≡ frees m.now (seen self) (seen behind) }
    {
        !self.is_empty()
            && !behind.is_empty()
            && local(self.tail, behind.head)
            && memory::count(m, self.tail) == 0
    }

    // What a view has become when `left` and `right` are reduced. Its tail stays, and its head goes by its head alone.
    pub fn after(self, m: &[u32], left: Self, right: Self) -> Self
        ensures { (seen result ≡ behind m.now (seen left) (seen right) (seen self))
            × ((e : ℕ) → view result.head e ≡ behind m.now (seen left) (seen right) (view self.head e)) }
    {
        if self.head == left.tail && left.frees(m, right) {
            return View {
                head: right.head,
                tail: self.tail,
            };
        }
        self
    }

    // What the two views are reduced to. The tail does not hang on the memory.
    pub fn reduced(self, m: &[u32], behind: Self) -> Self
        ensures { (seen result ≡ reduced m.now (seen self) (seen behind))
            × ((n : List ℕ) → result.tail ≡ tail_of (reduced n (seen self) (seen behind))) }
    {
        if self.is_empty() {
            return behind;
        }
        if behind.is_empty() {
            return self;
        }
        View {
            head: self.after(m, self, behind).head,
            tail: behind.tail,
        }
    }
}

pub fn set_view(m: &mut [u32], q: u32, t: u32, k: u32, v: View)
    ensures { m.new ≡ set_view m.old q t k (seen v) }
{
    memory::set_head(m, k, t, q, v.head);
    memory::set_tail(m, k, t, q, v.tail);
}

// Both ends are segments.
fn local(e: u32, h: u32) -> bool
    ensures { result ≡ both (ltb e NL) (ltb h NL) }
{
    e < NL && h < NL
}

// View k of task t becomes its reduction with view v.
pub fn join(m: &mut [u32], q: u32, t: u32, k: u32, v: View)
    ensures { m.new ≡ joined m.old q t k (seen v) }
{
    if v.is_empty() {
        return;
    }
    let u = View::of(m, q, t, k);
    if u.is_empty() {
        set_view(m, q, t, k, v);
        return;
    }
    if local(u.tail, v.head) {
        segments::link(m, q, u.tail, v.head);
    }
    memory::set_tail(m, k, t, q, v.tail);
}

// View k of task t becomes its reduction with view k2 of task t2, which becomes empty.
pub fn merge(m: &mut [u32], q: u32, t: u32, k: u32, t2: u32, k2: u32)
    ensures { m.new ≡ merged m.old q t k t2 k2 }
{
    let v = View::of(m, q, t2, k2);
    join(m, q, t, k, v);
    set_view(m, q, t2, k2, EMPTY);
}

// The paper has sync's reduction of queue q.
pub fn syncs(m: &[u32], t: u32, q: u32) -> bool
    ensures { result ≡ syncs m.now t q }
{
    View::of(m, q, t, CHILDREN).reducible(View::of(m, q, t, USER))
}

// The user view of queue q becomes the reduction of children view and user view.
fn sync_queue(m: &mut [u32], t: u32, q: u32)
    ensures { m.new ≡ synced_queue m.old t q }
{
    merge(m, q, t, CHILDREN, t, USER);
    let v = View::of(m, q, t, CHILDREN);
    set_view(m, q, t, USER, v);
    set_view(m, q, t, CHILDREN, EMPTY);
}

#[tactic(auto, using(memory::specs::Queues::none_done, memory::specs::Queues::one_more_done, crate::proofs::Queues::all_synced))]
pub fn sync_all(m: &mut [u32], t: u32)
    ensures { m.new ≡ synced m.old t }
{
    for q in 0..QUEUES {
        sync_queue(m, t, q);
    }
}
