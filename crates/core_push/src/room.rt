// Whether a run of values finds room, decided before a value is stored.
ghost use Rattle.std.specs.Prelude.{◌≡◌, true, ◌<◌, ◌-◌, leb, ltb};
ghost use Rattle.spec_words.specs.Words.{both};
ghost use Rattle.spec_layout.specs.Layout.{NL, USER, count, length_of, free_height, tail, read};
ghost use Rattle.spec_outcomes.specs.Views.{view_of, is_empty};
ghost use Rattle.spec_outcomes.specs.Push.{link_frees, runs_out};
ghost use Rattle.law_push_runs.specs.Pushable.{Pushable};

use layout::{NL, USER};
use views::View;

// The link that the first value makes frees the segment that it links.
fn link_frees(m: &[u32], t: u32, q: u32) -> bool
    requires { (q < 4) × (0 < free_height m.now q) }
    ensures { result ≡ link_frees m.now t q }
{
    let x = walks::just_before(m, q, t);
    let new = View {
        head: segments::next_free(m, q),
        tail: NL,
    };
    View::of(m, q, walks::task_at(x), walks::kind_at(x)).frees(m, new)
}

// A run of n values, at least one, runs out of segments where the user view is empty. The view just before is only looked for
// where one segment more or less decides.
fn empty_runs_out(m: &[u32], t: u32, q: u32, n: usize) -> bool
    requires { (Pushable m.now t q) × (q < 4) × (0 < n) × (is_empty (view_of m.now q t USER) ≡ true) }
    ensures { result ≡ runs_out m.now t q n }
{
    let f = memory::free_segments(m, q);
    if f == 0 {
        return true;
    }
    let l = memory::length_of(m, segments::next_free(m, q)) as usize;
    let most = f as usize * l;
    if n <= most {
        return false;
    }
    let longest = most + l;
    longest < n || !link_frees(m, t, q)
}

// The user view's tail e is a segment with room for n values.
pub(crate) fn fits_tail(m: &[u32], t: u32, q: u32, e: u32, n: usize) -> bool
    requires { (Pushable m.now t q) × (e ≡ read m.now (tail USER t q)) }
    ensures { result ≡ both (ltb e NL) (leb n (length_of m.now e - read m.now (count e))) }
{
    if NL <= e {
        return false;
    }
    let room = memory::length_of(m, e) - memory::count(m, e);
    n <= room as usize
}

// A run of n values, at least one, runs out of segments.
pub(crate) fn runs_out(m: &[u32], t: u32, q: u32, n: usize) -> bool
    requires { (Pushable m.now t q) × (q < 4) × (0 < n) }
    ensures { result ≡ runs_out m.now t q n }
{
    let user = View::of(m, q, t, USER);
    if user.is_empty() {
        return empty_runs_out(m, t, q, n);
    }
    let e = user.tail;
    if NL <= e {
        return false;
    }
    let l = memory::length_of(m, e);
    let room = l - memory::count(m, e);
    let most = room as usize + memory::free_segments(m, q) as usize * l as usize;
    most < n
}
