// A ring of words: the place of a value, and a run of values that may go on at the first place.
ghost use Rattle.std.specs.Prelude.{◌≡◌, ◌<◌, ◌≤◌, length};
ghost use Rattle.spec_outcomes.specs.Segments.{place};
ghost use Rattle.segments.specs.Runs.{store_ring};

// The place of value number k in a ring of l places, the first value at place f.
#[tactic(auto, unfolding(spec_outcomes::specs::Segments::place, spec_words::specs::Words::pick))]
pub(crate) fn place(l: u32, f: u32, k: u32) -> u32
    ensures { result ≡ place l f k }
{
    let n = l as usize;
    let p = f as usize + k as usize;
    if p < n {
        return p as u32;
    }
    let p = p - n;
    if p < n {
        return p as u32;
    }
    0
}

// By a loop, and not by the library's copy_from_slice, which would have a host's linker look for one name more, memmove.
fn copy(to: &mut [u32], from: &[u32])
    requires { length to.old ≡ length from.now }
    ensures { to.new ≡ from.now }
{
    for i in 0..from.len() {
        to[i] = from[i];
    }
}

// Stores the run vs from place p on; what is left behind the last place goes to the first places. It is lent the values of
// one segment.
pub(crate) fn fill(values: &mut [u32], p: usize, vs: &[u32])
    requires { (p < length values.old) × (length vs.now ≤ length values.old) }
    ensures { values.new ≡ store_ring values.old 0 (length values.old) p vs.now }
{
    let l = values.len();
    let k = vs.len();
    let x = l - p;
    if k <= x {
        let e = p + k;
        copy(&mut values[p..e], vs);
        return;
    }
    let y = k - x;
    copy(&mut values[p..l], &vs[0..x]);
    copy(&mut values[0..y], &vs[x..k]);
}
