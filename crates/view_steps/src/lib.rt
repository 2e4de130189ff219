// One view of the memory test: its head starts a chain of segments, its tail ends one.
#![tactic(auto)]

ghost use Rattle.std.specs.Prelude.{◌≡◌, ◌+◌, ◌%◌, ◌<◌, not, ◌∷◌, length, ◌==◌, slice_index};
ghost use Rattle.spec_rules.specs.Contents.{decode, part};
ghost use Rattle.spec_rules.specs.Test.{marked, passed};
ghost use Rattle.spec_view_events.specs.Events.{queue_of, view_of};
ghost use Rattle.spec_view_events.specs.Events.Event.{tail, head};
ghost use Rattle.spec_view_events.specs.Place.{placing, answered};
ghost use Rattle.spec_view_events.specs.Sees.{Ready, Sees, SeesHeads, SeesTails};

use layout::{COUNT_AT, NEXT_AT, NL, NONE, NUMBER_AT, SEGMENT_WORDS, TAIL_BEHIND};

// The marks d and f and the words w go from function to function by themselves: as one struct with methods the whole test took 3 to 7
// in a hundred longer.
//
// THE WORKING WORDS w of the test: the order of each queue; whether its queue view was seen; how many segments were placed, how many
// heads and how many tails were seen.
pub const ORDERS: usize = 0;

pub const SEEN: usize = 4;

pub const PLACED: usize = 8;

pub const HEADS: usize = 9;

pub const TAILS: usize = 10;

// Count of segment s.
fn count(m: &[u32], s: u32) -> u32
    requires { (length m.now ≡ 16384) × (s < 256) }
    ensures { result ≡ part (decode m.now) s 1 }
{
    m[COUNT_AT + s as usize * SEGMENT_WORDS]
}

// The segment behind s.
fn next(m: &[u32], s: u32) -> u32
    requires { (length m.now ≡ 16384) × (s < 256) }
    ensures { result ≡ part (decode m.now) s 2 }
{
    m[NEXT_AT + s as usize * SEGMENT_WORDS]
}

// Places the segments of the chain from h on: their number, if the chain is right.
fn place(d: &mut [u8; 256], m: &[u32], h: u32) -> Option<u32>
    requires { Ready m.now }
    ensures { answered result d.new ≡ placing (decode m.now) (slice_index m.now 1) h 0 d.old }
{
    let n = m[NUMBER_AT];
    let mut s = h;
    for k in 0..n {
        if s >= n {
            return None;
        }
        if d[s as usize] != 0 {
            return None;
        }
        d[s as usize] = 1;
        let behind = next(m, s);
        if behind == NONE {
            return Some(k + 1);
        }
        if count(m, s) == 0 {
            return None;
        }
        s = behind;
    }
    None
}

// The head of a view: where it is local, its chain is placed.
fn head(d: &mut [u8; 256], w: &mut [u32; 12], m: &[u32], h: u32) -> bool
    requires { Ready m.now }
    ensures { SeesHeads m.now (λ es. head h ∷ es) result
        d.old w.old d.new w.new }
{
    if h >= NL {
        return true;
    }
    let Some(k) = place(d, m, h) else {
        return false;
    };
    w[PLACED] = w[PLACED].wrapping_add(k);
    w[HEADS] = w[HEADS].wrapping_add(1);
    true
}

// The tail of a view: where it is local, it is the end of a chain that no other tail names.
fn tail(f: &mut [u8; 256], w: &mut [u32; 12], m: &[u32], e: u32) -> bool
    requires { Ready m.now }
    ensures { SeesTails m.now (λ es. tail e ∷ es) result
        f.old w.old f.new w.new }
{
    if e >= NL {
        return true;
    }
    if e >= m[NUMBER_AT] {
        return false;
    }
    if f[e as usize] != 0 {
        return false;
    }
    if next(m, e) != NONE {
        return false;
    }
    f[e as usize] = 1;
    w[TAILS] = w[TAILS].wrapping_add(1);
    true
}

// 1 for a non-local end of a view.
#[tactic(auto, unfolding(spec_rules::specs::Test::passed, spec_rules::specs::Test::marked, spec_words::specs::Words::pick, spec_words::specs::Words::both, spec_words::specs::Words::either))]
fn marked(w: u32) -> u32
    ensures { result ≡ marked w }
{
    u32::from(w == NL)
}

// The order of a queue in front of a view with head h and tail e, where it is o behind it.
#[tactic(auto, unfolding(spec_rules::specs::Test::passed, spec_rules::specs::Test::marked, spec_words::specs::Words::pick, spec_words::specs::Words::both, spec_words::specs::Words::either))]
fn passed(h: u32, e: u32, o: u32) -> u32
    ensures { result ≡ passed h e o }
{
    if h == NONE && e == NONE {
        return o;
    }
    if h == NONE || e == NONE || marked(e) != o {
        return 2;
    }
    marked(h)
}

// The view of queue q whose head stands at address a; the two low bits of r are the task's rights to q.
pub fn view(
    d: &mut [u8; 256],
    f: &mut [u8; 256],
    w: &mut [u32; 12],
    m: &[u32],
    a: usize,
    r: u32,
    q: usize,
) -> bool
    requires { Ready m.now × (a < 16000) × (q < 4) }
    ensures { Sees m.now (view_of (not (r % 4 == 0)) q
        (slice_index m.now a) (slice_index m.now (a + 12))) result
        d.old f.old w.old d.new f.new w.new }
{
    let h = m[a];
    let e = m[a + TAIL_BEHIND];
    if h & e == NONE {
        return true;
    }
    if r % 4 == 0 {
        return false;
    }
    w[q] = passed(h, e, w[q]);
    tail(f, w, m, e) && head(d, w, m, h)
}

// The queue view of queue q whose head stands at address a.
pub fn queue(d: &mut [u8; 256], w: &mut [u32; 12], m: &[u32], a: usize, r: u32, q: usize) -> bool
    requires { Ready m.now × (a < 16000) × (q < 4) }
    ensures { SeesHeads m.now (queue_of (not (r % 4 == 0)) q (slice_index m.now a)) result
        d.old w.old d.new w.new }
{
    let h = m[a];
    if h == NONE {
        return true;
    }
    if r % 4 == 0 {
        return false;
    }
    if h == NL {
        return false;
    }
    if w[SEEN + q] != 0 {
        return false;
    }
    w[SEEN + q] = 1;
    head(d, w, m, h)
}
