// The four lists of the serial runner, as rings in the working words. A queue that is none is an empty list.
#![tactic(auto)]

ghost use Rattle.std.specs.Prelude.{◌≡◌, [], ◌∷◌, ◌++◌, ◌<◌, length, set, drop, slice_get};
ghost use Rattle.spec_words.specs.Words.{size};
ghost use Rattle.spec_plain.specs.Machine.{queue};
ghost use Rattle.spec_serial.specs.Working.{WORKING, lists};

// Working words that a run is lent, as a slice of any length: that it is this one is tested once, and a condition inside. Then the most
// values of a queue.
pub const WORKING: usize = 16392;

pub const VALUES: u32 = 4096;

// The places of a ring, and where the first place and the number of values of queue 0 stand; those of queue q stand 2q behind.
const PLACES: usize = 4096;

const FIRST_AT: usize = 16384;

const COUNT_AT: usize = 16385;

// The number of values in queue q.
pub fn count(w: &[u32], q: u32) -> u32
    ensures { result ≡ length (queue (lists w.now) q) }
{
    if 4 <= q {
        return 0;
    }
    memory::get(w, COUNT_AT + q as usize * 2)
}

// Value number i of queue q, counted from 0.
pub fn value(w: &[u32], q: u32, i: usize) -> Option<u32>
    ensures { result ≡ slice_get (queue (lists w.now) q) i }
{
    let n = count(w, q);
    if n as usize <= i {
        return None;
    }
    let h = memory::get(w, FIRST_AT + q as usize * 2) as usize;
    Some(memory::get(w, q as usize * PLACES + (h + i) % PLACES))
}

// Adds v at the end of queue q.
pub fn push(w: &mut [u32], q: u32, v: u32)
    requires { (size w.old ≡ WORKING) × (length (queue (lists w.old) q) < 4096) }
    ensures { lists w.new ≡ set (lists w.old) q (queue (lists w.old) q ++ (v ∷ [])) }
{
    if 4 <= q {
        return;
    }
    let h = memory::get(w, FIRST_AT + q as usize * 2) as usize;
    let n = memory::get(w, COUNT_AT + q as usize * 2);
    memory::put(w, q as usize * PLACES + (h + n as usize) % PLACES, v);
    memory::put(w, COUNT_AT + q as usize * 2, n + 1);
}

// Takes the front of queue q away, if it has one.
pub fn pop(w: &mut [u32], q: u32)
    requires { size w.old ≡ WORKING }
    ensures { lists w.new ≡ set (lists w.old) q (drop 1 (queue (lists w.old) q)) }
{
    let n = count(w, q);
    if n == 0 {
        return;
    }
    let h = memory::get(w, FIRST_AT + q as usize * 2) as usize;
    memory::put(w, FIRST_AT + q as usize * 2, ((h + 1) % PLACES) as u32);
    memory::put(w, COUNT_AT + q as usize * 2, n - 1);
}
