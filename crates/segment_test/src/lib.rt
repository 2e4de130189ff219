// The memory test of segment records and of the stack of free segments, with the count of the held ones.
#![tactic(auto)]

ghost use Rattle.std.specs.Prelude.{◌≡◌, true, ◌<◌, ◌≤◌, length, get_or, replicate};
ghost use Rattle.spec_lists.specs.Tests.{upto};
ghost use Rattle.spec_lists.specs.Marks.{marking};
ghost use Rattle.spec_rules.specs.Contents.{decode};
ghost use Rattle.spec_rules.specs.Test.{segment_test};
ghost use Rattle.spec_rules.specs.Held.{stack_test};
ghost use Rattle.spec_view_events.specs.Sees.{Ready};
ghost use Rattle.segment_test.specs.Stack.{all_below};
ghost use Rattle.segment_test.specs.Count.{Counts};
ghost use Rattle.segment_test.specs.Marked.{unmarked};

use layout::{
    COUNT_AT, FIRST_AT, FREE_SEGMENTS_AT, LENGTH_AT, NEXT_AT, NONE, NUMBER_AT, SEGMENT_STACK,
    SEGMENT_WORDS,
};

// First place, count and next of segment s. All three are looked at, so that a loop over segments has no early exit.
#[tactic(auto, using(crate::specs::Records::sound_at))]
fn sound(m: &[u32], s: usize) -> bool
    requires { (length m.now ≡ 16384) × (s < 256) }
    ensures { result ≡ segment_test (decode m.now) s }
{
    let next = m[NEXT_AT + s * SEGMENT_WORDS];
    (m[FIRST_AT + s * SEGMENT_WORDS] < m[LENGTH_AT])
        & (m[COUNT_AT + s * SEGMENT_WORDS] <= m[LENGTH_AT])
        & ((next < m[NUMBER_AT]) | (next == NONE))
}

// All segments opened.
#[tactic(auto, using(crate::specs::Records::upto_start, crate::specs::Records::upto_more, crate::specs::Records::upto_done))]
pub fn segments_hold(m: &[u32]) -> bool
    requires { Ready m.now }
    ensures { result ≡ upto (segment_test (decode m.now)) (get_or m.now 1 0) 0 }
{
    let mut good = true;
    for s in 0..m[NUMBER_AT] as usize {
        good &= sound(m, s);
    }
    good
}

// Marks the free segments; false where one is no segment opened.
fn mark_free(d: &mut [u8; 256], m: &[u32]) -> bool
    requires { Ready m.now × (get_or m.now 2 0 ≤ 256) }
    ensures { (result ≡ all_below (decode m.now).number (decode m.now).free)
        × (result ≡ true → d.new ≡ marking (decode m.now).free d.old) }
{
    let n = m[NUMBER_AT];
    let h = m[FREE_SEGMENTS_AT] as usize;
    for s in &m[SEGMENT_STACK..SEGMENT_STACK + h] {
        if *s >= n {
            return false;
        }
        d[*s as usize] = 1;
    }
    true
}

// How many of the n segments opened have no mark. A sum of 16 bits takes half the time of one of 32.
fn unmarked(d: &[u8; 256], n: usize) -> u16
    requires { n ≤ 256 }
    ensures { (result ≡ unmarked d.now n) × (result ≤ n) }
{
    let mut held: u16 = 0;
    for mark in &d[..n] {
        if *mark == 0 {
            held += 1;
        }
    }
    held
}

// THE HELD SEGMENTS, counted once for the whole memory test: the free ones are marked in d, and those opened without a mark
// are held. One that stands on the stack twice has one mark, so that held and free ones are more than were opened.
pub fn count_held(d: &mut [u8; 256], m: &[u32]) -> Option<u32>
    requires { Ready m.now × (d.old ≡ replicate 256 0) }
    ensures { Counts (decode m.now) (stack_test (decode m.now)) result
        × (stack_test (decode m.now) ≡ true → d.new ≡ marking (decode m.now).free (replicate 256 0)) }
{
    if m[FREE_SEGMENTS_AT] > m[NUMBER_AT] {
        return None;
    }
    if !mark_free(d, m) {
        return None;
    }
    let held = unmarked(d, m[NUMBER_AT] as usize) as u32;
    if held + m[FREE_SEGMENTS_AT] != m[NUMBER_AT] {
        return None;
    }
    Some(held)
}
