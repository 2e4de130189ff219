// The memory test: all memory rules.
#![tactic(auto)]

ghost use Rattle.std.specs.Prelude.{◌≡◌, length};
ghost use Rattle.spec_rules.specs.Contents.{decode};
ghost use Rattle.spec_rules.specs.Test.{rules_hold};
ghost use Rattle.segment_test.specs.Count.{Counts};

use layout::MARKS;
use view_steps::PLACED;

// How many segments are held, where all memory rules hold. They are counted once, ahead of every loop over task records.
fn test_and_count(m: &[u32]) -> Option<u32>
    requires { length m.now ≡ 16384 }
    ensures { Counts (decode m.now) (rules_hold m.now) result }
{
    if !tree_test::in_range(memory::length_of(m, 0), memory::number(m)) {
        return None;
    }
    let mut d = [0u8; 256];
    let held = segment_test::count_held(&mut d, m)?;
    // The walk over the views starts with the free segments placed.
    let mut w = [0u32; 12];
    w[PLACED] = memory::number(m) - held;
    if !tree_test::top_ok(m) {
        return None;
    }
    if !tree_test::idle_ok(m) {
        return None;
    }
    let k = MARKS - 2 * memory::free_tasks(m);
    let mut xs = [0u32; 256];
    if !tree_test::tree_ok(m, &mut xs, k) {
        return None;
    }
    let e = k as usize;
    if !view_test::views_hold(&mut d, &mut w, m, &xs[0..e]) {
        return None;
    }
    Some(held)
}

// All memory rules hold.
pub fn rules_hold(m: &[u32]) -> bool
    requires { length m.now ≡ 16384 }
    ensures { result ≡ rules_hold m.now }
{
    test_and_count(m).is_some()
}
