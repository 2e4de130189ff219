// Which tasks an older sibling blocks, asked of all tasks at once: each list of siblings is walked once, from the oldest on, with the
// rights of those that it has passed.
#![tactic(auto, unfolding(crate::specs::Noted::is_oldest, spec_words::specs::Words::both, spec_words::specs::Words::pick))]

ghost use Rattle.std.specs.Prelude.{◌≡◌, true, replicate};
ghost use Rattle.spec_rules.specs.Test.{rules_hold};
ghost use Rattle.core_blocked.specs.Noted.{noted, is_oldest};
ghost use Rattle.core_blocked.specs.Told.{Tell};

use layout::TASKS;

// Task t and its younger siblings, where t has no older ones. It is bounded by the number of its steps, so it ends on any memory.
fn note(m: &[u32], t: u32, a: &mut [u32])
    ensures { a.new ≡ noted 128 m.now t 0 a.old }
{
    let mut c = t;
    let mut w: u32 = 0;
    for _ in 0..TASKS {
        if TASKS <= c {
            return;
        }
        memory::put(a, c as usize, w);
        w = memory::rights(m, c) | w;
        c = memory::younger(m, c);
    }
}

// Task t is the oldest of several siblings.
fn is_oldest(m: &[u32], t: u32) -> bool
    ensures { result ≡ is_oldest m.now t }
{
    walks::unfinished(m, t) && TASKS <= memory::older(m, t) && memory::younger(m, t) < TASKS
}

// The words a say of each unfinished task what its older siblings may pop: it is blocked where it may pop that too. They are 0 before, as
// the word of a task without siblings stays.
pub fn blocked_all(m: &[u32], a: &mut [u32])
    requires { (rules_hold m.now ≡ true) × (a.old ≡ replicate 128 0) }
    ensures { Tell m.now a.new }
{
    for t in 0..TASKS {
        if is_oldest(m, t) {
            note(m, t, a);
        }
    }
}
