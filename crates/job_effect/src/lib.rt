// What an operation does to its task: the answer, the register and the next instruction. Both runners go by it, so that an
// operation is coded once.
#![tactic(auto, unfolding(crate::specs::Made::found_of, crate::specs::Made::coded, spec_job::specs::Effects::effect, spec_job::specs::Effects::sum, spec_job::specs::Numbers::number_of, spec_words::specs::Words::pick))]

ghost use Rattle.std.specs.Prelude.{◌≡◌, ◌^◌, ◌<◌, ◌==◌};
ghost use Rattle.std.specs.Option.{option_map_or};
ghost use Rattle.spec_words.specs.Words.{pick};
ghost use Rattle.spec_job.specs.Effects.{effect};
ghost use Rattle.spec_job.specs.Numbers.{EMPTY, NOT_EMPTY, TOOK, MOVED};
ghost use Rattle.operations.specs.Named.{named};
ghost use Rattle.job_effect.specs.Made.{gives, found_of, coded};

use answer_numbers::{EMPTY, FINISHED, MOVED, NOT_EMPTY, PUSHED, SPAWNED, TOOK};
use operations::Operation;

// What a step gives: its answer as a number, as it stands in words that are lent, the value, 0 where there is none, the register
// and the next instruction after it.
#[derive(Clone, Copy)]
pub struct Made {
    pub answer: u32,
    pub value: u32,
    pub register: u32,
    pub next: u32,
}

// What an operation finds that uses no queue, or an empty one.
pub const NOTHING: Option<u32> = None;

// What a test finds where its queue is not empty: the value stays there, and 0 stands for it.
pub const UNTAKEN: Option<u32> = Some(0);

fn gives(answer: u32, value: u32, register: u32, next: u32) -> Made
    ensures { result ≡ gives answer value register next }
{
    Made {
        answer,
        value,
        register,
        next,
    }
}

// Takes what was found, which is `taken`, or goes to instruction x where nothing was found.
fn take_effect(x: u32, r: u32, taken: u32, next: u32, found: Option<u32>) -> Made
    ensures { result ≡ option_map_or (λ _. gives TOOK taken taken next) found (gives EMPTY 0 r x) }
{
    match found {
        Some(_) => gives(TOOK, taken, taken, next),
        None => gives(EMPTY, 0, r, x),
    }
}

// Goes to instruction x where nothing was found.
fn test_effect(x: u32, r: u32, next: u32, found: Option<u32>) -> Made
    ensures { result ≡ option_map_or (λ v. gives NOT_EMPTY 0 r next) found (gives EMPTY 0 r x) }
{
    match found {
        Some(_) => gives(NOT_EMPTY, 0, r, next),
        None => gives(EMPTY, 0, r, x),
    }
}

// Goes to instruction x where the register is zero.
fn zero_effect(x: u32, r: u32, next: u32) -> Made
    ensures { result ≡ gives MOVED 0 r (pick (r == 0) x next) }
{
    if r == 0 {
        gives(MOVED, 0, r, x)
    } else {
        gives(MOVED, 0, r, next)
    }
}

// An operation with operand x, by a task at instruction i with register r. `found` is the front of its queue.
pub fn effect(operation: Operation, x: u32, i: u32, r: u32, found: Option<u32>) -> Made
    requires { i < 2 ^ 31 }
    ensures { result ≡ coded (effect (named operation) i r x (found_of found)) }
{
    let sum = r.wrapping_add(x);
    let taken = found.unwrap_or(r);
    let next = i + 1;
    match operation {
        Operation::Return => gives(FINISHED, 0, r, i),
        Operation::Push => gives(PUSHED, x, r, next),
        Operation::PushSum => gives(PUSHED, sum, r, next),
        Operation::Pop => take_effect(next, r, taken, next, found),
        Operation::GoIfEmpty => test_effect(x, r, next, found),
        Operation::Go => gives(MOVED, 0, r, x),
        Operation::GoIfZero => zero_effect(x, r, next),
        Operation::Add => gives(MOVED, 0, sum, next),
        Operation::Spawn => gives(SPAWNED, 0, r, next),
        Operation::Sync => gives(MOVED, 0, r, next),
        Operation::TakeOrGo => take_effect(x, r, taken, next, found),
    }
}
