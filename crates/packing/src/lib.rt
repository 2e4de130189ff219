// Answers as one number of 64 bits, for hosts in other languages.
#![tactic(auto)]

ghost use Rattle.std.specs.Prelude.{◌≡◌, ◌+◌, ◌*◌, ◌/◌, ◌%◌};
ghost use Rattle.spec_runner.specs.Packed.{Packs};

use answer_numbers::{EMPTY, FINISHED, MOVED, NOT_EMPTY, PUSHED, SPAWNED, TOOK, WAITS};
use spec_runner::StepAnswer;

// The status in the high half, the value in the low half.
pub fn pack(status: u32, value: u32) -> u64
    ensures { result ≡ status * 4294967296 + value }
{
    status as u64 * 4294967296 + value as u64
}

// The halves of an answer, by arithmetic: the library has no method for a half of a word.
pub fn status(answer: u64) -> u32
    ensures { result ≡ answer / 4294967296 }
{
    (answer / 4294967296) as u32
}

pub fn value(answer: u64) -> u32
    ensures { result ≡ answer % 4294967296 }
{
    (answer % 4294967296) as u32
}

// The answer of a step.
pub fn pack_step(a: StepAnswer) -> u64
    ensures { Packs a result }
{
    match a {
        StepAnswer::Spawned(v) => pack(SPAWNED, v),
        StepAnswer::Pushed(v) => pack(PUSHED, v),
        StepAnswer::Took(v) => pack(TOOK, v),
        StepAnswer::Finished => pack(FINISHED, 0),
        StepAnswer::Moved => pack(MOVED, 0),
        StepAnswer::Empty => pack(EMPTY, 0),
        StepAnswer::NotEmpty => pack(NOT_EMPTY, 0),
        StepAnswer::Waits => pack(WAITS, 0),
        StepAnswer::Refused(k) => pack(k, 0),
    }
}
