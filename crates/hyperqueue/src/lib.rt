// The seven calls of the core, on any words and with any arguments.
#![tactic(auto)]

pub mod jobs;
pub mod replays;
pub mod runs;
pub mod simulations;

ghost use Rattle.std.specs.Prelude.{◌≡◌, not, eqb};
ghost use Rattle.spec_answers.specs.Answers.Outcome.{outcome};
ghost use Rattle.spec_outcomes.specs.Open.{open_outcome};
ghost use Rattle.spec_outcomes.specs.Spawn.{spawn_outcome};
ghost use Rattle.spec_outcomes.specs.Push.{push_outcome};
ghost use Rattle.spec_outcomes.specs.Take.{take_outcome};
ghost use Rattle.spec_outcomes.specs.Sync.{sync_outcome};
ghost use Rattle.spec_outcomes.specs.Finish.{finish_outcome};
ghost use Rattle.spec_outcomes.specs.Left.{left_outcome};
ghost use Rattle.hyperqueue.specs.Packed.{Tested, packed, Handed};

use answer_numbers::{EMPTY, WAITS};
use refusals::Refusal;
use spec_answers::Answer;

// The refusal of a call on these words, if they have one: 1 "a lent memory has another length", 2 "the memory rules fail".
fn refusal(m: &[u32]) -> Option<Answer>
    ensures { Tested m.now result }
{
    if m.len() != layout::WORDS {
        return Some(Refusal::LengthWrong.into());
    }
    if !memory_test::rules_hold(m) {
        return Some(Refusal::RulesFail.into());
    }
    None
}

pub fn open(m: &mut [u32], length: u32, segments: u32) -> Answer
    ensures { outcome result m.new ≡ open_outcome m.old length segments }
{
    core_open::open(m, length, segments)
}

pub fn spawn(m: &mut [u32], t: u32, r: u32) -> Answer
    ensures { outcome result m.new ≡ spawn_outcome m.old t r }
{
    if let Some(a) = refusal(m) {
        return a;
    }
    core_spawn::spawn(m, t, r)
}

pub fn push(m: &mut [u32], t: u32, q: u32, vs: &[u32]) -> Answer
    ensures { outcome result m.new ≡ push_outcome m.old t q vs.now }
{
    if let Some(a) = refusal(m) {
        return a;
    }
    core_push::push(m, t, q, vs)
}

pub fn take(m: &mut [u32], t: u32, q: u32, keep: bool) -> Answer
    ensures { outcome result m.new ≡ take_outcome m.old t q keep }
{
    if let Some(a) = refusal(m) {
        return a;
    }
    core_take::take(m, t, q, keep)
}

pub fn sync(m: &mut [u32], t: u32) -> Answer
    ensures { outcome result m.new ≡ sync_outcome m.old t }
{
    if let Some(a) = refusal(m) {
        return a;
    }
    core_finish::sync(m, t)
}

pub fn finish(m: &mut [u32], t: u32) -> Answer
    ensures { outcome result m.new ≡ finish_outcome m.old t }
{
    if let Some(a) = refusal(m) {
        return a;
    }
    core_finish::finish(m, t)
}

pub fn left(m: &mut [u32], q: u32, i: u32) -> Answer
    ensures { outcome result m.new ≡ left_outcome m.old q i }
{
    if let Some(a) = refusal(m) {
        return a;
    }
    core_left::left(m, q, i)
}

// FOR HOSTS IN OTHER LANGUAGES: a slice is a pointer and a length, an answer one number (include/hyperqueue.h).

// The status of a core call that moved.
const MOVED: u32 = 0;

// An answer as one number: the status in the high half, the value in the low half.
fn pack(a: Answer) -> u64
    ensures { result ≡ packed a }
{
    match a {
        Answer::Moved(v) => packing::pack(MOVED, v),
        Answer::Empty => packing::pack(EMPTY, 0),
        Answer::Waits => packing::pack(WAITS, 0),
        Answer::Refused(k) => packing::pack(k, 0),
    }
}

#[unsafe(no_mangle)]
pub extern "C" fn hq_open(words: &mut [u32], length: u32, segments: u32) -> u64
    ensures { Handed result words.new (open_outcome words.old length segments) }
{
    pack(open(words, length, segments))
}

#[unsafe(no_mangle)]
pub extern "C" fn hq_spawn(words: &mut [u32], task: u32, rights: u32) -> u64
    ensures { Handed result words.new (spawn_outcome words.old task rights) }
{
    pack(spawn(words, task, rights))
}

#[unsafe(no_mangle)]
pub extern "C" fn hq_push(words: &mut [u32], task: u32, queue: u32, values: &[u32]) -> u64
    ensures { Handed result words.new (push_outcome words.old task queue values.now) }
{
    pack(push(words, task, queue, values))
}

// Any number but 0 keeps the value queued.
#[unsafe(no_mangle)]
pub extern "C" fn hq_take(words: &mut [u32], task: u32, queue: u32, keep: u32) -> u64
    ensures { Handed result words.new (take_outcome words.old task queue (not (eqb keep 0))) }
{
    pack(take(words, task, queue, keep != 0))
}

#[unsafe(no_mangle)]
pub extern "C" fn hq_sync(words: &mut [u32], task: u32) -> u64
    ensures { Handed result words.new (sync_outcome words.old task) }
{
    pack(sync(words, task))
}

#[unsafe(no_mangle)]
pub extern "C" fn hq_finish(words: &mut [u32], task: u32) -> u64
    ensures { Handed result words.new (finish_outcome words.old task) }
{
    pack(finish(words, task))
}

#[unsafe(no_mangle)]
pub extern "C" fn hq_left(words: &mut [u32], queue: u32, index: u32) -> u64
    ensures { Handed result words.new (left_outcome words.old queue index) }
{
    pack(left(words, queue, index))
}
