// take (task, queue, keep): what it finds, and the value taken
#![tactic(auto, unfolding(spec_words::specs::Words::both, spec_words::specs::Words::either, spec_words::specs::Words::pick, spec_outcomes::specs::Take::has_value, spec_outcomes::specs::Take::finding, spec_outcomes::specs::Take::popped, spec_outcomes::specs::Take::take_gives, spec_outcomes::specs::Take::pop_allowed, spec_outcomes::specs::Take::take_tested))]

ghost use Rattle.std.specs.Prelude.{◌≡◌, ◌<◌};
ghost use Rattle.spec_layout.specs.Layout.{count, queue_head, read};
ghost use Rattle.spec_answers.specs.Answers.Outcome.{outcome};
ghost use Rattle.core_take.specs.Nothing.{nothing};
ghost use Rattle.spec_outcomes.specs.Take.{has_value, finding, popped, take_tested};

use layout::{NL, NONE, QUEUES};
use refusals::Refusal;
use spec_answers::{Answer, Finding};

// The chain from the queue head of task t holds a value.
fn has_value(m: &[u32], t: u32, q: u32) -> bool
    requires { q < 4 }
    ensures { result ≡ has_value m.now t q }
{
    let s = memory::queue_head(m, t, q);
    s < NL && memory::count(m, s) != 0
}

// What a take by task t finds in queue q.
pub fn find(m: &[u32], t: u32, q: u32) -> Finding
    requires { q < 4 }
    ensures { result ≡ finding m.now t q }
{
    if walks::blocked(m, t) || walks::child_pops(m, t, q) {
        return Finding::Waits;
    }
    if has_value(m, t, q) {
        return Finding::Value(segments::value_at(m, memory::queue_head(m, t, q), 0));
    }
    if walks::pusher_before(m, t, q) {
        return Finding::Waits;
    }
    Finding::Empty
}

// The first value of queue q is gone; a segment that it leaves empty and that has a next is freed.
fn take_first(m: &mut [u32], t: u32, q: u32)
    requires { (q < 4) × (0 < read m.old (count (read m.old (queue_head t q)))) }
    ensures { m.new ≡ popped m.old t q }
{
    let s = memory::queue_head(m, t, q);
    let n = memory::next(m, s);
    segments::drop_one(m, s);
    if n != NONE && memory::count(m, s) == 0 {
        memory::set_queue_head(m, t, q, n);
        segments::release(m, q, s);
    }
}

// Where no value is found.
fn nothing(found: Finding) -> Answer
    ensures { result ≡ nothing found }
{
    match found {
        Finding::Empty => Answer::Empty,
        Finding::Value(_) | Finding::Waits => Answer::Waits,
    }
}

// A take on memory that passes the rules; with `keep` the value stays queued.
pub fn take(m: &mut [u32], t: u32, q: u32, keep: bool) -> Answer
    ensures { outcome result m.new ≡ take_tested m.old t q keep }
{
    if !walks::unfinished(m, t) {
        return Refusal::NoSuchTask.into();
    }
    if q >= QUEUES {
        return Refusal::NoSuchQueue.into();
    }
    if !rights::pops(memory::rights(m, t), q) {
        return Refusal::NoRight.into();
    }
    let found = find(m, t, q);
    let Finding::Value(v) = found else {
        return nothing(found);
    };
    if !keep {
        take_first(m, t, q);
    }
    Answer::Moved(v)
}
