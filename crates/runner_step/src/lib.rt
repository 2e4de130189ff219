// One step of a job's task: the tests, the core call of its instruction, and where the task goes on.
#![tactic(auto, unfolding(spec_words::specs::Words::both, spec_words::specs::Words::pick, spec_words::specs::Words::size, spec_words::specs::Words::load, spec_words::specs::Words::store, spec_job::specs::Operations::operation_at, spec_job::specs::Operations::operation_of, spec_job::specs::Operations::row_of, spec_runner::specs::Step::call_of, spec_runner::specs::Step::step_tested, spec_runner::specs::Step::runner_after, spec_runner::specs::Step::core_outcome, spec_runner::specs::Step::step_outcome, spec_job::specs::Numbers::word_numbered, spec_runner::specs::Answers::answer_with, crate::specs::Parts::called, spec_job::specs::Effects::sum))]

ghost use Rattle.std.specs.Prelude.{◌≡◌, ◌^◌, ◌<◌, true, [], ◌∷◌, length, unwrap_or};
ghost use Rattle.spec_rules.specs.Test.{rules_hold};
ghost use Rattle.spec_answers.specs.Answers.{outcome as answered};
ghost use Rattle.spec_outcomes.specs.Waits.{unfinished};
ghost use Rattle.spec_outcomes.specs.Push.{push_tested};
ghost use Rattle.spec_job.specs.Operations.{operation_at};
ghost use Rattle.spec_job.specs.Numbers.{word_numbered};
ghost use Rattle.spec_runner.specs.Words.{position_of};
ghost use Rattle.spec_runner.specs.Answers.{answer_with, outcome};
ghost use Rattle.spec_runner.specs.Step.{call_of, step_tested, step_outcome};
ghost use Rattle.job_effect.specs.Made.{found_of};
ghost use Rattle.runner_step.specs.Parts.{UsesQueue, called, acted, Writes, Makes};

use answer_numbers::{EMPTY, FINISHED, MOVED, NOT_EMPTY, PUSHED, SPAWNED, TOOK, WAITS};
use operations::Operation;
use refusals::Refusal;
use spec_answers::Answer;
use spec_job::Instruction;
use spec_runner::StepAnswer;

// The answer that has number n, with value x; v is the number of a new task.
fn answer(n: u32, x: u32, v: u32) -> StepAnswer
    ensures { result ≡ answer_with (word_numbered n) x v }
{
    match n {
        SPAWNED => StepAnswer::Spawned(v),
        PUSHED => StepAnswer::Pushed(x),
        TOOK => StepAnswer::Took(x),
        FINISHED => StepAnswer::Finished,
        MOVED => StepAnswer::Moved,
        EMPTY => StepAnswer::Empty,
        NOT_EMPTY => StepAnswer::NotEmpty,
        WAITS => StepAnswer::Waits,
        _ => StepAnswer::Refused(x),
    }
}

// The runner's words after instruction s of task t: it goes on at instruction i with register x; v is the number of a new task.
fn write(r: &mut [u32], t: u32, s: Instruction, v: u32, i: u32, x: u32)
    ensures { Writes t s v i x r.old r.new }
{
    let p = runner_words::procedure(r, t);
    let y = runner_words::register(r, t).wrapping_add(s.operand);
    match s.operation {
        8 => {
            runner_words::put(r, t, p, i, x);
            runner_words::put(r, v, s.which, 0, y);
        }
        1..=10 => runner_words::put(r, t, p, i, x),
        _ => runner_words::put(r, t, 0, 0, 0),
    }
}

// Task t does instruction s, with what was found: at a spawn the number of the new task.
fn done(r: &mut [u32], t: u32, s: Instruction, found: Option<u32>) -> StepAnswer
    requires { position_of r.old t < 2 ^ 31 }
    ensures { Makes t s (found_of found) (unwrap_or found 0) r.old result r.new }
{
    let v = found.unwrap_or(0);
    let i = runner_words::position(r, t);
    let x = runner_words::register(r, t);
    let e = job_effect::effect(Operation::from(s.operation), s.operand, i, x, found);
    write(r, t, s, v, e.next, e.register);
    answer(e.answer, e.value, v)
}

// A push of one value.
fn push_one(m: &mut [u32], t: u32, q: u32, v: u32) -> Answer
    requires { (length m.old ≡ 16384) × (rules_hold m.old ≡ true) }
    ensures { answered result m.new ≡ push_tested m.old t q (v ∷ []) }
{
    let run = [v];
    core_push::push(m, t, q, &run)
}

// The core call of an instruction s that uses a queue. No job has a part in it, so the contract has the empty one.
fn queue_call(m: &mut [u32], t: u32, s: Instruction, x: u32) -> Answer
    requires { (length m.old ≡ 16384) × (rules_hold m.old ≡ true) × UsesQueue s.operation }
    ensures { answered result m.new ≡ called (call_of (operation_at s.operation) [] t x s) m.old }
{
    let q = s.which;
    match s.operation {
        1 => push_one(m, t, q, s.operand),
        2 => push_one(m, t, q, x.wrapping_add(s.operand)),
        4 => core_take::take(m, t, q, true),
        _ => core_take::take(m, t, q, false),
    }
}

// The core call of instruction s, by the number of its operation, with a range for those that use a queue and one for those that make no call:
// these go on as one that found nothing.
fn core_call(job: &[u8], m: &mut [u32], t: u32, s: Instruction, x: u32) -> Answer
    requires { (length m.old ≡ 16384) × (rules_hold m.old ≡ true) }
    ensures { answered result m.new ≡ called (call_of (operation_at s.operation) job.now t x s) m.old }
{
    match s.operation {
        1..=4 | 10 => queue_call(m, t, s, x),
        5..=7 => Answer::Empty,
        8 => core_spawn::spawn(m, t, job_fields::rights(job, s.which)),
        9 => core_finish::sync(m, t),
        _ => core_finish::finish(m, t),
    }
}

// The instruction that task t is at.
fn act(job: &[u8], m: &mut [u32], r: &mut [u32], t: u32) -> StepAnswer
    requires { (length m.old ≡ 16384) × (rules_hold m.old ≡ true) × (position_of r.old t < 2 ^ 31) }
    ensures { outcome result m.new r.new ≡ acted job.now m.old r.old t }
{
    let s = runner_words::instruction_for(job, r, t);
    let a = core_call(job, m, t, s, runner_words::register(r, t));
    match a {
        Answer::Moved(v) => done(r, t, s, Some(v)),
        Answer::Empty => done(r, t, s, job_effect::NOTHING),
        Answer::Waits => StepAnswer::Waits,
        Answer::Refused(k) => StepAnswer::Refused(k),
    }
}

// A step of task t on words that pass the tests.
pub fn step_tested(job: &[u8], m: &mut [u32], r: &mut [u32], t: u32) -> StepAnswer
    requires { (length m.old ≡ 16384) × (rules_hold m.old ≡ true) × (unfinished m.old t ≡ true → position_of r.old t < 2 ^ 31) }
    ensures { outcome result m.new r.new ≡ step_tested job.now m.old r.old t }
{
    if !walks::unfinished(m, t) {
        return StepAnswer::Refused(Refusal::NoSuchTask.number());
    }
    if walks::blocked(m, t) {
        return StepAnswer::Waits;
    }
    act(job, m, r, t)
}

// A step of task t, on any words. A step that is refused or waits changes none.
pub fn step(job: &[u8], m: &mut [u32], r: &mut [u32], t: u32) -> StepAnswer
    ensures { outcome result m.new r.new ≡ step_outcome job.now m.old r.old t }
{
    match runner_words::check_rules(job, m, r) {
        Ok(()) => step_tested(job, m, r, t),
        Err(e) => StepAnswer::Refused(e.number()),
    }
}
