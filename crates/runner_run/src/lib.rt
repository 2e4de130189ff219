// A LIST OF STEPS IN ONE CALL: the job is tested once and opened afresh, and each step is made behind its tests, since words
// that only the core wrote pass them. `Reached` stays a condition: it speaks of the job and of two memories that a host lends one by one, and
// a struct of the three would be lent again at each step.
#![tactic(auto)]

ghost use Rattle.std.specs.Prelude.{◌≡◌, ◌<◌, length};
ghost use Rattle.spec_runner.specs.Run.{listed, run_outcome};
ghost use Rattle.law_any_two.specs.Reached.{Reached};
ghost use Rattle.runner_run.specs.Made.{Step, Made};

use refusals::Refusal;
use spec_runner::StepAnswer;

// A step of task t, and its answer in place i.
fn make(job: &[u8], t: u32, m: &mut [u32], r: &mut [u32], answers: &mut [u64], i: usize)
    requires { Reached job.now m.old r.old × (i < length answers.old) }
    ensures { Step job.now t i m.old r.old answers.old
        m.new r.new answers.new }
{
    let x = runner_step::step_tested(job, m, r, t);
    answers[i] = packing::pack_step(x);
}

// Makes the steps of the tasks in order on words that a run of the job has reached, with each answer in its place.
pub fn steps(job: &[u8], m: &mut [u32], r: &mut [u32], tasks: &[u32], answers: &mut [u64])
    requires { Reached job.now m.old r.old × (length answers.old ≡ length tasks.now) }
    ensures { Made job.now tasks.now m.old r.old
        m.new r.new answers.new }
{
    for (i, &t) in tasks.iter().enumerate() {
        make(job, t, m, r, answers, i);
    }
}

// Opens the job afresh and makes the steps of the tasks. An answer that waits or refuses stands in its place too, and the
// list goes on.
pub fn run(
    job: &[u8],
    m: &mut [u32],
    r: &mut [u32],
    tasks: &[u32],
    answers: &mut [u64],
) -> StepAnswer
    ensures { listed result m.new r.new answers.new
        ≡ run_outcome job.now m.old r.old tasks.now answers.old }
{
    if answers.len() != tasks.len() {
        return StepAnswer::Refused(Refusal::LengthWrong.number());
    }
    match runner_open::open(job, m, r) {
        Ok(()) => {
            steps(job, m, r, tasks, answers);
            StepAnswer::Moved
        }
        Err(e) => StepAnswer::Refused(e.number()),
    }
}
