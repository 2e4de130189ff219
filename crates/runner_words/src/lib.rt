// The runner's words: reading and writing them, whether they keep their rules, and what every call of the runner tests first.
// Reading and writing are total: past the end a read gives 0 and a write does nothing. The test of the rules asks for what the calls test before it.
#![tactic(auto, unfolding(crate::specs::Numbers::refusal_number, crate::specs::Refusals::job_refusal, crate::specs::Refusals::refusal_in, crate::specs::Tested::map_refusal, job_test::specs::Answers::answer_for, spec_words::specs::Words::both, spec_words::specs::Words::pick, spec_words::specs::Words::size, spec_words::specs::Words::load, spec_words::specs::Words::store, spec_layout::specs::Layout::read, spec_layout::specs::Layout::address, spec_outcomes::specs::Waits::unfinished, spec_runner::specs::Words::procedure_of, spec_runner::specs::Words::position_of, spec_runner::specs::Words::register_of, spec_runner::specs::Words::put, spec_runner::specs::Words::instruction_for, spec_runner::specs::Rules::task_holds, spec_runner::specs::Rules::zeros, spec_runner::specs::Rules::record_holds))]

ghost use Rattle.std.specs.Prelude.{◌≡◌, true, List, ℕ, ◌+◌, ◌<◌, ◌≤◌, length};
ghost use Rattle.spec_lists.specs.Tests.{upto};
ghost use Rattle.spec_outcomes.specs.Waits.{unfinished};
ghost use Rattle.spec_runner.specs.Words.{procedure_of, position_of, register_of, put, instruction_for};
ghost use Rattle.spec_runner.specs.Rules.{task_holds, zeros, record_holds, runner_holds};
ghost use Rattle.runner_words.specs.Numbers.{refusal_number};
ghost use Rattle.runner_words.specs.Refusals.{job_refusal, Fits};
ghost use Rattle.runner_words.specs.Tested.{map_refusal};

use layout::{RIGHTS_AT, TASK_RECORDS, TASK_WORDS, TASKS, UNFINISHED, WORDS};
use refusals::Refusal;
use spec_job::Instruction;

// Words that the runner is lent beside the core's.
pub const RUNNER_WORDS: usize = 384;

// The words of a task.
const RECORD: usize = 3;

// The number of tasks, as a usize.
const RECORDS: usize = TASKS as usize;

// The procedure of task t.
pub fn procedure(r: &[u32], t: u32) -> u32
    ensures { result ≡ procedure_of r.now t }
{
    memory::get(r, t as usize * RECORD)
}

// The number of the instruction that task t is at.
pub fn position(r: &[u32], t: u32) -> u32
    ensures { result ≡ position_of r.now t }
{
    memory::get(r, t as usize * RECORD + 1)
}

pub fn register(r: &[u32], t: u32) -> u32
    ensures { result ≡ register_of r.now t }
{
    memory::get(r, t as usize * RECORD + 2)
}

// The three words of task t.
pub fn put(r: &mut [u32], t: u32, p: u32, i: u32, x: u32)
    ensures { r.new ≡ put r.old t p i x }
{
    memory::put_all(r, t as usize * RECORD, &[p, i, x]);
}

// The instruction that task t is at.
pub fn instruction_for(job: &[u8], r: &[u32], t: u32) -> Instruction
    ensures { result ≡ instruction_for job.now r.now t }
{
    job_fields::instruction_at(job, procedure(r, t), position(r, t))
}

// The words of an unfinished task: procedure and instruction exist, and the core's rights are the procedure's.
fn task_holds(job: &[u8], m: &[u32], r: &[u32], t: usize) -> bool
    requires { Fits job.now m.now r.now × (t < 128) }
    ensures { result ≡ task_holds job.now m.now r.now t }
{
    let a = t * RECORD;
    let p = r[a];
    if p >= job_fields::procedures(job) {
        return false;
    }
    let e = job_fields::procedure_at(job, p);
    r[a + 1] < e.count && m[RIGHTS_AT + t * TASK_WORDS] == e.rights
}

// As in crate walks, but read without a test for the end, since the lengths are known.
fn unfinished(m: &[u32], t: usize) -> bool
    requires { (length m.now ≡ 16384) × (t < 128) }
    ensures { result ≡ unfinished m.now t }
{
    m[TASK_RECORDS + t * TASK_WORDS] == UNFINISHED
}

// The words of a record that is not in use. There is no branch for a word, since that is faster.
fn zeros(r: &[u32], t: usize) -> bool
    requires { (length r.now ≡ 384) × (t < 128) }
    ensures { result ≡ zeros r.now t }
{
    let a = t * RECORD;
    (r[a] == 0) & (r[a + 1] == 0) & (r[a + 2] == 0)
}

fn record_holds(job: &[u8], m: &[u32], r: &[u32], t: usize) -> bool
    requires { Fits job.now m.now r.now × (t < 128) }
    ensures { result ≡ record_holds job.now m.now r.now t }
{
    if unfinished(m, t) {
        task_holds(job, m, r, t)
    } else {
        zeros(r, t)
    }
}

// True only where none of the four records from t on is in use and their words are 0.
fn four_free(m: &[u32], r: &[u32], t: usize) -> bool
    requires { (length m.now ≡ 16384) × (length r.now ≡ 384) × (t + 4 ≤ 128) }
    ensures { (job : List ℕ) → result ≡ true → upto (record_holds job m.now r.now) 4 t ≡ true }
{
    !unfinished(m, t)
        && !unfinished(m, t + 1)
        && !unfinished(m, t + 2)
        && !unfinished(m, t + 3)
        && zeros(r, t) & zeros(r, t + 1) & zeros(r, t + 2) & zeros(r, t + 3)
}

// The four records from t on. Most records are free, so four free ones are told by one test of their words.
fn four_hold(job: &[u8], m: &[u32], r: &[u32], t: usize) -> bool
    requires { Fits job.now m.now r.now × (t + 4 ≤ 128) }
    ensures { result ≡ upto (record_holds job.now m.now r.now) 4 t }
{
    four_free(m, r, t) || (t..t + 4).all(|i| record_holds(job, m, r, i))
}

// The runner's part of the memory rules.
pub fn holds(job: &[u8], m: &[u32], r: &[u32]) -> bool
    requires { Fits job.now m.now r.now }
    ensures { result ≡ runner_holds job.now m.now r.now }
{
    (0..RECORDS / 4).all(|i| four_hold(job, m, r, i * 4))
}

// Whether the lengths are right and the bytes are a job, as every call needs.
pub fn check_job(job: &[u8], m: &[u32], r: &[u32]) -> Result<(), Refusal>
    ensures { refusal_number result ≡ job_refusal job.now m.now r.now }
{
    if m.len() != WORDS || r.len() != RUNNER_WORDS {
        return Err(Refusal::LengthWrong);
    }
    job_test::check(job)
}

// The same, and whether the memories keep their rules.
pub fn check_rules(job: &[u8], m: &[u32], r: &[u32]) -> Result<(), Refusal>
    ensures { refusal_number result ≡ map_refusal job.now m.now r.now }
{
    check_job(job, m, r)?;
    if memory_test::rules_hold(m) && holds(job, m, r) {
        Ok(())
    } else {
        Err(Refusal::RulesFail)
    }
}
