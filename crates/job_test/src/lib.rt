// The job test. Every byte is read a bounded number of times, so its time is linear in the bytes.
#![tactic(auto, using(crate::proofs::Inside::contents_inside, crate::proofs::Inside::some_instruction, crate::proofs::Inside::last_inside), unfolding(crate::specs::Answers::answer_for, spec_words::specs::Words::both, spec_words::specs::Words::pick, spec_words::specs::Words::either, spec_words::specs::Words::size, spec_job::specs::Test::between, spec_job::specs::Test::head_holds, spec_job::specs::Test::entry_holds, spec_job::specs::Test::contents_hold, spec_job::specs::Test::fitting, spec_job::specs::Test::which_holds, spec_job::specs::Test::operand_holds, spec_job::specs::Test::last_holds, spec_job::specs::Test::job_answer, spec_job::specs::Test::refusal10, spec_job::specs::Test::refusal11, spec_job::specs::Test::refusal12, spec_job::specs::Fields::instruction_at, spec_job::specs::Operations::row_of))]

ghost use Rattle.std.specs.Prelude.{◌≡◌, true, ◌+◌, ◌<◌, ◌≤◌, ltb, length};
ghost use Rattle.spec_words.specs.Words.{both};
ghost use Rattle.spec_lists.specs.Tests.{upto};
ghost use Rattle.spec_tree.specs.Rights.{pushes, pops, subset};
ghost use Rattle.spec_job.specs.Fields.{procedures, entry_at, rights, instruction_from};
ghost use Rattle.job_test.specs.Answers.{answer_for};
ghost use Rattle.spec_job.specs.Test.{head_holds, entry_holds, entries_hold, contents_hold, fitting, last_holds, body_holds, job_answer};

use job_fields::{ENTRY, HEAD, INSTRUCTION};
use refusals::Refusal;
use spec_answers::Answer;

// Head and contents are there, n and L are in range.
fn head_holds(job: &[u8]) -> bool
    ensures { result ≡ head_holds job.now }
{
    let n = job_fields::procedures(job);
    let l = job_fields::segment_length(job);
    HEAD <= job.len()
        && (1..=64).contains(&n)
        && (1..=64).contains(&l)
        && HEAD + n as usize * ENTRY <= job.len()
}

// The entry of procedure p, whose body has to begin at address a.
fn entry_holds(job: &[u8], p: u32, a: usize) -> bool
    requires { entry_at (p + 1) ≤ length job.now }
    ensures { result ≡ entry_holds job.now p a }
{
    let e = job_fields::procedure_at(job, p);
    e.offset as usize == a && (1..=128).contains(&e.count) && e.reserved == 0
}

// n entries, with a the address at which the next body has to begin.
fn entries_hold(job: &[u8], n: u32) -> bool
    requires { entry_at n ≤ length job.now }
    ensures { result ≡ entries_hold job.now n 0 (entry_at n) }
{
    let mut a = HEAD + n as usize * ENTRY;
    for p in 0..n {
        if !entry_holds(job, p, a) {
            return false;
        }
        let e = job_fields::procedure_at(job, p);
        a += e.count as usize * INSTRUCTION;
    }
    a == job.len()
}

fn contents_hold(job: &[u8]) -> bool
    requires { head_holds job.now ≡ true }
    ensures { result ≡ contents_hold job.now }
{
    job_fields::rights(job, 0) == 255 && entries_hold(job, job_fields::procedures(job))
}

// Procedure w of a spawn, by a procedure with rights r.
fn spawned(job: &[u8], r: u32, w: u32) -> bool
    requires { head_holds job.now ≡ true }
    ensures { result ≡ both (ltb w (procedures job.now)) (subset (rights job.now w) r) }
{
    if job_fields::procedures(job) <= w {
        return false;
    }
    let e = job_fields::procedure_at(job, w);
    let s = e.rights;
    rights::subset(s, r)
}

// The instruction at address a, in a body of n instructions and a procedure with rights r: an arm for each pair of what
// the two fields have to be, by the operation's number with ranges, as document 01's list of forms asks.
fn instruction_holds(job: &[u8], r: u32, n: u32, a: usize) -> bool
    requires { (head_holds job.now ≡ true) × (a + 6 ≤ length job.now) }
    ensures { result ≡ fitting job.now r n (instruction_from job.now a) }
{
    let s = job_fields::instruction_inside(job, a);
    let k = s.operation;
    let w = s.which;
    let v = s.operand;
    match k {
        0 | 9 => (w == 0) & (v == 0),
        1..=2 => w < 4 && rights::pushes(r, w),
        3 => w < 4 && rights::pops(r, w) && v == 0,
        4 | 10 => w < 4 && rights::pops(r, w) && v < n,
        5..=6 => (w == 0) & (v < n),
        7 => w == 0,
        8 => spawned(job, r, w),
        _ => false,
    }
}

// "The last instruction of a body is 0 or 5."
fn last_holds(job: &[u8], p: u32) -> bool
    requires { (head_holds job.now ≡ true) × (contents_hold job.now ≡ true) × (p < procedures job.now) }
    ensures { result ≡ last_holds job.now p }
{
    let e = job_fields::procedure_at(job, p);
    let i = e.count as usize - 1;
    let s = job_fields::instruction_inside(job, e.offset as usize + i * INSTRUCTION);
    matches!(s.operation, 0 | 5)
}

// The body of procedure p.
fn body_holds(job: &[u8], p: u32) -> bool
    requires { (head_holds job.now ≡ true) × (contents_hold job.now ≡ true) × (p < procedures job.now) }
    ensures { result ≡ body_holds job.now p }
{
    let e = job_fields::procedure_at(job, p);
    let o = e.offset as usize;
    let n = e.count;
    let r = e.rights;
    // The last one is named, so that a wrong program that goes on to the one behind it differs by one operand.
    let last = n - 1;
    last_holds(job, p)
        && (0..last + 1).all(|i| instruction_holds(job, r, n, o + i as usize * INSTRUCTION))
}

fn bodies_hold(job: &[u8]) -> bool
    requires { (head_holds job.now ≡ true) × (contents_hold job.now ≡ true) }
    ensures { result ≡ upto (body_holds job.now) (procedures job.now) 0 }
{
    (0..job_fields::procedures(job)).all(|p| body_holds(job, p))
}

// Whether the bytes are a job; if not, what is wrong first.
pub fn check(job: &[u8]) -> Result<(), Refusal>
    ensures { answer_for result ≡ job_answer job.now }
{
    if !head_holds(job) {
        return Err(Refusal::JobHead);
    }
    if !contents_hold(job) {
        return Err(Refusal::JobContents);
    }
    if !bodies_hold(job) {
        return Err(Refusal::JobBody);
    }
    Ok(())
}

// Moved where the bytes are a job, refused with 10, 11 or 12 where not.
pub fn job_test(job: &[u8]) -> Answer
    ensures { result ≡ job_answer job.now }
{
    match check(job) {
        Ok(()) => Answer::Moved(0),
        Err(e) => e.into(),
    }
}
