// The serial runner: the job run without overlap, within bounds. Two parts call each other, the one that runs a body and the
// one that runs a child, and the steps that remain fall from one body to the next. Both are lent the working words w, which
// hold the four lists, and the words a for the answers.
#![tactic(auto)]

ghost use Rattle.std.specs.Prelude.{◌≡◌, ◌+◌, ◌^◌, ◌<◌, ◌≤◌};
ghost use Rattle.spec_words.specs.Words.{size};
ghost use Rattle.spec_serial.specs.Serial.{STEPS, DEPTH};
ghost use Rattle.spec_serial.specs.Working.{WORKING, lists};
ghost use Rattle.spec_serial.specs.Answers.{status_of};
ghost use Rattle.spec_serial.specs.Outcome.{outcome, serial_outcome};
ghost use Rattle.serial_runner.specs.Parts.{BodyRuns, ChildRuns};
ghost use Rattle.serial_runner.specs.Handed.{Handed};

use answer_numbers::{FINISHED, SPAWNED};
use operations::Operation;
use refusals::Refusal;
use serial_queues::WORKING;
use spec_answers::Answer;
use spec_serial::End;

// The most steps of a run, and the most tasks unfinished at a time.
const STEPS: u32 = 65535;

const DEPTH: u32 = 128;

// Words for answers that a run is lent: three a step.
pub const ANSWERS: usize = 196605;

// How a part has come to an end, the steps that then remain, and the tasks made, the top included.
#[derive(Clone, Copy)]
pub struct Ran {
    pub end: End,
    pub left: u32,
    pub made: u32,
}

// Runs the body of a procedure as task `number`, the last of `depth` tasks, where `left` steps remain and `made` tasks have
// been made. One by one, as `BodyRuns` names them.
#[cycle(run_body_run_child)]
fn run_body(
    job: &[u8],
    w: &mut [u32],
    a: &mut [u32],
    number: u32,
    procedure: u32,
    mut register: u32,
    depth: u32,
    mut left: u32,
    mut made: u32,
) -> Ran
    requires { (size w.old ≡ WORKING) × (size job.now < 2 ^ 31) × (depth ≤ DEPTH) × (left ≤ STEPS) × (made + left ≤ 65536) }
    ensures { BodyRuns job.now number procedure register depth left made
        (lists w.old) a.old result (lists w.new) a.new }
{
    let mut i: u32 = 0;
    // A while loop: the steps that remain fall in the bodies of children too.
    while 0 < left {
        let s = job_fields::instruction_at(job, procedure, i);
        match Operation::from(s.operation) {
            Operation::Spawn => {
                let x = register.wrapping_add(s.operand);
                let child = run_child(job, w, a, number, s.which, x, depth, left, made);
                let end = child.end;
                let End::Ended = end else {
                    return child;
                };
                i += 1;
                left = child.left;
                made = child.made;
            }
            Operation::Return => {
                serial_steps::write_answer(a, STEPS - left, number, FINISHED, 0);
                let end = End::Ended;
                left -= 1;
                return Ran { end, left, made };
            }
            _ => {
                if serial_steps::is_full(w, s) {
                    let end = End::Refused(Refusal::NoSegment.number());
                    return Ran { end, left, made };
                }
                let m = serial_steps::step(w, s, i, register);
                serial_steps::write_answer(a, STEPS - left, number, m.answer, m.value);
                i = m.next;
                register = m.register;
                left -= 1;
            }
        }
    }
    let end = End::Spent;
    Ran { end, left, made }
}

// Runs a child of task `number`, which is the last of `depth` tasks, wholly: its spawn and its body.
#[cycle(run_body_run_child)]
fn run_child(
    job: &[u8],
    w: &mut [u32],
    a: &mut [u32],
    number: u32,
    procedure: u32,
    register: u32,
    depth: u32,
    left: u32,
    made: u32,
) -> Ran
    requires { (size w.old ≡ WORKING) × (size job.now < 2 ^ 31) × (depth ≤ DEPTH) × (0 < left) × (left ≤ STEPS) × (made + left ≤ 65536) }
    ensures { ChildRuns job.now number procedure register depth left made
        (lists w.old) a.old result (lists w.new) a.new }
{
    if DEPTH <= depth {
        let end = End::Refused(Refusal::NoRecord.number());
        return Ran { end, left, made };
    }
    serial_steps::write_answer(a, STEPS - left, number, SPAWNED, made);
    run_body(
        job,
        w,
        a,
        made,
        procedure,
        register,
        depth + 1,
        left - 1,
        made + 1,
    )
}

// A run that has stopped: why, and the steps made.
#[derive(Clone, Copy)]
pub struct Stopped {
    pub end: End,
    pub steps: u32,
}

// Runs a job serially. The lists are then in the working words w, the answers in the words a (docs/LAYOUT.md).
pub fn run_serially(job: &[u8], w: &mut [u32], a: &mut [u32]) -> Stopped
    ensures { outcome result.end result.steps (lists w.new) a.new
        ≡ serial_outcome job.now w.old a.old }
{
    if w.len() != WORKING || a.len() != ANSWERS {
        return Stopped {
            end: End::Refused(Refusal::LengthWrong.number()),
            steps: 0,
        };
    }
    let t = job_test::job_test(job);
    if let Answer::Refused(k) = t {
        return Stopped {
            end: End::Refused(k),
            steps: 0,
        };
    }
    memory::clear(w);
    let ran = run_body(job, w, a, 0, 0, 0, 1, STEPS, 1);
    let end = ran.end;
    let steps = STEPS - ran.left;
    Stopped { end, steps }
}

// FOR HOSTS IN OTHER LANGUAGES: the end and the steps are one number. Crate `hyperqueue` exports it.

// Document 01's number of a refusal; 0 ended, 35 spent.
fn status(e: End) -> u32
    ensures { result ≡ status_of e }
{
    match e {
        End::Ended => 0,
        End::Spent => 35,
        End::Refused(k) => k,
    }
}

// The status in the high half, the steps in the low half.
pub fn run_packed(job: &[u8], w: &mut [u32], a: &mut [u32]) -> u64
    ensures { Handed result (lists w.new) a.new (serial_outcome job.now w.old a.old) }
{
    let r = run_serially(job, w, a);
    packing::pack(status(r.end), r.steps)
}
