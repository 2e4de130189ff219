// One step of the serial runner that neither spawns nor returns: what it finds in its queue and does to it. Crate `job_effect`
// has its answer and where its task goes on. And the words of an answer.
#![tactic(auto, unfolding(spec_serial::specs::Serial::full, spec_job::specs::Test::between, spec_words::specs::Words::both, spec_words::specs::Words::pick))]

ghost use Rattle.std.specs.Prelude.{◌≡◌, false, [], ◌∷◌, ◌*◌, ◌^◌, ◌<◌, ◌≤◌, length};
ghost use Rattle.spec_words.specs.Words.{size};
ghost use Rattle.spec_words.specs.Blocks.{store_all};
ghost use Rattle.spec_plain.specs.Machine.{queue};
ghost use Rattle.spec_serial.specs.Serial.{VALUES, full};
ghost use Rattle.spec_serial.specs.Working.{WORKING, lists};
ghost use Rattle.spec_job.specs.Operations.{go_if_empty};
ghost use Rattle.operations.specs.Named.{named};
ghost use Rattle.serial_steps.specs.Steps.{Inner, Does, Gives};
ghost use Rattle.serial_steps.specs.Arms.{Pushes, Takes};

use job_effect::Made;
use operations::Operation;
use serial_queues::VALUES;
use spec_job::Instruction;

// Writes the answer of step number n, counted from 0, by a task.
pub fn write_answer(a: &mut [u32], n: u32, task: u32, answer: u32, value: u32)
    ensures { a.new ≡ store_all a.old (n * 3) (task ∷ answer ∷ value ∷ []) }
{
    let b = n as usize * 3;
    memory::put(a, b, task);
    memory::put(a, b + 1, answer);
    memory::put(a, b + 2, value);
}

// A push to a list that is full.
pub fn is_full(w: &[u32], s: Instruction) -> bool
    ensures { result ≡ full s (length (queue (lists w.now) s.which)) }
{
    match Operation::from(s.operation) {
        Operation::Push | Operation::PushSum => VALUES <= serial_queues::count(w, s.which),
        _ => false,
    }
}

// Pushes to queue q.
fn push_step(w: &mut [u32], o: Operation, q: u32, x: u32, i: u32, r: u32) -> Made
    requires { (size w.old ≡ WORKING) × (length (queue (lists w.old) q) < VALUES) × Pushes o × (i < 2 ^ 31) }
    ensures { Does (named o) q x i r (lists w.old) result (lists w.new) }
{
    let e = job_effect::effect(o, x, i, r, None);
    serial_queues::push(w, q, e.value);
    e
}

// Takes the front of queue q, if there is one, into the register.
fn take_step(w: &mut [u32], o: Operation, q: u32, x: u32, i: u32, r: u32) -> Made
    requires { (size w.old ≡ WORKING) × Takes o × (i < 2 ^ 31) }
    ensures { Does (named o) q x i r (lists w.old) result (lists w.new) }
{
    let front = serial_queues::value(w, q, 0);
    serial_queues::pop(w, q);
    job_effect::effect(o, x, i, r, front)
}

// Goes to instruction x where queue q is empty.
fn test_step(w: &[u32], q: u32, x: u32, i: u32, r: u32) -> Made
    requires { i < 2 ^ 31 }
    ensures { Does go_if_empty q x i r (lists w.now) result (lists w.now) }
{
    let n = serial_queues::count(w, q);
    if n == 0 {
        return job_effect::effect(Operation::GoIfEmpty, x, i, r, job_effect::NOTHING);
    }
    job_effect::effect(Operation::GoIfEmpty, x, i, r, job_effect::UNTAKEN)
}

// A step of a task at instruction i, which is s, with register r.
pub fn step(w: &mut [u32], s: Instruction, i: u32, r: u32) -> Made
    requires { (size w.old ≡ WORKING) × Inner s.operation × (full s (length (queue (lists w.old) s.which)) ≡ false) × (i < 2 ^ 31) }
    ensures { Gives s.operation s.which s.operand i r (lists w.old) result (lists w.new) }
{
    let q = s.which;
    let x = s.operand;
    let o = Operation::from(s.operation);
    match o {
        Operation::Push | Operation::PushSum => push_step(w, o, q, x, i, r),
        Operation::Pop => take_step(w, Operation::Pop, q, x, i, r),
        Operation::TakeOrGo => take_step(w, Operation::TakeOrGo, q, x, i, r),
        Operation::GoIfEmpty => test_step(w, q, x, i, r),
        _ => job_effect::effect(o, x, i, r, job_effect::NOTHING),
    }
}
