// THE SPAN IN ONE PASS along the serial run, on words that the caller lends. What the words hold is free, and so is what the job's bytes are. The
// words of the task that steps are read once; each step writes them, as its definition does.
#![tactic(auto, unfolding(spec_words::specs::Words::pick, spec_line::specs::Later::later, spec_job::specs::Effects::sum, job_effect::specs::Made::found_of, spec_span::specs::Pass::gone_on, spec_span::specs::Pass::ready_at, spec_span::specs::Pass::step_of, spec_span::specs::Pass::step_by, spec_span::specs::Pass::pass_step, crate::specs::Steps::own_time, crate::specs::Steps::joined_time, crate::specs::Steps::step_with, crate::specs::Steps::spawn_with, crate::specs::Steps::return_with, spec_job::specs::Operations::operation_at, spec_job::specs::Operations::operation_of, spec_job::specs::Operations::row_of, spec_span::specs::Kinds::awaits_children, spec_span::specs::Kinds::looks_in))]

ghost use Rattle.std.specs.Prelude.{◌≡◌, ◌<◌, ◌≤◌, length};
ghost use Rattle.spec_span.specs.Pass.{SPAN, queued, step_of, pass_step, span_pass};
ghost use Rattle.spec_job.specs.Operations.{sync};
ghost use Rattle.operations.specs.Named.{named};
ghost use Rattle.span_words.specs.Words.{Holds};
ghost use Rattle.span_pass.specs.Steps.{Went, Unlooked, Looking, joined_time, same, takes, step_with, spawn_with, return_with, Steps};

use job_effect::{Made, effect};
use operations::Operation;
use span_words::{CHILDREN, OWN, POSITION, REGISTER, Standing, read_task, set_task, task};
use spec_job::Instruction;

// The most unfinished tasks, the most instructions of a body, and the most steps.
const DEEPEST: u32 = 128;

const LONGEST: u32 = 128;

const STEPS: u32 = 65535;

// Task h goes on by operation o with effect e, where `ready` is the latest time that the step waits for.
fn go_on(ticks: &[u32], w: &mut [u32], h: Standing, o: Operation, e: Made, ready: u32) -> Standing
    requires { Holds w.old h }
    ensures { Went ticks.now w.old h (named o) e ready result w.new }
{
    let t = ready.wrapping_add(job_ticks::ticks_for(ticks, o));
    set_task(w, h.depth, POSITION, e.next);
    set_task(w, h.depth, REGISTER, e.register);
    set_task(w, h.depth, OWN, t);
    Standing {
        position: e.next,
        register: e.register,
        own: t,
        time: t,
        ..h
    }
}

// Operation o, which waits for no child and looks in no queue.
fn move_step(ticks: &[u32], w: &mut [u32], h: Standing, o: Operation, q: u32, x: u32) -> Standing
    requires { Holds w.old h × (h.position < 128) × Unlooked (named o) }
    ensures { Steps w.new result (step_with same ticks.now w.old h (named o) q x) }
{
    let e = effect(o, x, h.position, h.register, None);
    go_on(ticks, w, h, o, e, h.own.max(h.older))
}

// One that pushes to queue q.
fn push_step(ticks: &[u32], w: &mut [u32], h: Standing, o: Operation, q: u32, x: u32) -> Standing
    requires { Holds w.old h × (h.position < 128) × Unlooked (named o) }
    ensures { Steps w.new result (step_with queued ticks.now w.old h (named o) q x) }
{
    let e = effect(o, x, h.position, h.register, None);
    let n = go_on(ticks, w, h, o, e, h.own.max(h.older));
    span_words::enqueue(w, q, e.value, n.time);
    n
}

// Operation o, which looks in queue q.
fn look_step(ticks: &[u32], w: &mut [u32], h: Standing, o: Operation, q: u32, x: u32) -> Standing
    requires { Holds w.old h × (h.position < 128) × Looking (named o) }
    ensures { Steps w.new result (step_with same ticks.now w.old h (named o) q x) }
{
    let l = span_words::look(w, h.depth, q, h.own.max(h.older));
    let e = effect(o, x, h.position, h.register, l.front);
    go_on(ticks, w, h, o, e, l.time)
}

// One that takes what it finds.
fn take_step(ticks: &[u32], w: &mut [u32], h: Standing, o: Operation, q: u32, x: u32) -> Standing
    requires { Holds w.old h × (h.position < 128) × Looking (named o) }
    ensures { Steps w.new result (step_with takes ticks.now w.old h (named o) q x) }
{
    let l = span_words::look(w, h.depth, q, h.own.max(h.older));
    let e = effect(o, x, h.position, h.register, l.front);
    let n = go_on(ticks, w, h, o, e, l.time);
    span_words::unqueue(w, q);
    n
}

// What task h waits for where it waits for its children too.
fn joined(w: &[u32], h: Standing) -> u32
    requires { Holds w.now h }
    ensures { result ≡ joined_time w.now h.depth }
{
    h.own.max(h.older).max(task(w, h.depth, CHILDREN))
}

// A sync.
fn sync_step(ticks: &[u32], w: &mut [u32], h: Standing, q: u32, x: u32) -> Standing
    requires { Holds w.old h × (h.position < 128) }
    ensures { Steps w.new result (step_with same ticks.now w.old h sync q x) }
{
    let ready = joined(w, h);
    let e = effect(Operation::Sync, x, h.position, h.register, None);
    go_on(ticks, w, h, Operation::Sync, e, ready)
}

// The spawn of procedure p.
fn spawn_step(job: &[u8], ticks: &[u32], w: &mut [u32], h: Standing, p: u32, x: u32) -> Standing
    requires { Holds w.old h × (h.position < 128) }
    ensures { Steps w.new result (spawn_with job.now ticks.now w.old h p x) }
{
    if DEEPEST <= h.depth {
        let t = h
            .own
            .max(h.older)
            .wrapping_add(job_ticks::ticks_for(ticks, Operation::Spawn));
        return read_task(w, 0, t);
    }
    let n = move_step(ticks, w, h, Operation::Spawn, p, x);
    span_words::with_child(
        w,
        h.depth,
        p,
        job_fields::rights(job, p),
        h.register.wrapping_add(x),
        n.time,
    )
}

// The return of task h.
fn return_step(job: &[u8], ticks: &[u32], w: &mut [u32], h: Standing, q: u32) -> Standing
    requires { Holds w.old h × (1 ≤ h.depth) }
    ensures { Steps w.new result (return_with job.now ticks.now w.old h q) }
{
    let t = joined(w, h).wrapping_add(job_ticks::ticks_for(ticks, Operation::Return));
    let d = h.depth - 1;
    span_words::child_finished(w, d, job_fields::rights(job, h.procedure), t);
    read_task(w, d, t)
}

// Instruction s of task h.
fn step_of(job: &[u8], ticks: &[u32], w: &mut [u32], h: Standing, s: Instruction) -> Standing
    requires { Holds w.old h × (h.position < 128) × (1 ≤ h.depth) }
    ensures { Steps w.new result
        (step_of job.now ticks.now w.old h.depth h.procedure h.position h.register s) }
{
    let q = s.which;
    let x = s.operand;
    let o = Operation::from(s.operation);
    match o {
        Operation::Return => return_step(job, ticks, w, h, q),
        Operation::Push | Operation::PushSum => push_step(ticks, w, h, o, q, x),
        Operation::Pop | Operation::TakeOrGo => take_step(ticks, w, h, o, q, x),
        Operation::GoIfEmpty => look_step(ticks, w, h, o, q, x),
        Operation::Go | Operation::GoIfZero | Operation::Add => move_step(ticks, w, h, o, q, x),
        Operation::Spawn => spawn_step(job, ticks, w, h, q, x),
        Operation::Sync => sync_step(ticks, w, h, q, x),
    }
}

// The step of task h. One that stands behind its body, which none does, ends the pass.
fn step(job: &[u8], ticks: &[u32], w: &mut [u32], h: Standing) -> Standing
    requires { Holds w.old h × (1 ≤ h.depth) }
    ensures { Steps w.new result (pass_step job.now ticks.now w.old h.depth) }
{
    if h.position < LONGEST {
        let s = job_fields::instruction_at(job, h.procedure, h.position);
        return step_of(job, ticks, w, h, s);
    }
    read_task(w, 0, 0)
}

// THE SPAN of a job by a table of ticks, on any bytes and on words of any content.
pub fn span(job: &[u8], ticks: &[u32], w: &mut [u32]) -> u32
    requires { length w.old ≡ SPAN }
    ensures { result ≡ span_pass job.now ticks.now w.old }
{
    span_words::begin(w);
    let mut h = read_task(w, 1, 0);
    for _ in 0..STEPS {
        if h.depth == 0 {
            break;
        }
        h = step(job, ticks, w, h);
    }
    h.time
}
