// A JOB WITH W WORKERS: how many ticks it uses, and the work. The job is tested once and opened afresh, and each effect is a step made
// behind its tests, since words that only the core wrote pass them.
#![tactic(auto, unfolding(crate::specs::Parts::end_of, spec_words::specs::Words::pick, spec_words::specs::Words::either, spec_words::specs::Words::size, spec_simulate::specs::Machine::earlier, spec_simulate::specs::Machine::would_be))]

ghost use Rattle.std.specs.Prelude.{◌≡◌, true, ◌+◌, ◌<◌, ◌≤◌, length, replicate};
ghost use Rattle.spec_words.specs.Words.{load};
ghost use Rattle.spec_lists.specs.Maps.{All};
ghost use Rattle.spec_outcomes.specs.Waits.{unfinished};
ghost use Rattle.law_any_two.specs.Reached.{Reached};
ghost use Rattle.spec_simulate.specs.Ticks.{ticks_for, operation_of};
ghost use Rattle.spec_simulate.specs.Machine.{would_be, earlier, soonest, in_program_order, simulation, simulate_outcome};
ghost use Rattle.simulate.specs.Listed.{listed, Noted};
ghost use Rattle.simulate.specs.Parts.{Table, Counts, End, end_of, phase_of, led_by, Asks, Chooses, Judges, Falls, FallsAll, Rounds, RoundsAll};

use layout::{END, MARKS, TASKS};
use operations::Operation;
use refusals::Refusal;
use runner_words::instruction_for;
use spec_runner::StepAnswer;
use spec_simulate::{Simulated, Would};

const MOST_WORKERS: u32 = 16;

// "Once 65,535 effects have fallen with the top unfinished it answers "spent"."
const MOST_EFFECTS: u32 = 65535;

// Where a simulation stands: the clock, the free workers, the effects fallen and their ticks together.
#[derive(Clone, Copy)]
struct Clock {
    now: u32,
    free: u32,
    effects: u32,
    work: u32,
}

// The list of n tasks with the one that is entered at mark x, if one is.
// A list of tasks is the front of a fixed array, with its length beside it: there is no heap.
fn note(order: &mut [u32], n: usize, x: u32) -> usize
    requires { (n < length order.old) × (n < 256) }
    ensures { Noted n x order.old result order.new }
{
    if TASKS <= x {
        return n;
    }
    memory::put(order, n, x);
    n + 1
}

// The unfinished tasks, from the last in program order to the first. Answers how many they are.
fn list_tasks(m: &[u32], order: &mut [u32]) -> usize
    requires { length order.old ≡ 256 }
    ensures { listed order.new result ≡ in_program_order m.now }
{
    let mut x = 0;
    let mut n = 0;
    for _ in 0..MARKS {
        if END <= x {
            break;
        }
        n = note(order, n, x);
        x = walks::after(m, x);
    }
    n
}

// The ticks of the instruction that task t is at.
fn ticks_of(job: &[u8], r: &[u32], ticks: &[u32], t: u32) -> u32
    ensures { result ≡ ticks_for ticks.now (operation_of job.now r.now t) }
{
    let s = instruction_for(job, r, t);
    job_ticks::ticks_for(ticks, Operation::from(s.operation))
}

// A worker comes to task t: one that is under way is passed, as one that waits.
fn choose_one(
    job: &[u8],
    m: &[u32],
    r: &[u32],
    ticks: &[u32],
    ends: &mut [u32],
    clock: u32,
    t: u32,
) -> Would
    requires { Reached job.now m.now r.now × (unfinished m.now t ≡ true) × Table ticks.now × (clock < 2147483648) }
    ensures { Asks job.now ticks.now m.now r.now clock t ends.old result ends.new }
{
    if memory::get(ends, t as usize) != 0 {
        return Would::Waits;
    }
    let x = runner_would::would(job, m, r, t);
    match x {
        Would::Moves => {
            memory::put(ends, t as usize, clock + ticks_of(job, r, ticks, t));
            x
        }
        Would::Waits => x,
        Would::Refused(_) => x,
    }
}

// Free workers come to the n tasks of a list, from its end on.
// By index here, in due and in fall: `for &t in list.iter().rev()` was tried in due, on a slice in place of order and n. Its invariant is then
// about the tasks yielded, not about a count as in `listed`, and search left the goals loop-t-init, loop-t-preserved and returns open.
fn choose(
    job: &[u8],
    m: &[u32],
    r: &[u32],
    ticks: &[u32],
    ends: &mut [u32],
    order: &[u32],
    n: usize,
    c: Clock,
) -> Result<Clock, Simulated>
    requires { Reached job.now m.now r.now × All (λ t. unfinished m.now t ≡ true) (listed order.now n) × Table ticks.now × (c.now < 2147483648) }
    ensures { Chooses job.now ticks.now (listed order.now n) m.now r.now
        ends.old (phase_of c) (led_by result) ends.new }
{
    let mut free = c.free;
    for i in (0..n).rev() {
        if free == 0 {
            break;
        }
        match choose_one(job, m, r, ticks, ends, c.now, memory::get(order, i)) {
            Would::Moves => {
                free -= 1;
            }
            Would::Waits => {}
            Would::Refused(k) => {
                return Err(Simulated::Stopped(k));
            }
        }
    }
    Ok(Clock { free, ..c })
}

// The earlier of an end, if one is known, and the word e, which is 0 where a task is not under way.
fn earlier(due: Option<u32>, e: u32) -> Option<u32>
    requires { End due }
    ensures { End result × (end_of result ≡ earlier (end_of due) e) }
{
    if e == 0 {
        due
    } else {
        Some(due.map_or(e, |d| d.min(e)))
    }
}

// The smallest end of the n tasks of a list, if one is under way.
fn due(ends: &[u32], order: &[u32], n: usize) -> Option<u32>
    ensures { End result × (end_of result ≡ soonest ends.now (listed order.now n) 0) }
{
    let mut due = None;
    for i in (0..n).rev() {
        let t = memory::get(order, i);
        due = earlier(due, memory::get(ends, t as usize));
    }
    due
}

// What a step's answer says of it. A From would have to stand beside Would, in a crate of definitions.
fn would_be(x: StepAnswer) -> Would
    ensures { result ≡ would_be x }
{
    match x {
        StepAnswer::Waits => Would::Waits,
        StepAnswer::Refused(k) => Would::Refused(k),
        _ => Would::Moves,
    }
}

// After an effect: the job's end, or "spent".
fn judge(m: &[u32], c: Clock) -> Result<Clock, Simulated>
    ensures { Judges m.now c.now c.free c.effects c.work (led_by result) }
{
    if !walks::unfinished(m, 0) {
        return Err(Simulated::Ended(c.now, c.work));
    }
    if c.effects == MOST_EFFECTS {
        return Err(Simulated::Spent);
    }
    Ok(c)
}

// The effect of task t's instruction falls, which is due.
fn fall_one(
    job: &[u8],
    m: &mut [u32],
    r: &mut [u32],
    ticks: &[u32],
    ends: &mut [u32],
    t: u32,
    c: Clock,
) -> Result<Clock, Simulated>
    requires { Reached job.now m.old r.old × Table ticks.now × Counts (phase_of c) × (load ends.old t ≡ c.now) }
    ensures { Falls job.now ticks.now t m.old r.old ends.old (phase_of c)
        (led_by result) m.new r.new ends.new }
{
    let k = ticks_of(job, r, ticks, t);
    match would_be(runner_step::step_tested(job, m, r, t)) {
        Would::Moves => {
            memory::put(ends, t as usize, 0);
            judge(
                m,
                Clock {
                    now: c.now,
                    free: c.free + 1,
                    effects: c.effects + 1,
                    work: c.work + k,
                },
            )
        }
        Would::Waits => Ok(c),
        Would::Refused(n) => Err(Simulated::Stopped(n)),
    }
}

// The effects of a tick fall, those of the n tasks of a list from its end on.
fn fall(
    job: &[u8],
    m: &mut [u32],
    r: &mut [u32],
    ticks: &[u32],
    ends: &mut [u32],
    order: &[u32],
    n: usize,
    c: Clock,
) -> Result<Clock, Simulated>
    requires { Reached job.now m.old r.old × Table ticks.now × Counts (phase_of c) }
    ensures { FallsAll job.now ticks.now (listed order.now n) m.old r.old ends.old (phase_of c)
        (led_by result) m.new r.new ends.new }
{
    let mut p = c;
    for i in (0..n).rev() {
        let t = memory::get(order, i);
        if memory::get(ends, t as usize) == p.now {
            p = fall_one(job, m, r, ticks, ends, t, p)?;
        }
    }
    Ok(p)
}

// A round: workers choose, the clock goes on, effects fall.
// Lent one by one, with `Table ticks` a condition: the definitions name each, and a struct of six loans would be lent again at each call.
fn round(
    job: &[u8],
    m: &mut [u32],
    r: &mut [u32],
    ticks: &[u32],
    ends: &mut [u32],
    order: &mut [u32],
    c: Clock,
) -> Result<Clock, Simulated>
    requires { Reached job.now m.old r.old × (unfinished m.old 0 ≡ true) × Table ticks.now × Counts (phase_of c) × (c.now < 2147483648)
        × (length order.old ≡ 256) }
    ensures { Rounds job.now ticks.now m.old r.old ends.old (phase_of c)
        (led_by result) m.new r.new ends.new }
{
    let n = list_tasks(m, order);
    let p = choose(job, m, r, ticks, ends, order, n, c)?;
    let Some(now) = due(ends, order, n) else {
        return Err(Simulated::Spent);
    };
    fall(job, m, r, ticks, ends, order, n, Clock { now, ..p })
}

// Rounds of words just opened, until it is over. Each has an effect, so that as many as effects are enough.
fn rounds(
    job: &[u8],
    m: &mut [u32],
    r: &mut [u32],
    ticks: &[u32],
    ends: &mut [u32],
    workers: u32,
) -> Simulated
    requires { Reached job.now m.old r.old × (unfinished m.old 0 ≡ true) × Table ticks.now × (workers ≤ 16) × (ends.old ≡ replicate 128 0) }
    ensures { RoundsAll job.now ticks.now workers m.old r.old
        result m.new r.new ends.new }
{
    let mut order = [0u32; 256];
    let mut p = Clock {
        now: 0,
        free: workers,
        effects: 0,
        work: 0,
    };
    for _ in 0..MOST_EFFECTS {
        match round(job, m, r, ticks, ends, &mut order, p) {
            Ok(next) => {
                p = next;
            }
            Err(answer) => {
                return answer;
            }
        }
    }
    Simulated::Spent
}

// Simulates a job by a table of ticks, on any bytes and words. A simulation that is refused leaves all words as they were.
pub fn simulate_by(
    job: &[u8],
    ticks: &[u32],
    workers: u32,
    m: &mut [u32],
    r: &mut [u32],
    ends: &mut [u32],
) -> Simulated
    requires { Table ticks.now }
    ensures { simulation result m.new r.new ends.new
        ≡ simulate_outcome job.now ticks.now workers m.old r.old ends.old }
{
    if ends.len() != TASKS as usize {
        return Simulated::Refused(Refusal::LengthWrong.number());
    }
    if let Err(e) = runner_words::check_job(job, m, r) {
        return Simulated::Refused(e.number());
    }
    if !(1..=MOST_WORKERS).contains(&workers) {
        return Simulated::Refused(Refusal::WorkersWrong.number());
    }
    runner_open::open_tested(job, m, r);
    ends.fill(0);
    rounds(job, m, r, ticks, ends, workers)
}
