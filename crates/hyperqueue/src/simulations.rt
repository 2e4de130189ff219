// Simulations of jobs with workers, for hosts in other languages.
ghost use Rattle.std.specs.Prelude.{◌≡◌, take};
ghost use Rattle.spec_simulate.specs.Ticks.{our_ticks};
ghost use Rattle.spec_span.specs.Listing.{listed_outcome};
ghost use Rattle.hyperqueue.specs.Simulations.{status_of, ticks_used, work_done, SimulationHanded};

use spec_simulate::Simulated;

const SPENT: u32 = 35;

// The number of an answer, the ticks used and the work: 0 at the job's end, and with no ticks and no work 35 where it is spent, 8 or 9 where
// that stops it, or the number of a refusal.
fn numbers(a: Simulated) -> (u32, u32, u32)
    ensures { (result.0 ≡ status_of a) × (result.1 ≡ ticks_used a) × (result.2 ≡ work_done a) }
{
    match a {
        Simulated::Ended(ticks, work) => (0, ticks, work),
        Simulated::Spent => (SPENT, 0, 0),
        Simulated::Stopped(k) | Simulated::Refused(k) => (k, 0, 0),
    }
}

// Simulates the job with a number of workers, and writes the ticks used, the work and the span; zeros where the job's end is not reached. The
// memories and the words lent for working are for working; a simulation that is refused leaves the memories as they were.
#[unsafe(no_mangle)]
pub extern "C" fn hq_simulate(
    job: &[u8],
    workers: u32,
    words: &mut [u32],
    runner: &mut [u32],
    working: &mut [u32],
    out: &mut [u64; 3],
) -> u64
    ensures { SimulationHanded result out.new words.new runner.new (take 128 working.new)
        (listed_outcome job.now our_ticks workers words.old runner.old working.old) }
{
    let l = simulate_listed::simulate_listed(job, workers, words, runner, working);
    let (status, ticks, work) = numbers(l.answer);
    *out = [ticks as u64, work as u64, l.span as u64];
    packing::pack(status, 0)
}
