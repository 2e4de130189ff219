// A JOB WITH W WORKERS, and at its end its span: the simulation on the first words that are lent for working, and the span's pass on those
// behind them.
#![tactic(auto, unfolding(spec_span::specs::Listing::span_for))]

ghost use Rattle.std.specs.Prelude.{◌≡◌, length, take};
ghost use Rattle.spec_simulate.specs.Ticks.{our_ticks};
ghost use Rattle.spec_span.specs.Pass.{SPAN};
ghost use Rattle.spec_span.specs.Listing.{span_for, listed_outcome};
ghost use Rattle.spec_span.specs.Listing.Listing.{listing};
ghost use Rattle.simulate.specs.Parts.{Table};

use refusals::Refusal;
use spec_simulate::Simulated;
use spec_span::Listed;

// The words for the ends, and all that are lent for working.
const ENDS: usize = 128;

const WORKING: usize = 525718;

// The span, where the job's end was reached.
fn span_for(job: &[u8], ticks: &[u32], w: &mut [u32], a: Simulated) -> u32
    requires { length w.old ≡ SPAN }
    ensures { result ≡ span_for job.now ticks.now w.old a }
{
    match a {
        Simulated::Ended(_, _) => span_pass::span(job, ticks, w),
        Simulated::Spent => 0,
        Simulated::Stopped(_) => 0,
        Simulated::Refused(_) => 0,
    }
}

// Simulates a job by a table of ticks, on any bytes and words. A simulation that is refused leaves the memories as they were.
pub fn simulate_listed_by(
    job: &[u8],
    ticks: &[u32],
    workers: u32,
    m: &mut [u32],
    r: &mut [u32],
    working: &mut [u32],
) -> Listed
    requires { Table ticks.now }
    ensures { listing result.answer result.span m.new r.new (take 128 working.new)
        ≡ listed_outcome job.now ticks.now workers m.old r.old working.old }
{
    if working.len() != WORKING {
        return Listed {
            answer: Simulated::Refused(Refusal::LengthWrong.number()),
            span: 0,
        };
    }
    let a = simulate::simulate_by(job, ticks, workers, m, r, &mut working[..ENDS]);
    let n = span_for(job, ticks, &mut working[ENDS..], a);
    Listed { answer: a, span: n }
}

// The same by our table.
pub fn simulate_listed(
    job: &[u8],
    workers: u32,
    m: &mut [u32],
    r: &mut [u32],
    working: &mut [u32],
) -> Listed
    ensures { listing result.answer result.span m.new r.new (take 128 working.new)
        ≡ listed_outcome job.now our_ticks workers m.old r.old working.old }
{
    let ticks = [2u32, 3, 3, 3, 2, 1, 1, 1, 5, 1, 3];
    simulate_listed_by(job, &ticks, workers, m, r, working)
}
