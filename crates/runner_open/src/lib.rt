// Opening a job: the core for its segment length, and the top at its first instruction.
#![tactic(auto, unfolding(spec_runner::specs::Open::segments_for, spec_words::specs::Words::pick, runner_words::specs::Numbers::refusal_number))]

ghost use Rattle.std.specs.Prelude.{◌≡◌};
ghost use Rattle.spec_runner.specs.Open.{segments_for};
ghost use Rattle.runner_words.specs.Numbers.{refusal_number};
ghost use Rattle.runner_words.specs.Refusals.{job_refusal};
ghost use Rattle.runner_open.specs.Opens.{Opens};

use layout::{SEGMENTS, VALUE_WORDS};
use refusals::Refusal;

// "The runner opens with segments the smaller of 256 and 8,192 divided by L, rounded down."
fn segments_for(l: u32) -> u32
    ensures { result ≡ segments_for l }
{
    if l <= 32 { SEGMENTS } else { VALUE_WORDS / l }
}

// Opens a job that is not refused.
pub fn open_tested(job: &[u8], m: &mut [u32], r: &mut [u32])
    requires { 0 ≡ job_refusal job.now m.old r.old }
    ensures { Opens job.now m.old r.old 0 m.new r.new }
{
    let l = job_fields::segment_length(job);
    core_open::open(m, l, segments_for(l));
    memory::clear(r);
}

// Opens a job, on any words.
pub fn open(job: &[u8], m: &mut [u32], r: &mut [u32]) -> Result<(), Refusal>
    ensures { Opens job.now m.old r.old (refusal_number result) m.new r.new }
{
    runner_words::check_job(job, m, r)?;
    open_tested(job, m, r);
    Ok(())
}
