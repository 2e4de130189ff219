// Jobs with overlap, for hosts in other languages: opening a job, a step of a task, a list of steps, the ready map.
ghost use Rattle.spec_runner.specs.Open.{open_outcome};
ghost use Rattle.spec_runner.specs.Step.{step_outcome};
ghost use Rattle.spec_runner.specs.Run.{run_outcome};
ghost use Rattle.spec_runner.specs.Ready.{ready_outcome};
ghost use Rattle.hyperqueue.specs.Steps.{StepHanded, ListHanded, MapHanded};

use spec_runner::StepAnswer;

#[unsafe(no_mangle)]
pub extern "C" fn hq_job_open(job: &[u8], words: &mut [u32], runner: &mut [u32]) -> u64
    ensures { StepHanded result words.new runner.new (open_outcome job.now words.old runner.old) }
{
    match runner_open::open(job, words, runner) {
        Ok(()) => packing::pack_step(StepAnswer::Moved),
        Err(e) => packing::pack_step(StepAnswer::Refused(e.number())),
    }
}

#[unsafe(no_mangle)]
pub extern "C" fn hq_job_step(job: &[u8], words: &mut [u32], runner: &mut [u32], task: u32) -> u64
    ensures { StepHanded result words.new runner.new (step_outcome job.now words.old runner.old task) }
{
    packing::pack_step(runner_step::step(job, words, runner, task))
}

// Opens the job afresh and makes a step of each task in the list, with the step's answer in its place.
#[unsafe(no_mangle)]
pub extern "C" fn hq_job_run(
    job: &[u8],
    words: &mut [u32],
    runner: &mut [u32],
    tasks: &[u32],
    answers: &mut [u64],
) -> u64
    ensures { ListHanded result words.new runner.new answers.new
        (run_outcome job.now words.old runner.old tasks.now answers.old) }
{
    packing::pack_step(runner_run::run(job, words, runner, tasks, answers))
}

// The ready map: four words, the number of set bits, the lowest ready task or 4294967295.
#[unsafe(no_mangle)]
pub extern "C" fn hq_job_ready(job: &[u8], words: &[u32], runner: &[u32], out: &mut [u32; 6]) -> u64
    ensures { MapHanded result out.new (ready_outcome job.now words.now runner.now out.old) }
{
    packing::pack_step(runner_ready::ready(job, words, runner, out))
}
