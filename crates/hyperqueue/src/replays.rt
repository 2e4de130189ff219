// Replays of recorded runs, for hosts in other languages.
ghost use Rattle.hyperqueue.specs.Replays.{PacksReplay, ReplayHanded};

use spec_replay::Replayed;

const DIFFERS: u32 = 36;

const AGREES: u32 = 37;

// An answer as one number: 37, 36 with the number of the line, or that of a refusal.
fn pack_replay(a: Replayed) -> u64
    ensures { PacksReplay a result }
{
    match a {
        Replayed::Agrees => packing::pack(AGREES, 0),
        Replayed::Differs(n) => packing::pack(DIFFERS, n),
        Replayed::Refused(k) => packing::pack(k, 0),
    }
}

// Replays the lines of a run of the job. Both memories are for working; a replay that is refused leaves them as they were.
#[unsafe(no_mangle)]
pub extern "C" fn hq_replay(job: &[u8], trace: &[u8], words: &mut [u32], runner: &mut [u32]) -> u64
    ensures { ReplayHanded result words.new runner.new job.now trace.now words.old runner.old }
{
    pack_replay(replay::replay(job, trace, words, runner))
}
