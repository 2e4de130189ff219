// left (queue, index)
#![tactic(auto, unfolding(spec_words::specs::Words::pick, spec_outcomes::specs::Left::left_tested))]

ghost use Rattle.std.specs.Prelude.{◌≡◌};
ghost use Rattle.spec_answers.specs.Answers.Outcome.{outcome};
ghost use Rattle.spec_outcomes.specs.Left.{queued, left_tested};

use layout::{FINISHED, NL, QUEUES, SEGMENTS};
use refusals::Refusal;
use spec_answers::Answer;

// Value number `index` of the chain from segment `first` on.
fn queued(m: &[u32], first: u32, index: u32) -> Answer
    ensures { result ≡ queued 256 m.now first index }
{
    let mut s = first;
    let mut i = index;
    for _ in 0..SEGMENTS {
        if s >= NL {
            return Refusal::PastTheEnd.into();
        }
        let n = memory::count(m, s);
        if i < n {
            return Answer::Moved(segments::value_at(m, s, i));
        }
        i -= n;
        s = memory::next(m, s);
    }
    Refusal::PastTheEnd.into()
}

// Left on memory that passes the rules, for a caller that may only read it.
pub fn left_at(m: &[u32], q: u32, i: u32) -> Answer
    ensures { outcome result m.now ≡ left_tested m.now q i }
{
    if q >= QUEUES {
        return Refusal::NoSuchQueue.into();
    }
    if memory::status(m, 0) != FINISHED {
        return Answer::Waits;
    }
    queued(m, memory::queue_head(m, 0, q), i)
}

// Left on memory that passes the rules: every word stays as it was.
pub fn left(m: &mut [u32], q: u32, i: u32) -> Answer
    ensures { outcome result m.new ≡ left_tested m.old q i }
{
    left_at(m, q, i)
}
