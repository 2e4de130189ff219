// Why a call is turned down: the refusals of the C header, HQ_LENGTH_WRONG to HQ_WORKERS_WRONG.
#![tactic(auto)]

ghost use Rattle.std.specs.Prelude.{◌≡◌};
ghost use Rattle.spec_answers.specs.declared.Answer.TheVariants.{Refused};
ghost use Rattle.refusals.specs.Numbers.{number_of};

use spec_answers::Answer;

#[derive(Clone, Copy, Debug, PartialEq, Eq)]
pub enum Refusal {
    // A lent memory has another length.
    LengthWrong,
    // The words are not such as calls leave behind, or lead to a reduction that the paper leaves out.
    RulesFail,
    // A new core's length or number of segments is out of range.
    NumbersWrong,
    // No unfinished task has this number.
    NoSuchTask,
    NoSuchQueue,
    NoRight,
    // No value is left there.
    PastTheEnd,
    // No task record is free.
    NoRecord,
    // Too few segments are free.
    NoSegment,
    // Head and contents of a job are not there, or its first numbers are out of range.
    JobHead,
    // An entry of a job or its length is wrong.
    JobContents,
    // An instruction of a job is wrong.
    JobBody,
    TraceForm,
    WorkersWrong,
}

impl Refusal {
    // The number with which a host is answered.
    pub fn number(self) -> u32
        ensures { result ≡ number_of self }
    {
        match self {
            Refusal::LengthWrong => 1,
            Refusal::RulesFail => 2,
            Refusal::NumbersWrong => 3,
            Refusal::NoSuchTask => 4,
            Refusal::NoSuchQueue => 5,
            Refusal::NoRight => 6,
            Refusal::PastTheEnd => 7,
            Refusal::NoRecord => 8,
            Refusal::NoSegment => 9,
            Refusal::JobHead => 10,
            Refusal::JobContents => 11,
            Refusal::JobBody => 12,
            Refusal::TraceForm => 13,
            Refusal::WorkersWrong => 14,
        }
    }
}

impl From<Refusal> for Answer {
    ghost from_gives = { λ e a. a ≡ Refused (number_of e) };

    fn from(e: Refusal) -> Answer {
        Answer::Refused(e.number())
    }
}
