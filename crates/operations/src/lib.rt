// The operations of a job, by their names.
#![tactic(auto, unfolding(spec_job::specs::Operations::operation_at, spec_job::specs::Operations::operation_of, spec_job::specs::Operations::row_of))]

ghost use Rattle.std.specs.Prelude.{◌≡◌};
ghost use Rattle.spec_job.specs.Operations.{operation_at};
ghost use Rattle.operations.specs.Named.{named};

#[derive(Clone, Copy, Debug, PartialEq, Eq)]
pub enum Operation {
    Return,
    // Pushes the operand.
    Push,
    // Pushes the register plus the operand.
    PushSum,
    // Pops into the register.
    Pop,
    GoIfEmpty,
    Go,
    GoIfZero,
    // Adds the operand to the register.
    Add,
    Spawn,
    Sync,
    // Pops into the register, or goes to the operand.
    TakeOrGo,
}

// A number that is none, which no accepted job has, is taken for a return.
impl From<u32> for Operation {
    ghost from_gives = { λ k o. named o ≡ operation_at k };

    #[inline(always)]
    fn from(k: u32) -> Operation {
        match k {
            1 => Operation::Push,
            2 => Operation::PushSum,
            3 => Operation::Pop,
            4 => Operation::GoIfEmpty,
            5 => Operation::Go,
            6 => Operation::GoIfZero,
            7 => Operation::Add,
            8 => Operation::Spawn,
            9 => Operation::Sync,
            10 => Operation::TakeOrGo,
            _ => Operation::Return,
        }
    }
}
