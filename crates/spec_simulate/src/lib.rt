#![tactic(auto)]

// What the next step of a task would be: it moves, it waits, or it is refused with document 01's number, as in `spec_answers`.
#[derive(Clone, Copy)]
pub enum Would {
    Moves,
    Waits,
    Refused(u32),
}

// What a simulation answers: the job's end, with the ticks used and the work; "spent"; 8 or 9, which stops it; or a refusal.
#[derive(Clone, Copy)]
pub enum Simulated {
    Ended(u32, u32),
    Spent,
    Stopped(u32),
    Refused(u32),
}

// What a phase leads to: it is over, with an answer, or it goes on with the clock, the free workers, the effects fallen and their ticks
// together. The memories and the ends stand beside it. It is for definitions (Machine.antt); the code answers by a Result.
#[derive(Clone, Copy)]
pub struct Phase {
    pub over: bool,
    pub answer: Simulated,
    pub clock: u32,
    pub free: u32,
    pub effects: u32,
    pub work: u32,
}
