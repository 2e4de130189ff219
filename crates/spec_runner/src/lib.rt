#![tactic(auto)]

// What a step of a job's task is answered. A refusal has document 01's number, as in `spec_answers`.
#[derive(Clone, Copy)]
pub enum StepAnswer {
    // with the number of the new task
    Spawned(u32),
    // with the value
    Pushed(u32),
    Took(u32),
    Finished,
    // operations 5, 6, 7 and 9
    Moved,
    Empty,
    NotEmpty,
    Waits,
    // The step is turned down, with the number of the reason.
    Refused(u32),
}
