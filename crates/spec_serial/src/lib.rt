#![tactic(auto)]

// How a serial run stops. A refusal has document 01's number, as in `spec_answers`.
#[derive(Clone, Copy)]
pub enum End {
    // The top task has finished.
    Ended,
    // All steps are made, and the top task has not finished.
    Spent,
    // Turned down, with the number of the reason.
    Refused(u32),
}
