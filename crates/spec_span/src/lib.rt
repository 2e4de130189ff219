// What a simulation lists.
#![tactic(auto)]

use spec_simulate::Simulated;

// How it was answered, and the span of the job; 0 where the job's end is not reached.
#[derive(Clone, Copy)]
pub struct Listed {
    pub answer: Simulated,
    pub span: u32,
}
