#![tactic(auto)]

// An instruction of a job: which operation, and its two fields. The operation is a number, the byte of the job, as definitions read it
// (`instruction_at`); crate `operations` has its name.
#[derive(Clone, Copy)]
pub struct Instruction {
    pub operation: u32,
    pub which: u32,
    pub operand: u32,
}
