#![tactic(auto)]

// A line of a trace: a call's number, its task, the number of the answer's word and what goes with it; a queue and a value left in
// it; how many tasks are unfinished. The word is a number, since `Valid` and the theorems over it (law_trace) say which word has which number.
#[derive(Clone, Copy)]
pub enum Line {
    Call(u32, u32, u32, u32),
    Left(u32, u32),
    Open(u32),
}
