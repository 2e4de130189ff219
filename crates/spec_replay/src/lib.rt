#![tactic(auto)]

// What a replay answers: all lines agree, the number of the first line that differs, or the number of a refusal
// (`form_refused` of law_replay speaks of 13).
#[derive(Clone, Copy)]
pub enum Replayed {
    Agrees,
    Differs(u32),
    Refused(u32),
}
