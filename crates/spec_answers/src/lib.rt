#![tactic(auto)]

// What a core call answers. A refusal has document 01's number here, since definitions and theorems say `Refused 8`; the code takes it from a name
// of crate `refusals`.
#[derive(Clone, Copy)]
pub enum Answer {
    // The call moved; with it the value that it returns.
    Moved(u32),
    // A take found the queue empty; it moved all the same.
    Empty,
    Waits,
    // The call is turned down, with the number of the reason.
    Refused(u32),
}

// What a take finds.
#[derive(Clone, Copy)]
pub enum Finding {
    Value(u32),
    Empty,
    Waits,
}
