// The numbers of the answers of a step, as in `number_of` of crate `spec_job`. Numbers and no enum: they stand in words that are lent, for
// hosts in other languages.
#![tactic(auto)]

pub const WAITS: u32 = 32;

pub const EMPTY: u32 = 33;

pub const NOT_EMPTY: u32 = 34;

pub const SPAWNED: u32 = 40;

pub const PUSHED: u32 = 41;

pub const TOOK: u32 = 42;

pub const FINISHED: u32 = 43;

pub const MOVED: u32 = 44;
