// Reading the fields of a job. A byte past the end is read as 0, so a function asks nothing of the job, except where its
// name or its comment says that what it reads lies inside the job: it does not test for the end.
#![tactic(auto, unfolding(spec_words::specs::Words::load, spec_job::specs::Fields::bytes2, spec_job::specs::Fields::bytes4, spec_job::specs::Fields::procedures, spec_job::specs::Fields::segment_length, spec_job::specs::Fields::offset, spec_job::specs::Fields::count, spec_job::specs::Fields::rights, spec_job::specs::Fields::reserved, spec_job::specs::Fields::instruction_from, spec_job::specs::Fields::instruction_at))]

ghost use Rattle.std.specs.Prelude.{◌≡◌, true, ◌+◌, ◌^◌, ◌<◌, ◌≤◌, length};
ghost use Rattle.spec_words.specs.Words.{load};
ghost use Rattle.spec_job.specs.Fields.{bytes2, procedures, segment_length, entry_at, offset, count, rights, reserved, instruction_from, instruction_at};

use spec_job::Instruction;

// The bytes of a job's head, of the entry of a procedure behind it, and of an instruction.
pub const HEAD: usize = 4;

pub const ENTRY: usize = 6;

pub const INSTRUCTION: usize = 6;

// The byte at address a. Where INSIDE is true, the caller knows that it lies inside the job, and there is no test for the end.
fn byte<const INSIDE: bool>(job: &[u8], a: usize) -> u8
    requires { INSIDE ≡ true → a < length job.now }
    ensures { result ≡ load job.now a }
{
    if INSIDE || a < job.len() { job[a] } else { 0 }
}

// The number in 2 bytes from address a on.
fn bytes2<const INSIDE: bool>(job: &[u8], a: usize) -> u16
    requires low { a < 2 ^ 63 }
    requires inside { INSIDE ≡ true → a + 2 ≤ length job.now }
    ensures { result ≡ bytes2 job.now a }
{
    u16::from_le_bytes([byte::<INSIDE>(job, a), byte::<INSIDE>(job, a + 1)])
}

// The number of procedures.
pub fn procedures(job: &[u8]) -> u32
    ensures { result ≡ procedures job.now }
{
    u32::from(bytes2::<false>(job, 0))
}

// L, the number of values that a segment holds.
pub fn segment_length(job: &[u8]) -> u32
    ensures { result ≡ segment_length job.now }
{
    u32::from(bytes2::<false>(job, 2))
}

// Where the body of procedure p begins.
fn offset(job: &[u8], p: u32) -> u32
    ensures { result ≡ offset job.now p }
{
    u32::from(bytes2::<false>(job, HEAD + p as usize * ENTRY))
}

pub fn rights(job: &[u8], p: u32) -> u32
    ensures { result ≡ rights job.now p }
{
    u32::from(byte::<false>(job, HEAD + p as usize * ENTRY + 4))
}

// The instruction that begins at address a.
fn instruction<const INSIDE: bool>(job: &[u8], a: usize) -> Instruction
    requires low { a < 2 ^ 63 }
    requires inside { INSIDE ≡ true → a + 6 ≤ length job.now }
    ensures { result ≡ instruction_from job.now a }
{
    Instruction {
        operation: u32::from(byte::<INSIDE>(job, a)),
        which: u32::from(byte::<INSIDE>(job, a + 1)),
        operand: u32::from_le_bytes([
            byte::<INSIDE>(job, a + 2),
            byte::<INSIDE>(job, a + 3),
            byte::<INSIDE>(job, a + 4),
            byte::<INSIDE>(job, a + 5),
        ]),
    }
}

// The entry of a procedure: where its body begins, the number of instructions, the rights, and the last byte.
#[derive(Clone, Copy)]
pub struct Procedure {
    pub offset: u32,
    pub count: u32,
    pub rights: u32,
    pub reserved: u32,
}

// The entry of procedure p, inside the job.
pub fn procedure_at(job: &[u8], p: u32) -> Procedure
    requires { entry_at (p + 1) ≤ length job.now }
    ensures { (result.offset ≡ offset job.now p) × (result.count ≡ count job.now p)
        × (result.rights ≡ rights job.now p) × (result.reserved ≡ reserved job.now p) }
{
    let a = HEAD + p as usize * ENTRY;
    Procedure {
        offset: u32::from(bytes2::<true>(job, a)),
        count: u32::from(bytes2::<true>(job, a + 2)),
        rights: u32::from(byte::<true>(job, a + 4)),
        reserved: u32::from(byte::<true>(job, a + 5)),
    }
}

// The instruction that begins at address a, inside the job.
pub fn instruction_inside(job: &[u8], a: usize) -> Instruction
    requires { a + 6 ≤ length job.now }
    ensures { result ≡ instruction_from job.now a }
{
    instruction::<true>(job, a)
}

// Instruction i of procedure p. One test tells whether it lies inside the job.
pub fn instruction_at(job: &[u8], p: u32, i: u32) -> Instruction
    ensures { result ≡ instruction_at job.now p i }
{
    let a = offset(job, p) as usize + i as usize * INSTRUCTION;
    if a + INSTRUCTION <= job.len() {
        instruction::<true>(job, a)
    } else {
        instruction::<false>(job, a)
    }
}
