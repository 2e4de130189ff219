// Lines of a run in blocks of at most 1,024, put at the start of lent bytes. A block gives the number of its bytes.
#![tactic(auto)]

ghost use Rattle.std.specs.Prelude.{List, ℕ, ◌+◌, ◌*◌, ◌^◌, ◌<◌, ◌≤◌, length};
ghost use Rattle.std.proofs.Math.Option.{Option as Left};
ghost use Rattle.run_text.specs.Lines.{end_line};
ghost use Rattle.block_text.specs.Lines.{lines_from};
ghost use Rattle.block_text.specs.Blocks.{Block};
ghost use Rattle.block_text.specs.Given.{Prints, Finds};
ghost use Rattle.block_text.specs.Values.{value_lines, read_from};

use spec_serial::End;

// The most lines of a block.
const LINES: u32 = 1024;

// How many of n lines stand in the block that begins with line `first`: at most 1,024, and one at least.
pub fn part(n: u32, first: u32) -> u32
    requires { first < n }
    ensures { (result ≤ 1024) × (0 < result) × (first + result ≤ n) }
{
    (n - first).min(LINES)
}

// A call or a step: its task, the number of its answer and the answer's value.
#[derive(Clone, Copy)]
pub struct Row {
    pub task: u32,
    pub answer: u32,
    pub value: u32,
}

// The lines of n calls, where `before` calls were made before and `row` gives call number i of the block.
pub fn call_lines<F: Fn(usize) -> Row>(out: &mut [u8], before: u64, n: usize, row: F) -> usize
    requires { (65536 ≤ length out.old) × (n ≤ 1024) × (before + n < 2 ^ 64) × ((i : ℕ) → i < n → F.pre row i) }
    ensures { (f : ℕ → List ℕ) → Prints (F.post row) before n f → Block out.new result (lines_from f 0 n) }
{
    let mut at: usize = 0;
    for i in 0..n {
        let x = row(i);
        at = run_text::line(out, at, before + i as u64 + 1, x.task, x.answer, x.value);
    }
    at
}

// The lines of the values left in queue q, which `value` gives from number 0 on until it gives none: `most` of them at most.
pub fn value_lines<F: Fn(usize) -> Option<u32>>(
    out: &mut [u8],
    q: u32,
    most: usize,
    value: F,
) -> usize
    requires { (most * 27 ≤ length out.old) × (most < 2 ^ 32) × ((i : ℕ) → i < most → F.pre value i) }
    ensures { (f : ℕ → Left ℕ) → Finds (F.post value) most f → Block out.new result (value_lines q (read_from f most 0)) }
{
    let mut at: usize = 0;
    for i in 0..most {
        let Some(v) = value(i) else {
            return at;
        };
        at = run_text::left_line(out, at, q, v);
    }
    at
}

// The line of a run that did not end.
pub fn end_line(out: &mut [u8], e: End) -> usize
    requires { 65536 ≤ length out.old }
    ensures { Block out.new result (end_line e) }
{
    run_text::end_line(out, e)
}
