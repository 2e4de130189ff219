// The lines of a serial run's steps in blocks of at most 1,024, put at the start of lent bytes, and the values that it left.
#![tactic(auto)]

ghost use Rattle.std.specs.Prelude.{◌≡◌, ◌+◌, ◌*◌, ◌^◌, ◌<◌, ◌≤◌, length, take, drop};
ghost use Rattle.spec_words.specs.Words.{load};
ghost use Rattle.spec_plain.specs.Machine.{queue};
ghost use Rattle.spec_serial.specs.Working.{lists};
ghost use Rattle.block_text.specs.Lines.{lines_from};
ghost use Rattle.block_text.specs.Blocks.{Block};
ghost use Rattle.block_text.specs.Values.{value_lines};
ghost use Rattle.serial_text.specs.Whole.{step_line};

use block_text::Row;

// The words of step number i: its task, and its answer with the value.
fn step_row(a: &[u32], i: usize) -> Row
    requires { i < 2 ^ 33 }
    ensures { (result.task ≡ load a.now (i * 3)) × (result.answer ≡ load a.now (i * 3 + 1)) × (result.value ≡ load a.now (i * 3 + 2)) }
{
    let b = i * 3;
    Row {
        task: memory::get(a, b),
        answer: memory::get(a, b + 1),
        value: memory::get(a, b + 2),
    }
}

// The lines of n steps from step `first` on.
pub fn step_lines(out: &mut [u8], a: &[u32], first: u32, n: u32) -> usize
    requires { (65536 ≤ length out.old) × (first + n < 2 ^ 32) × (n ≤ 1024) }
    ensures { Block out.new result (lines_from (step_line a.now) first n) }
{
    block_text::call_lines(
        out,
        first as u64,
        n as usize,
        |i| step_row(a, first as usize + i),
    )
}

// The lines of the values left in queue q from number `first` on, at most 1,024.
pub fn value_lines(out: &mut [u8], w: &[u32], q: u32, first: usize) -> usize
    requires { (65536 ≤ length out.old) × (first < 2 ^ 32) }
    ensures { Block out.new result (value_lines q (take 1024 (drop first (queue (lists w.now) q)))) }
{
    block_text::value_lines(out, q, 1024, |i| serial_queues::value(w, q, first + i))
}
