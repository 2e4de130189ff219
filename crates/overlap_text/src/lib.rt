// The lines of a job's run with overlap in blocks of at most 1,024, put at the start of lent bytes, and the values that it
// left. A block gives the number of its bytes.
#![tactic(auto)]

ghost use Rattle.std.specs.Prelude.{◌≡◌, ◌+◌, ◌^◌, ◌<◌, ◌≤◌, length};
ghost use Rattle.law_any_two.specs.Reached.{Reached};
ghost use Rattle.run_text.specs.Lines.{open_line};
ghost use Rattle.block_text.specs.Blocks.{Block};
ghost use Rattle.block_text.specs.Given.{left_of};
ghost use Rattle.overlap_text.specs.Whole.{value_in, queue_lines, unfinished_in};
ghost use Rattle.overlap_text.specs.Laws.{Unpacked};
ghost use Rattle.overlap_text.specs.Blocks.{Called};

use block_text::Row;
use layout::{TASKS, WORDS};
use spec_answers::Answer;

// The numbers of tasks as words.
pub fn widen(bytes: &[u8], words: &mut [u32])
    requires { length words.old ≡ length bytes.now }
    ensures { words.new ≡ bytes.now }
{
    for (i, &b) in bytes.iter().enumerate() {
        words[i] = u32::from(b);
    }
}

// A call of a task with its packed answer.
fn packed_row(task: u32, answer: u64) -> Row
    ensures { Unpacked task answer result }
{
    Row {
        task,
        answer: packing::status(answer),
        value: packing::value(answer),
    }
}

// Makes the calls of the tasks, where `before` calls were made before, and writes their lines.
pub fn call_lines(
    out: &mut [u8],
    job: &[u8],
    m: &mut [u32],
    r: &mut [u32],
    tasks: &[u32],
    answers: &mut [u64],
    before: u64,
) -> usize
    requires { Reached job.now m.old r.old × (65536 ≤ length out.old) × (length tasks.now ≤ 1024)
        × (length answers.old ≡ length tasks.now) × (before + 1024 < 2 ^ 64) }
    ensures { Called job.now tasks.now m.old r.old before
        out.new result m.new r.new }
{
    runner_run::steps(job, m, r, tasks, answers);
    block_text::call_lines(
        out,
        before,
        tasks.len(),
        |i| packed_row(tasks[i], answers[i]),
    )
}

// Value number i left in queue q.
pub fn left_value(m: &[u32], q: u32, i: u32) -> Option<u32>
    ensures { value_in m.now q i ≡ left_of result }
{
    match core_left::left_at(m, q, i) {
        Answer::Moved(v) => Some(v),
        _ => None,
    }
}

// The lines of the values left in queue q. A line has at most 27 bytes, and no queue holds more values than the core has words.
pub fn queue_lines(out: &mut [u8], m: &[u32], q: u32) -> usize
    requires { length out.old ≡ 442368 }
    ensures { Block out.new result (queue_lines m.now q) }
{
    block_text::value_lines(out, q, WORDS, |i| left_value(m, q, i as u32))
}

// How many tasks are unfinished.
pub fn unfinished_count(m: &[u32]) -> u32
    ensures { result ≡ unfinished_in m.now }
{
    (0..TASKS).filter(|t| walks::unfinished(m, *t)).count() as u32
}

// The line of a run whose top is unfinished.
pub fn open_line(out: &mut [u8], m: &[u32]) -> usize
    requires { 65536 ≤ length out.old }
    ensures { Block out.new result (open_line (unfinished_in m.now)) }
{
    let n = unfinished_count(m);
    run_text::open_line(out, n)
}
