// Runs the job in the file that the first argument names, with the order of calls from standard input: each byte is the
// number of a task, which makes a step. It prints the run in document 01's lines. Where the file cannot be read it says why on
// standard error and prints nothing.
#![tactic(auto)]

ghost use Rattle.std.specs.Prelude.{◌≡◌, ◌+◌, ◌^◌, ◌<◌, ◌≤◌, length};
ghost use Rattle.law_any_two.specs.Reached.{Reached};

use layout::WORDS;
use read_file::JOB_BYTES;
use runner_words::RUNNER_WORDS;
use spec_serial::End;
use std::io::{Error, Read, Write};

// What stopped a run: its calls were not read, or its lines not written.
#[derive(Debug, Drop)]
enum Failure {
    Input(Error),
    Output(Error),
}

// Makes the calls of the tasks, with words for their numbers and answers, and prints their lines; `before` calls were made before.
fn print_made<O: Write>(
    to: &mut O,
    job: &[u8],
    m: &mut [u32],
    r: &mut [u32],
    tasks: &[u8],
    words: &mut [u32],
    answers: &mut [u64],
    before: u64,
) -> Result<(), Error>
    requires { Reached job.now m.old r.old × (length tasks.now ≤ 1024) × (length words.old ≡ length tasks.now)
        × (length answers.old ≡ length tasks.now) × (before + 1024 < 2 ^ 64) }
    ensures { Reached job.now m.new r.new }
{
    overlap_text::widen(tasks, words);
    let mut out = io::large_buffer();
    let n = overlap_text::call_lines(&mut out, job, m, r, words, answers, before);
    to.write_all(&out[..n])
}

// The same with words of its own.
fn print_block<O: Write>(
    to: &mut O,
    job: &[u8],
    tasks: &[u8],
    m: &mut [u32],
    r: &mut [u32],
    before: u64,
) -> Result<(), Error>
    requires { Reached job.now m.old r.old × (length tasks.now ≤ 1024) × (before + 1024 < 2 ^ 64) }
    ensures { Reached job.now m.new r.new }
{
    let n = tasks.len();
    let mut words = [0u32; 1024];
    let mut answers = [0u64; 1024];
    print_made(
        to,
        job,
        m,
        r,
        tasks,
        &mut words[..n],
        &mut answers[..n],
        before,
    )
}

// Makes and prints the calls of standard input, as many at a time as one read gives.
fn print_calls<I: Read, O: Write>(
    input: &mut I,
    to: &mut O,
    job: &[u8],
    tasks: &mut [u8],
    m: &mut [u32],
    r: &mut [u32],
) -> Result<(), Failure>
    requires { Reached job.now m.old r.old × (length tasks.old ≤ 1024) }
{
    let mut before: u64 = 0;
    // No run gets to the bound. It keeps the number of a call within 64 bits. A while loop: each read says how many calls it gave.
    while before < 9223372036854775808 {
        let k = input.read(tasks).map_err(Failure::Input)?;
        if k == 0 {
            break;
        }
        print_block(to, job, &tasks[..k], m, r, before).map_err(Failure::Output)?;
        before += k as u64;
    }
    Ok(())
}

// Prints a line for each value left, queues in order.
fn print_left<O: Write>(to: &mut O, m: &[u32]) -> Result<(), Error> {
    let mut out = [0u8; WORDS * 27];
    for q in 0..4 {
        let r = overlap_text::queue_lines(&mut out, m, q);
        to.write_all(&out[..r])?;
    }
    Ok(())
}

// Prints how many tasks are unfinished. Its three lines stand in each function that prints one block: see serial_program.
fn print_open<O: Write>(to: &mut O, m: &[u32]) -> Result<(), Error> {
    let mut out = io::large_buffer();
    let n = overlap_text::open_line(&mut out, m);
    to.write_all(&out[..n])
}

// Prints the end of a run: the values left, or that the top is unfinished.
fn print_end<O: Write>(to: &mut O, m: &[u32]) -> Result<(), Error> {
    if walks::unfinished(m, 0) {
        return print_open(to, m);
    }
    print_left(to, m)
}

// Prints the line of a job that was refused with number k.
fn print_refused<O: Write>(to: &mut O, k: u32) -> Result<(), Error> {
    let mut out = io::large_buffer();
    let n = block_text::end_line(&mut out, End::Refused(k));
    to.write_all(&out[..n])
}

// Makes the calls of standard input and prints the run.
fn run_open<I: Read, O: Write>(
    input: &mut I,
    to: &mut O,
    job: &[u8],
    m: &mut [u32],
    r: &mut [u32],
) -> Result<(), Failure>
    requires { Reached job.now m.old r.old }
{
    let mut tasks = [0u8; 1024];
    print_calls(input, to, job, &mut tasks, m, r)?;
    print_end(to, m).map_err(Failure::Output)
}

// Opens a job and runs it.
fn run<I: Read, O: Write>(input: &mut I, to: &mut O, job: &[u8]) -> Result<(), Failure> {
    let mut m = [0u32; WORDS];
    let mut r = [0u32; RUNNER_WORDS];
    match runner_open::open(job, &mut m, &mut r) {
        Ok(()) => run_open(input, to, job, &mut m, &mut r),
        Err(refusal) => print_refused(to, refusal.number()).map_err(Failure::Output),
    }
}

// Says on standard error what stopped a run.
fn report<E: Write>(errors: &mut E, failure: &Failure) {
    let _ = match failure {
        Failure::Input(e) => read_file::fail(errors, b"standard input", e),
        Failure::Output(e) => read_file::fail(errors, b"standard output", e),
    };
}

fn main(rt: HostRuntime) {
    let mut errors = rt.stderr();
    let mut file = [0u8; JOB_BYTES];
    let got = read_file::read_job(
        &rt,
        &mut errors,
        b"usage: overlap FILE, with task numbers as bytes on standard input\n",
        &mut file,
    );
    if let Ok(n) = got {
        if let Err(failure) = run(&mut rt.stdin(), &mut rt.stdout(), &file[..n]) {
            report(&mut errors, &failure);
        }
    }
}
