// Runs the job in the file that the first argument names, without overlap, and prints the run in document 01's lines. Where
// the file cannot be read it says why on standard error and prints nothing.
#![tactic(auto)]

ghost use Rattle.std.specs.Prelude.{◌+◌, ◌^◌, ◌<◌, ◌≤◌};

use read_file::JOB_BYTES;
use serial_queues::WORKING;
use serial_runner::ANSWERS;
use spec_serial::End;
use std::io::{Result, Write};

// The most lines of a block.
const BLOCK: usize = 1024;

// A buffer, what is put into it, and a write: three lines in each function that prints one block, here and below. One function for all would take
// the putting as a closure, which would have to promise that it stays within the buffer, and leave each of these with as many lines.
// Prints the lines of n steps from step `first` on.
fn print_step_block<O: Write>(to: &mut O, a: &[u32], first: u32, n: u32) -> Result<()>
    requires { (first + n < 2 ^ 32) × (n ≤ 1024) }
{
    let mut out = io::large_buffer();
    let r = serial_text::step_lines(&mut out, a, first, n);
    to.write_all(&out[..r])
}

// Prints a line for each step.
fn print_steps<O: Write>(to: &mut O, a: &[u32], steps: u32) -> Result<()> {
    for first in (0..steps).step_by(BLOCK) {
        print_step_block(to, a, first, block_text::part(steps, first))?;
    }
    Ok(())
}

// Prints the lines of the values left in queue q from value `first` on, at most 1,024.
fn print_value_block<O: Write>(to: &mut O, w: &[u32], q: u32, first: usize) -> Result<()>
    requires { first < 2 ^ 32 }
{
    let mut out = io::large_buffer();
    let r = serial_text::value_lines(&mut out, w, q, first);
    to.write_all(&out[..r])
}

// Prints a line for each value left in queue q.
fn print_queue<O: Write>(to: &mut O, w: &[u32], q: u32) -> Result<()> {
    let count = serial_queues::count(w, q) as usize;
    for first in (0..count).step_by(BLOCK) {
        print_value_block(to, w, q, first)?;
    }
    Ok(())
}

// Prints a line for each value left, queues in order.
fn print_left<O: Write>(to: &mut O, w: &[u32]) -> Result<()> {
    for q in 0..4 {
        print_queue(to, w, q)?;
    }
    Ok(())
}

// Prints the line of a run that did not end.
fn print_end<O: Write>(to: &mut O, e: End) -> Result<()> {
    let mut out = io::large_buffer();
    let r = block_text::end_line(&mut out, e);
    to.write_all(&out[..r])
}

// Prints the steps, and then the values left or why the run stopped.
fn print_run<O: Write>(to: &mut O, w: &[u32], a: &[u32], e: End, steps: u32) -> Result<()> {
    print_steps(to, a, steps)?;
    match e {
        End::Ended => print_left(to, w),
        _ => print_end(to, e),
    }
}

// Runs a job and prints the run.
fn run<O: Write, E: Write>(to: &mut O, errors: &mut E, job: &[u8]) {
    let mut w = [0u32; WORKING];
    let mut a = [0u32; ANSWERS];
    let s = serial_runner::run_serially(job, &mut w, &mut a);
    let e = s.end;
    let steps = s.steps;
    if let Err(why) = print_run(to, &w, &a, e, steps) {
        let _ = read_file::fail(errors, b"standard output", &why);
    }
}

fn main(rt: HostRuntime) {
    let mut errors = rt.stderr();
    let mut file = [0u8; JOB_BYTES];
    let got = read_file::read_job(&rt, &mut errors, b"usage: serial_program FILE\n", &mut file);
    if let Ok(n) = got {
        run(&mut rt.stdout(), &mut errors, &file[..n]);
    }
}
