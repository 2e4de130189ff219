// The lines of a run, put into lent bytes from position `at` on. Each function gives the position behind what it wrote, and
// says how far behind that is at most.
#![tactic(auto)]

ghost use Rattle.std.specs.Prelude.{◌++◌, ◌+◌, ◌^◌, ◌<◌, ◌≤◌, length};
ghost use Rattle.text.specs.Text.{decimal};
ghost use Rattle.text.specs.Puts.{Puts};
ghost use Rattle.run_text.specs.Lines.{answered, spaced, ended, line, left_line, open_line, refused_line, end_line};

use answer_numbers::{EMPTY, FINISHED, MOVED, NOT_EMPTY, PUSHED, SPAWNED, TOOK, WAITS};
use spec_serial::End;

// A number and a space behind it.
fn spaced_number(out: &mut [u8], at: usize, n: u64) -> usize
    requires { at < 2 ^ 39 }
    ensures { Puts out.old at (spaced (decimal n)) out.new result × (result ≤ at + 21) × (n < 2 ^ 32 → result ≤ at + 11) }
{
    let b = text::number(out, at, n);
    text::put(out, b, b" ")
}

// A number that ends a line.
fn ended_number(out: &mut [u8], at: usize, n: u32) -> usize
    requires { at < 2 ^ 39 }
    ensures { Puts out.old at (ended (decimal n)) out.new result × (result ≤ at + 11) }
{
    let b = text::number(out, at, n as u64);
    text::put(out, b, b"\n")
}

// A name and a number that ends the line.
fn named_number(out: &mut [u8], at: usize, name: &[u8], n: u32) -> usize
    requires { (at + 8 < 2 ^ 39) × (length name.now ≤ 8) }
    ensures { Puts out.old at (name.now ++ ended (decimal n)) out.new result × (result ≤ at + 19) }
{
    let b = text::put(out, at, name);
    ended_number(out, b, n)
}

// "refused" and the number k.
fn refused_line(out: &mut [u8], at: usize, k: u32) -> usize
    requires { at + 8 < 2 ^ 39 }
    ensures { Puts out.old at (refused_line k) out.new result × (result ≤ at + 19) }
{
    named_number(out, at, b"refused ", k)
}

// The answer that has number k, and its value v or "-"; a refusal goes with its number.
fn answer(out: &mut [u8], at: usize, k: u32, v: u32) -> usize
    requires { at + 8 < 2 ^ 39 }
    ensures { Puts out.old at (answered k v) out.new result × (result ≤ at + 19) }
{
    match k {
        SPAWNED => named_number(out, at, b"spawned ", v),
        PUSHED => named_number(out, at, b"pushed ", v),
        TOOK => named_number(out, at, b"took ", v),
        FINISHED => text::put(out, at, b"finished -\n"),
        MOVED => text::put(out, at, b"moved -\n"),
        EMPTY => text::put(out, at, b"empty -\n"),
        NOT_EMPTY => text::put(out, at, b"not -\n"),
        WAITS => text::put(out, at, b"waits -\n"),
        _ => refused_line(out, at, k),
    }
}

// The line of call n, counted from 1: task t was answered with number k and value v.
pub fn line(out: &mut [u8], at: usize, n: u64, t: u32, k: u32, v: u32) -> usize
    requires { at < 2 ^ 38 }
    ensures { Puts out.old at (line n t k v) out.new result × (result ≤ at + 52) }
{
    let a = spaced_number(out, at, n);
    let b = spaced_number(out, a, t as u64);
    answer(out, b, k, v)
}

// The line of a value v left in queue q.
pub fn left_line(out: &mut [u8], at: usize, q: u32, v: u32) -> usize
    requires { at < 2 ^ 38 }
    ensures { Puts out.old at (left_line q v) out.new result × (result ≤ at + 27) }
{
    let a = text::put(out, at, b"left ");
    let b = spaced_number(out, a, q as u64);
    ended_number(out, b, v)
}

// The line of a run with n tasks unfinished.
pub fn open_line(out: &mut [u8], n: u32) -> usize
    ensures { Puts out.old 0 (open_line n) out.new result × (result ≤ 19) }
{
    named_number(out, 0, b"open ", n)
}

// The line of a run that a bound stopped or that was turned down.
pub fn end_line(out: &mut [u8], e: End) -> usize
    ensures { Puts out.old 0 (end_line e) out.new result × (result ≤ 23) }
{
    match e {
        End::Ended => 0,
        End::Spent => text::put(out, 0, b"spent\n"),
        End::Refused(k) => {
            if k < 10 {
                return refused_line(out, 0, k);
            }
            let a = text::put(out, 0, b"job ");
            refused_line(out, a, k)
        }
    }
}
