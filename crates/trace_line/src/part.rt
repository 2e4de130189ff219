// A line read once more where none stands, for as much of it as there is: `whole` hands nothing on, and is the faster for it.
ghost use Rattle.spec_trace.specs.Read.{call_at, left_at, open_at, line_at};
ghost use Rattle.trace_line.specs.Reads.{IsRead};

use crate::{QUEUES, REFUSED, TASKS, behind, behind_feed, number, number_behind, value, word_at};
use spec_trace::Line;

// A call line.
fn call(bytes: &[u8]) -> Result<(Line, &[u8]), Line>
    ensures { IsRead result (call_at bytes.now) }
{
    let (n, rest) = number(bytes).ok_or(Line::Call(0, 0, REFUSED, 0))?;
    let (t, rest) = number_behind(rest, b" ").ok_or(Line::Call(n, 0, REFUSED, 0))?;
    if t >= TASKS {
        return Err(Line::Call(n, t, REFUSED, 0));
    }
    let rest = behind(rest, b" ").ok_or(Line::Call(n, t, REFUSED, 0))?;
    let b = rest.first().ok_or(Line::Call(n, t, REFUSED, 0))?;
    let k = word_at(*b);
    let (v, rest) = value(rest, k).ok_or(Line::Call(n, t, k, 0))?;
    let rest = behind_feed(rest).ok_or(Line::Call(n, t, k, v))?;
    Ok((Line::Call(n, t, k, v), rest))
}

// A line of a value left.
fn left(bytes: &[u8]) -> Result<(Line, &[u8]), Line>
    ensures { IsRead result (left_at bytes.now) }
{
    let (q, rest) = number_behind(bytes, b"left ").ok_or(Line::Left(0, 0))?;
    if q >= QUEUES {
        return Err(Line::Left(q, 0));
    }
    let (v, rest) = number_behind(rest, b" ").ok_or(Line::Left(q, 0))?;
    let rest = behind_feed(rest).ok_or(Line::Left(q, v))?;
    Ok((Line::Left(q, v), rest))
}

// The line of a run that is not over.
fn open(bytes: &[u8]) -> Result<(Line, &[u8]), Line>
    ensures { IsRead result (open_at bytes.now) }
{
    let (n, rest) = number_behind(bytes, b"open ").ok_or(Line::Open(0))?;
    let rest = behind_feed(rest).ok_or(Line::Open(n))?;
    Ok((Line::Open(n), rest))
}

// The line at the front of the bytes, and the bytes behind it. An error is what was read of a line, with 0 for each number that was
// not.
pub(crate) fn read(bytes: &[u8]) -> Result<(Line, &[u8]), Line>
    ensures { IsRead result (line_at bytes.now) }
{
    match *bytes.first().ok_or(Line::Open(0))? {
        b'0'..=b'9' => call(bytes),
        b'l' => left(bytes),
        _ => open(bytes),
    }
}
