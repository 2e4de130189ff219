// Reading a line of a trace. Each part is read at the front of the bytes and gives what stands behind it, or nothing where the bytes
// are of another form.
#![tactic(auto, unfolding(crate::specs::Reads::rest_of, crate::specs::Reads::left_behind, crate::specs::Reads::number_of))]

mod part;

ghost use Rattle.std.specs.Prelude.{◌≡◌, ◌<◌};
ghost use Rattle.spec_job.specs.Numbers.{number_of, word_numbered};
ghost use Rattle.spec_trace.specs.Read.{behind_text, numbered, more_digits, number_at, word_at, value_of, behind_feed, call_at, left_at, open_at, line_at};
ghost use Rattle.trace_line.specs.Reads.{Digit, rest_of, left_behind, number_of as read_number, Below, IsWhole, IsRead};

use answer_numbers::{EMPTY, FINISHED, MOVED, NOT_EMPTY, PUSHED, SPAWNED, TOOK, WAITS};
use spec_trace::Line;

// The number of the word "refused", which is that of no answer.
pub const REFUSED: u32 = 0;

// A line has a task up to 255, and a queue up to 3.
const TASKS: u32 = 256;

const QUEUES: u32 = 4;

// The bytes behind a text.
#[inline(always)]
fn behind<'a>(bytes: &'a [u8], text: &[u8]) -> Option<&'a [u8]>
    ensures { rest_of result ≡ behind_text text.now bytes.now }
{
    bytes.strip_prefix(text)
}

// The bytes behind a line feed.
#[inline(always)]
fn behind_feed(bytes: &[u8]) -> Option<&[u8]>
    ensures { left_behind result ≡ behind_feed bytes.now }
{
    let (b, rest) = bytes.split_first()?;
    if *b == b'\n' { Some(rest) } else { None }
}

// The digit at the front.
#[inline(always)]
fn digit(bytes: &[u8]) -> Option<(u32, &[u8])>
    ensures { Digit bytes.now result }
{
    let (b, rest) = bytes.split_first()?;
    match *b {
        b'0'..=b'9' => Some(((*b - b'0') as u32, rest)),
        _ => None,
    }
}

// The number whose first digit is d, of ten digits at most.
#[inline(always)]
fn more_digits(bytes: &[u8], d: u32) -> (u64, &[u8])
    requires { d < 10 }
    ensures { numbered result.0 result.1.now ≡ more_digits 9 d bytes.now }
{
    let mut v = d as u64;
    let mut rest = bytes;
    for _k in 0..9u32 {
        let Some((c, tail)) = digit(rest) else {
            return (v, rest);
        };
        v = v * 10 + c as u64;
        rest = tail;
    }
    (v, rest)
}

// A number in decimal digits that fits a word, without leading zeros.
#[inline(always)]
fn number(bytes: &[u8]) -> Option<(u32, &[u8])>
    ensures { read_number result ≡ number_at bytes.now }
{
    let (d, rest) = digit(bytes)?;
    if d == 0 {
        return Some((0, rest));
    }
    let (v, rest) = more_digits(rest, d);
    let v = u32::try_from(v).ok()?;
    Some((v, rest))
}

// The number of the only word that may begin with a byte.
#[tactic(auto, unfolding(spec_trace::specs::Read::word_at, spec_job::specs::Numbers::number_of, spec_words::specs::Words::pick))]
#[inline(always)]
fn word_at(b: u8) -> u32
    ensures { result ≡ number_of (word_at b) }
{
    match b {
        b's' => SPAWNED,
        b'p' => PUSHED,
        b't' => TOOK,
        b'f' => FINISHED,
        b'm' => MOVED,
        b'e' => EMPTY,
        b'n' => NOT_EMPTY,
        b'w' => WAITS,
        _ => REFUSED,
    }
}

// The number behind a text.
#[inline(always)]
fn number_behind<'a>(bytes: &'a [u8], text: &[u8]) -> Option<(u32, &'a [u8])>
    ensures { read_number result ≡ number_at (behind_text text.now bytes.now) }
{
    number(behind(bytes, text)?)
}

// The number behind a text, if it is below k.
#[inline(always)]
fn number_below<'a>(bytes: &'a [u8], text: &[u8], k: u32) -> Option<(u32, &'a [u8])>
    ensures { Below k (number_at (behind_text text.now bytes.now)) result }
{
    let (v, rest) = number_behind(bytes, text)?;
    if v < k { Some((v, rest)) } else { None }
}

// A text that ends with "-", for which 0 stands.
#[inline(always)]
fn dash_behind<'a>(bytes: &'a [u8], text: &[u8]) -> Option<(u32, &'a [u8])>
    ensures { read_number result ≡ numbered 0 (behind_text text.now bytes.now) }
{
    Some((0, behind(bytes, text)?))
}

// The word that has number k, and what goes with it: a number and no enum, as `Line` of spec_trace holds one.
#[inline(always)]
#[tactic(auto, unfolding(spec_trace::specs::Read::value_of, spec_trace::specs::Read::value_at, spec_trace::specs::Read::behind_text, spec_job::specs::Numbers::word_numbered, run_text::specs::Lines::word_row, run_text::specs::Lines::spaced, text::specs::Text::ascii, spec_words::specs::Words::pick))]
fn value(bytes: &[u8], k: u32) -> Option<(u32, &[u8])>
    ensures { read_number result ≡ value_of (word_numbered k) bytes.now }
{
    match k {
        SPAWNED => number_behind(bytes, b"spawned "),
        PUSHED => number_behind(bytes, b"pushed "),
        TOOK => number_behind(bytes, b"took "),
        FINISHED => dash_behind(bytes, b"finished -"),
        MOVED => dash_behind(bytes, b"moved -"),
        EMPTY => dash_behind(bytes, b"empty -"),
        NOT_EMPTY => dash_behind(bytes, b"not -"),
        WAITS => dash_behind(bytes, b"waits -"),
        _ => number_behind(bytes, b"refused "),
    }
}

// A call line.
#[inline(always)]
fn call(bytes: &[u8]) -> Option<(Line, &[u8])>
    ensures { IsWhole result (call_at bytes.now) }
{
    let (n, rest) = number(bytes)?;
    let (t, rest) = number_below(rest, b" ", TASKS)?;
    let rest = behind(rest, b" ")?;
    let k = word_at(*rest.first()?);
    let (v, rest) = value(rest, k)?;
    Some((Line::Call(n, t, k, v), behind_feed(rest)?))
}

// A line of a value left.
#[inline(always)]
fn left(bytes: &[u8]) -> Option<(Line, &[u8])>
    ensures { IsWhole result (left_at bytes.now) }
{
    let (q, rest) = number_below(bytes, b"left ", QUEUES)?;
    let (v, rest) = number_behind(rest, b" ")?;
    Some((Line::Left(q, v), behind_feed(rest)?))
}

// The line of a run that is not over.
#[inline(always)]
fn open(bytes: &[u8]) -> Option<(Line, &[u8])>
    ensures { IsWhole result (open_at bytes.now) }
{
    let (n, rest) = number_behind(bytes, b"open ")?;
    Some((Line::Open(n), behind_feed(rest)?))
}

// The line at the front of the bytes, and the bytes behind it.
#[inline(always)]
pub fn whole(bytes: &[u8]) -> Option<(Line, &[u8])>
    ensures { IsWhole result (line_at bytes.now) }
{
    match *bytes.first()? {
        b'0'..=b'9' => call(bytes),
        b'l' => left(bytes),
        _ => open(bytes),
    }
}

// The same. An error is what was read of a line, with 0 for each number that was not.
pub fn read(bytes: &[u8]) -> Result<(Line, &[u8]), Line>
    ensures { IsRead result (line_at bytes.now) }
{
    match whole(bytes) {
        Some(line) => Ok(line),
        None => part::read(bytes),
    }
}
