// Reading a file: its start as far as lent bytes go, or the job of a program; and the line that says why it was not read.
#![tactic(auto)]

ghost use Rattle.std.specs.Prelude.{◌≤◌, length, OnOk};
ghost use Rattle.std.specs.Io.{ReadsAtMost};
ghost use Rattle.read_file.specs.Said.{Says};

use std::env::Env;
use std::fs;
use std::fs::Files;
use std::io::{Error, ErrorKind, Read, Result, Write};

// The largest job has 49,540 bytes. A longer file is none, and is refused by its first 49,541 bytes as by all of them.
pub const JOB_BYTES: usize = 49541;

// Reads the start of a file, as far as the lent bytes go. A while loop: each read says how far it got.
fn read_start<R: Read>(file: &mut R, bytes: &mut [u8]) -> Result<usize>
    ensures { ReadsAtMost result bytes.new }
{
    let mut n: usize = 0;
    while n < bytes.len() {
        let k = file.read(&mut bytes[n..])?;
        if k == 0 {
            break;
        }
        n += k;
    }
    Ok(n)
}

// Reads the start of the file of that name.
fn read_path<F: Files>(files: &F, path: &[u8], bytes: &mut [u8]) -> Result<usize>
    ensures { ReadsAtMost result bytes.new }
{
    let Ok(name) = str::from_utf8(path) else {
        return Err(Error::new(ErrorKind::InvalidInput, "the name is not UTF-8"));
    };
    let mut file = fs::open(files, name)?;
    read_start(&mut file, bytes)
}

// Reads the start of the file that the program's first argument names. Where there is no argument it writes `usage` to
// standard error, and where the file cannot be read it says there why.
pub fn read_job<R: Env + Files, W: Write>(
    rt: &R,
    errors: &mut W,
    usage: &[u8],
    bytes: &mut [u8],
) -> Result<usize>
    ensures { ReadsAtMost result bytes.new }
{
    let mut path = io::buffer();
    let Ok(length) = rt.arg(1, &mut path) else {
        let _ = errors.write_all(usage);
        return Err(Error::new(ErrorKind::InvalidInput, "no argument"));
    };
    let got = read_path(rt, &path[..length], bytes);
    if let Err(e) = &got {
        let _ = fail(errors, &path[..length], e);
    }
    got
}

// Writes a line to standard error: what failed, as the caller names it, a colon and why.
pub fn fail<W: Write>(errors: &mut W, what: &[u8], error: &Error) -> Result<()>
    ensures { OnOk result (Says (W.contents errors.old) (W.contents errors.new) what.now) }
{
    let mut text = [0u8; 320];
    let n = why(error, &mut text);
    errors.write_all(what)?;
    errors.write_all(b": ")?;
    errors.write_all(&text[..n])?;
    errors.write_all(b"\n")
}

// Puts the words of an error at the start of the lent bytes, without the system's number behind them, and gives their length.
fn why(error: &Error, text: &mut [u8]) -> usize
    ensures { result ≤ length text.new }
{
    let all = text.len();
    let mut room = &mut *text;
    let _ = write!(room, "{error}");
    let n = all.saturating_sub(room.len());
    if error.raw_os_error().is_none() {
        return n;
    }
    match text[..n].iter().rposition(|b| *b == b'(') {
        Some(i) if i > 0 => i - 1,
        _ => n,
    }
}
