// Replays a trace: each line's task is moved again, and the lines are compared with those that the run prints. Lines are compared by
// what was read of them, since two lines with one text are one line.
#![tactic(auto)]

ghost use Rattle.std.specs.Prelude.{◌≡◌, true, [], ◌∷◌, ◌+◌, ◌<◌, eqb};
ghost use Rattle.spec_words.specs.Words.{both};
ghost use Rattle.spec_job.specs.Numbers.{number_of, word_numbered};
ghost use Rattle.run_text.specs.Lines.{printed_number, line, left_line, open_line};
ghost use Rattle.overlap_text.specs.Whole.{unfinished_in};
ghost use Rattle.spec_trace.specs.declared.Line.TheVariants.{Call};
ghost use Rattle.spec_trace.specs.Line.{render, Valid, ValidCall};
ghost use Rattle.spec_trace.specs.Form.{is_call};
ghost use Rattle.spec_replay.specs.Expected.{queue_texts, queues_from, end_texts};
ghost use Rattle.spec_replay.specs.Replay.{is_same_text, first_difference};
ghost use Rattle.law_any_two.specs.Reached.{Reached};
ghost use Rattle.replay.specs.At.{lines_of, Room};
ghost use Rattle.replay.specs.Judged.{Stepped, difference, DiffersAt, Compared, Passed, Replays};

use answer_numbers::{EMPTY, FINISHED, MOVED, NOT_EMPTY, PUSHED, SPAWNED, TOOK, WAITS};
use layout::{QUEUES, WORDS};
use refusals::Refusal;
use spec_replay::Replayed;
use spec_trace::Line;
use trace_line::REFUSED;

// Where the comparison stands: the bytes that are left, and how many lines were compared.
#[derive(Clone, Copy)]
struct Place<'a> {
    rest: &'a [u8],
    lines: u32,
}

// The number of the word of an answer that has number k, as `Line` of spec_trace holds it.
#[tactic(auto, unfolding(spec_job::specs::Numbers::word_numbered, spec_job::specs::Numbers::number_of, spec_words::specs::Words::pick))]
fn word_number(k: u32) -> u32
    ensures { result ≡ number_of (word_numbered k) }
{
    match k {
        SPAWNED | PUSHED | TOOK | FINISHED | MOVED | EMPTY | NOT_EMPTY | WAITS => k,
        _ => REFUSED,
    }
}

// What is printed behind the word of an answer that has number k and value v.
#[tactic(auto, unfolding(spec_job::specs::Numbers::word_numbered, run_text::specs::Lines::printed_number, spec_words::specs::Words::pick))]
fn printed_number(k: u32, v: u32) -> u32
    ensures { result ≡ printed_number (word_numbered k) k v }
{
    match k {
        SPAWNED | PUSHED | TOOK => v,
        FINISHED | MOVED | EMPTY | NOT_EMPTY | WAITS => 0,
        _ => k,
    }
}

// Whether a call line behind n lines is that of an answer with number k and value v. Its number, task, word and value are
// the fields of `Line::Call`, which the theorems of law_trace name.
fn answer_agrees(n: u32, number: u32, task: u32, word: u32, value: u32, k: u32, v: u32) -> bool
    requires { ValidCall number task word value × (n < 65535) }
    ensures { result ≡ is_same_text (render (Call number task word value)) (line (n + 1) task k v) }
{
    number == n + 1 && word == word_number(k) && value == printed_number(k, v)
}

// Moves the task of a call line behind n lines, and says whether the line is the one that is printed.
fn call_agrees(
    job: &[u8],
    m: &mut [u32],
    r: &mut [u32],
    n: u32,
    number: u32,
    task: u32,
    word: u32,
    value: u32,
) -> bool
    requires { Reached job.now m.old r.old × ValidCall number task word value × (n < 65535) }
    ensures { Stepped job.now n (Call number task word value) result m.old r.old m.new r.new }
{
    let x = runner_step::step_tested(job, m, r, task);
    let a = packing::pack_step(x);
    answer_agrees(
        n,
        number,
        task,
        word,
        value,
        packing::status(a),
        packing::value(a),
    )
}

// Moves the tasks of the call lines. An error is the number of the first line that differs.
fn calls<'a>(job: &[u8], trace: &'a [u8], m: &mut [u32], r: &mut [u32]) -> Result<Place<'a>, u32>
    requires { Reached job.now m.old r.old × Room trace.now 0 }
    ensures { Compared result (difference job.now trace.now m.old r.old) (end_texts m.new) }
{
    let mut rest = trace;
    let mut n: u32 = 0;
    // A while let: where a line begins is known when the one before is read, so there is no iterator to go along.
    while let Some((line, behind)) = trace_line::whole(rest) {
        let Line::Call(number, task, word, value) = line else {
            break;
        };
        if !call_agrees(job, m, r, n, number, task, word, value) {
            return Err(n + 1);
        }
        rest = behind;
        n += 1;
    }
    Ok(Place { rest, lines: n })
}

// Whether a line is that of value v left in queue q.
fn left_agrees(l: Line, q: u32, v: u32) -> bool
    requires { Valid l × (q < 4) }
    ensures { result ≡ is_same_text (render l) (left_line q v) }
{
    match l {
        Line::Left(queue, value) => queue == q && value == v,
        _ => false,
    }
}

// Compares lines with those of the values left in queue q, which are no more than the core has words.
fn queue_end<'a>(m: &[u32], start: Place<'a>, q: u32) -> Result<Place<'a>, u32>
    requires { Room start.rest.now start.lines × (q < 4) }
    ensures { Passed result start.entry.rest.now start.entry.lines (queue_texts m.now q) }
{
    let mut rest = start.rest;
    let mut n = start.lines;
    for i in 0..WORDS {
        let Some(v) = overlap_text::left_value(m, q, i as u32) else {
            break;
        };
        let Some((line, behind)) = trace_line::whole(rest) else {
            break;
        };
        if !left_agrees(line, q, v) {
            return Err(n + 1);
        }
        rest = behind;
        n += 1;
    }
    Ok(Place { rest, lines: n })
}

// Nothing more is printed: a line more differs.
fn nothing_more(place: Place) -> Result<(), u32>
    requires { Room place.rest.now place.lines }
    ensures { DiffersAt result (first_difference place.entry.lines (lines_of place.entry.rest.now) []) }
{
    if place.rest.is_empty() {
        Ok(())
    } else {
        Err(place.lines + 1)
    }
}

// Compares lines with those of the values left, queues in order.
fn left_end(m: &[u32], start: Place) -> Result<(), u32>
    requires { Room start.rest.now start.lines }
    ensures { DiffersAt result (first_difference start.entry.lines (lines_of start.entry.rest.now) (queues_from m.now 0 4)) }
{
    let mut place = start;
    for q in 0..QUEUES {
        place = queue_end(m, place, q)?;
    }
    nothing_more(place)
}

// Whether a line says how many tasks are unfinished.
fn open_agrees(l: Line, m: &[u32]) -> bool
    requires { Valid l }
    ensures { result ≡ is_same_text (render l) (open_line (unfinished_in m.now)) }
{
    match l {
        Line::Open(k) => k == overlap_text::unfinished_count(m),
        _ => false,
    }
}

// Compares lines with that of a run whose top is unfinished.
fn open_end(m: &[u32], start: Place) -> Result<(), u32>
    requires { Room start.rest.now start.lines }
    ensures { DiffersAt result (first_difference start.entry.lines (lines_of start.entry.rest.now) (open_line (unfinished_in m.now) ∷ [])) }
{
    let Some((line, rest)) = trace_line::whole(start.rest) else {
        return Ok(());
    };
    let lines = start.lines + 1;
    if !open_agrees(line, m) {
        return Err(lines);
    }
    nothing_more(Place { rest, lines })
}

// Compares lines with those of the end of a run.
fn ends(m: &[u32], start: Place) -> Result<(), u32>
    requires { Room start.rest.now start.lines }
    ensures { DiffersAt result (first_difference start.entry.lines (lines_of start.entry.rest.now) (end_texts m.now)) }
{
    if walks::unfinished(m, 0) {
        return open_end(m, start);
    }
    left_end(m, start)
}

// Compares a trace with the run. An error is the number of the first line that differs.
fn compare(job: &[u8], trace: &[u8], m: &mut [u32], r: &mut [u32]) -> Result<(), u32>
    requires { Reached job.now m.old r.old × Room trace.now 0 }
    ensures { DiffersAt result (difference job.now trace.now m.old r.old) }
{
    let place = calls(job, trace, m, r)?;
    ends(m, place)
}

// Replays a trace of a job, on any bytes and words. The words are for working: they are as they were only where it is refused.
pub fn replay(job: &[u8], trace: &[u8], m: &mut [u32], r: &mut [u32]) -> Replayed
    ensures { Replays job.now trace.now m.old r.old result m.new r.new }
{
    if let Err(e) = runner_words::check_job(job, m, r) {
        return Replayed::Refused(e.number());
    }
    if !trace_form::has_form(trace) {
        return Replayed::Refused(Refusal::TraceForm.number());
    }
    runner_open::open_tested(job, m, r);
    match compare(job, trace, m, r) {
        Ok(()) => Replayed::Agrees,
        Err(n) => Replayed::Differs(n),
    }
}
