// push (task, queue, run of values)
#![tactic(auto, unfolding(spec_words::specs::Words::both, spec_words::specs::Words::either, spec_words::specs::Words::pick, spec_outcomes::specs::Views::view_of, spec_outcomes::specs::Views::is_empty, spec_outcomes::specs::Push::pushed_apart, spec_outcomes::specs::Push::pushed_behind, spec_outcomes::specs::Push::pushed_run, spec_outcomes::specs::Push::push_tested, spec_outcomes::specs::Push::runs_out, spec_outcomes::specs::Push::link_frees))]

mod room;

ghost use Rattle.std.specs.Prelude.{◌≡◌, true, ◌<◌, ◌≤◌, ◌-◌, length, take, drop};
ghost use Rattle.spec_words.specs.Words.{size, pick};
ghost use Rattle.spec_layout.specs.Layout.{length_of, Opened, ValuesFit, free_height};
ghost use Rattle.spec_rules.specs.Test.{rules_hold};
ghost use Rattle.spec_answers.specs.declared.Answer.TheVariants.{Moved, Refused};
ghost use Rattle.spec_answers.specs.Answers.Outcome.{outcome};
ghost use Rattle.spec_outcomes.specs.Segments.{next_free};
ghost use Rattle.spec_outcomes.specs.Push.{pushed_apart, pushed_behind, capacity, pushed_run, push_tested};
ghost use Rattle.law_push_runs.specs.Pushable.{Pushable};
ghost use Rattle.law_push_runs.specs.Runs.{Filled, pushed_words};

use layout::{NL, QUEUES, USER, WORDS};
use refusals::Refusal;
use spec_answers::Answer;
use views::View;

// The user view is empty: the new segment's head goes into the view at mark x. False where the paper leaves that reduction out.
fn push_apart(m: &mut [u32], t: u32, q: u32, v: u32, x: u32) -> bool
    requires { (size m.old ≡ 16384) × (0 < free_height m.old q) × (Opened m.old (next_free m.old q))
        × (0 < length_of m.old (next_free m.old q)) × (ValuesFit m.old) }
    ensures { outcome (pick result (Moved v) (Refused 2)) m.new ≡ pushed_apart m.old t q v x }
{
    let s = segments::next_free(m, q);
    let new = View { head: s, tail: NL };
    let y = walks::task_at(x);
    let k = walks::kind_at(x);
    if !View::of(m, q, y, k).reducible(new) {
        return false;
    }
    segments::take(m, q, v);
    views::join(m, q, y, k, new);
    views::set_view(m, q, t, USER, View { head: NL, tail: s });
    true
}

// The tail segment e is full: a new segment, which is handed out, becomes its next.
fn push_behind(m: &mut [u32], t: u32, q: u32, v: u32, e: u32) -> u32
    requires { (size m.old ≡ 16384) × (0 < free_height m.old q) × (Opened m.old (next_free m.old q))
        × (0 < length_of m.old (next_free m.old q)) × (ValuesFit m.old) }
    ensures { (result ≡ next_free m.old q) × (outcome (Moved v) m.new ≡ pushed_behind m.old t q v e) }
{
    let s = segments::next_free(m, q);
    segments::take(m, q, v);
    memory::set_next(m, e, s);
    memory::set_tail(m, USER, t, q, s);
    s
}

// The first values of a run, and how many: those that the tail segment has room for, or a new segment.
fn push_part(m: &mut [u32], t: u32, q: u32, vs: &[u32]) -> usize
    requires { (Filled t q m.old) × (t < 128) × (q < 4) × (0 < length vs.now) × (length vs.now ≤ capacity m.old t q) }
    ensures { (0 < result) × (result ≤ length vs.now) × (m.new ≡ pushed_words m.old t q (take result vs.now)) }
{
    let e = memory::tail(m, USER, t, q);
    if memory::count(m, e) < memory::length_of(m, e) {
        return segments::store_run(m, e, vs);
    }
    let s = push_behind(m, t, q, vs[0], e);
    if vs.len() == 1 {
        return 1;
    }
    segments::store_run(m, s, &vs[1..]) + 1
}

// A run for which there is room. Each turn says how many values it took, so this is no loop over an index.
fn push_rest(m: &mut [u32], t: u32, q: u32, vs: &[u32])
    requires { (Filled t q m.old) × (t < 128) × (q < 4) × (length vs.now ≤ capacity m.old t q) }
    ensures { m.new ≡ pushed_words m.old t q vs.now }
{
    let mut rest = vs;
    while !rest.is_empty() {
        let k = push_part(m, t, q, rest);
        rest = &rest[k..];
    }
}

// A run behind the tests. Most runs fit into the tail segment. Only the first value can meet a reduction that the paper leaves out.
fn push_run(m: &mut [u32], t: u32, q: u32, vs: &[u32]) -> Answer
    requires { (Pushable m.old t q) × (t < 128) × (q < 4) }
    ensures { outcome result m.new ≡ pushed_run m.old t q vs.now }
{
    let n = vs.len();
    if n == 0 {
        return Answer::Moved(0);
    }
    let last = vs[n - 1];
    let user = View::of(m, q, t, USER);
    if room::fits_tail(m, t, q, user.tail, n) {
        segments::store_run(m, user.tail, vs);
        return Answer::Moved(last);
    }
    if room::runs_out(m, t, q, n) {
        return Refusal::NoSegment.into();
    }
    if user.tail < NL {
        push_rest(m, t, q, vs);
        return Answer::Moved(last);
    }
    if !user.is_empty() {
        return Refusal::RulesFail.into();
    }
    if !push_apart(m, t, q, vs[0], walks::just_before(m, q, t)) {
        return Refusal::RulesFail.into();
    }
    push_rest(m, t, q, &vs[1..]);
    Answer::Moved(last)
}

// Push on memory that passes the rules. The part of m that is lent is the whole, with a length that is known where it is read.
pub fn push(m: &mut [u32], t: u32, q: u32, vs: &[u32]) -> Answer
    requires { (length m.old ≡ 16384) × (rules_hold m.old ≡ true) }
    ensures { outcome result m.new ≡ push_tested m.old t q vs.now }
{
    if !walks::unfinished(m, t) {
        return Refusal::NoSuchTask.into();
    }
    if q >= QUEUES {
        return Refusal::NoSuchQueue.into();
    }
    if !rights::pushes(memory::rights(m, t), q) {
        return Refusal::NoRight.into();
    }
    if walks::blocked(m, t) {
        return Answer::Waits;
    }
    push_run(&mut m[0..WORDS], t, q, vs)
}
