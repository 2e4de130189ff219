// sync (task) and finish (task)
#![tactic(auto, unfolding(spec_words::specs::Words::both, spec_words::specs::Words::either, spec_words::specs::Words::pick, spec_tree::specs::Rights::each_queue, spec_outcomes::specs::Waits::unfinished, spec_outcomes::specs::Finish::unlinked, spec_outcomes::specs::Finish::freed_record, spec_outcomes::specs::Finish::finished, spec_outcomes::specs::Finish::top_finished, spec_outcomes::specs::Finish::finish_tested, spec_outcomes::specs::Sync::when_reduced, spec_outcomes::specs::Sync::sync_tested, crate::specs::Held::held))]

ghost use Rattle.std.specs.Prelude.{◌≡◌, ◌<◌, eqb, length, replicate, None};
ghost use Rattle.spec_words.specs.Words.{pick};
ghost use Rattle.spec_words.specs.Blocks.{store_all};
ghost use Rattle.spec_layout.specs.Layout.{NONE, YOUNGER, task, address, write};
ghost use Rattle.spec_answers.specs.Answers.Outcome.{outcome};
ghost use Rattle.spec_tree.specs.Rights.{each_queue};
ghost use Rattle.spec_outcomes.specs.Sync.{syncs, sync_tested};
ghost use Rattle.spec_outcomes.specs.Finish.{finishes, unlinked, freed_record, finished, top_finished, finish_tested};
ghost use Rattle.core_finish.specs.Held.{held};

use layout::{FINISHED, NONE, QUEUES, TASK_RECORDS, TASK_WORDS, TASKS};
use refusals::Refusal;
use spec_answers::Answer;

// The older sibling o, if any, has y as its younger one.
fn link_younger(m: &mut [u32], o: u32, y: u32)
    ensures { m.new ≡ pick (eqb o NONE) m.old (write m.old (task o YOUNGER) y) }
{
    if o != NONE {
        memory::set_younger(m, o, y);
    }
}

// Task t leaves the list of its siblings.
fn unlink(m: &mut [u32], t: u32)
    ensures { m.new ≡ unlinked m.old t }
{
    let o = memory::older(m, t);
    let y = memory::younger(m, t);
    let p = memory::parent(m, t);
    link_younger(m, o, y);
    if y == NONE {
        memory::set_youngest(m, p, o);
    } else {
        memory::set_older(m, y, o);
    }
}

#[tactic(auto, using(crate::proofs::Records::record_cleared))]
fn clear_record(m: &mut [u32], t: u32)
    requires { (length m.old ≡ 16384) × (t < 128) }
    ensures { m.new ≡ store_all m.old (address (task t 0)) (replicate 48 0) }
{
    let a = TASK_RECORDS + t as usize * TASK_WORDS;
    memory::clear(&mut m[a..a + TASK_WORDS]);
}

// The record of t is free, and the one that is used next.
fn record_freed(m: &mut [u32], t: u32)
    requires { (length m.old ≡ 16384) × (t < 128) }
    ensures { m.new ≡ freed_record m.old t }
{
    let h = memory::free_tasks(m);
    clear_record(m, t);
    if h < TASKS {
        memory::set_free_task(m, h, t);
        memory::set_free_tasks(m, h + 1);
    }
}

// What finish leaves of the memory.
#[tactic(auto, using(memory::specs::Queues::none_done, memory::specs::Queues::one_more_done))]
fn finished(m: &mut [u32], t: u32)
    requires { (length m.old ≡ 16384) × (t < 128) }
    ensures { m.new ≡ finished m.old t }
{
    for q in 0..QUEUES {
        core_return::finished_queue(m, t, q);
    }
    unlink(m, t);
    record_freed(m, t);
}

// A finished top keeps its views.
fn top_finished(m: &mut [u32])
    ensures { m.new ≡ top_finished m.old }
{
    views::sync_all(m, 0);
    memory::set_status(m, 0, FINISHED);
}

pub fn each_syncs(m: &[u32], t: u32) -> bool
    ensures { result ≡ each_queue (syncs m.now t) }
{
    (0..QUEUES).all(|q| views::syncs(m, t, q))
}

pub fn each_finishes(m: &[u32], t: u32) -> bool
    requires { t < 128 }
    ensures { result ≡ each_queue (finishes m.now t) }
{
    (0..QUEUES).all(|q| core_return::finishes(m, t, q))
}

// Why task t may neither sync nor finish: it is not unfinished, or it waits for a child or an older sibling. The children are asked first:
// that takes no walk.
fn held(m: &[u32], t: u32) -> Option<Answer>
    ensures { (result ≡ held m.now t) × (result ≡ None → t < 128) }
{
    if !walks::unfinished(m, t) {
        return Some(Refusal::NoSuchTask.into());
    }
    if walks::has_child(m, t) || walks::blocked(m, t) {
        return Some(Answer::Waits);
    }
    None
}

// Sync, on memory whose length and rules have been tested.
pub fn sync(m: &mut [u32], t: u32) -> Answer
    ensures { outcome result m.new ≡ sync_tested m.old t }
{
    if let Some(a) = held(m, t) {
        return a;
    }
    if !each_syncs(m, t) {
        return Refusal::RulesFail.into();
    }
    views::sync_all(m, t);
    Answer::Moved(0)
}

// Finish, on memory whose length and rules have been tested.
pub fn finish(m: &mut [u32], t: u32) -> Answer
    requires { length m.old ≡ 16384 }
    ensures { outcome result m.new ≡ finish_tested m.old t }
{
    if let Some(a) = held(m, t) {
        return a;
    }
    let reduces = if t == 0 {
        each_syncs(m, t)
    } else {
        each_finishes(m, t)
    };
    if !reduces {
        return Refusal::RulesFail.into();
    }
    if t == 0 {
        top_finished(m);
    } else {
        finished(m, t);
    }
    Answer::Moved(0)
}
