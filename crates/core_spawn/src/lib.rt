// spawn (task, rights)
#![tactic(auto, unfolding(spec_words::specs::Words::pick, spec_outcomes::specs::Spawn::passed_user, spec_outcomes::specs::Spawn::kept_user, spec_outcomes::specs::Spawn::for_queues, spec_outcomes::specs::Spawn::child_made, spec_outcomes::specs::Spawn::spawned, spec_outcomes::specs::Spawn::spawn_tested))]

ghost use Rattle.std.specs.Prelude.{ℕ, ◌≡◌, ◌+◌, ◌<◌, ◌≤◌};
ghost use Rattle.spec_words.specs.Blocks.{store_all};
ghost use Rattle.spec_layout.specs.Layout.{task, address, read};
ghost use Rattle.spec_outcomes.specs.Spawn.{for_queues, passed_user, kept_user, no_words, child_views, passed_on, child_made, spawn_tested};
ghost use Rattle.spec_answers.specs.Answers.Outcome.{outcome};

use layout::{
    CHILDREN_HEADS, CHILDREN_TAILS, NONE, QUEUE_HEADS, RIGHT_HEADS, RIGHT_TAILS, STATUS,
    UNFINISHED, USER_HEADS, USER_TAILS,
};
use refusals::Refusal;
use spec_answers::Answer;

// What the child gets of word k + q of the record of t: the word where a has a right to q.
fn passed(m: &[u32], t: u32, a: u32, k: u32, q: u32) -> u32
    requires { (q < 4) × (k ≤ 40) }
    ensures { result ≡ passed_user a (read m.now (task t (k + q))) q }
{
    if rights::uses(a, q) {
        memory::task(m, t, k + q)
    } else {
        NONE
    }
}

// What t keeps of it.
fn kept(m: &[u32], t: u32, a: u32, k: u32, q: u32) -> u32
    requires { (q < 4) × (k ≤ 40) }
    ensures { result ≡ kept_user a (read m.now (task t (k + q))) q }
{
    if rights::uses(a, q) {
        NONE
    } else {
        memory::task(m, t, k + q)
    }
}

// What f gives for each of the four queues.
fn by_queue<F: Fn(u32) -> u32>(f: F) -> [u32; 4]
    requires { (q : ℕ) → q < 4 → F.pre f q }
    ensures { (g : ℕ → ℕ) → ((q x : ℕ) → q < 4 → F.post f q x → x ≡ g q) → result ≡ for_queues g }
{
    [f(0), f(1), f(2), f(3)]
}

// The four words from word k on of the record of child c of t.
fn pass(m: &mut [u32], c: u32, t: u32, a: u32, k: u32)
    requires { k ≤ 40 }
    ensures { m.new ≡ store_all m.old (address (task c k))
        (for_queues (λ q. passed_user a (read m.old (task t (k + q))) q)) }
{
    let words = by_queue(|q| passed(m, t, a, k, q));
    memory::set_words(m, c, k, &words);
}

fn keep(m: &mut [u32], t: u32, a: u32, k: u32)
    requires { k ≤ 40 }
    ensures { m.new ≡ store_all m.old (address (task t k)) (for_queues (λ q. kept_user a (read m.old (task t (k + q))) q)) }
{
    let words = by_queue(|q| kept(m, t, a, k, q));
    memory::set_words(m, t, k, &words);
}

fn set_none(m: &mut [u32], c: u32, k: u32)
    ensures { m.new ≡ store_all m.old (address (task c k)) no_words }
{
    memory::set_words(m, c, k, &[NONE; 4]);
}

// The views of child c of task t. The queue views go by the pop rights alone.
fn child_views(m: &mut [u32], c: u32, t: u32, r: u32)
    ensures { m.new ≡ store_all m.old (address (task c 16)) (child_views m.old t r) }
{
    pass(m, c, t, rights::pop_rights(r), QUEUE_HEADS);
    set_none(m, c, CHILDREN_HEADS);
    pass(m, c, t, r, USER_HEADS);
    set_none(m, c, RIGHT_HEADS);
    set_none(m, c, CHILDREN_TAILS);
    pass(m, c, t, r, USER_TAILS);
    set_none(m, c, RIGHT_TAILS);
}

// What t keeps of its views.
fn pass_on(m: &mut [u32], t: u32, r: u32)
    ensures { m.new ≡ passed_on m.old t r }
{
    keep(m, t, rights::pop_rights(r), QUEUE_HEADS);
    keep(m, t, r, USER_HEADS);
    keep(m, t, r, USER_TAILS);
}

// Child c of t, with rights r: the youngest child from now on.
fn make_child(m: &mut [u32], t: u32, r: u32, c: u32)
    ensures { m.new ≡ child_made m.old t r c }
{
    let o = memory::youngest(m, t);
    memory::set_words(m, c, STATUS, &[UNFINISHED, r, t, o, NONE, NONE]);
    child_views(m, c, t, r);
    pass_on(m, t, r);
    memory::set_youngest(m, t, c);
    if o != NONE {
        memory::set_younger(m, o, c);
    }
}

// On any words; what the rules promise is tested by the calls before.
pub fn spawn(m: &mut [u32], t: u32, r: u32) -> Answer
    ensures { outcome result m.new ≡ spawn_tested m.old t r }
{
    if !walks::unfinished(m, t) {
        return Refusal::NoSuchTask.into();
    }
    if !rights::subset(r, memory::rights(m, t)) {
        return Refusal::NoRight.into();
    }
    if walks::blocked(m, t) {
        return Answer::Waits;
    }
    let h = memory::free_tasks(m);
    if h == 0 {
        return Refusal::NoRecord.into();
    }
    let c = memory::free_task(m, h - 1);
    memory::set_free_tasks(m, h - 1);
    make_child(m, t, r, c);
    Answer::Moved(c)
}
