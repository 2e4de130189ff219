// open (length, segments)
#![tactic(auto, unfolding(spec_words::specs::Words::pick, spec_words::specs::Words::both, spec_words::specs::Words::size, spec_rules::specs::Test::in_range, spec_rules::specs::Test::within, spec_outcomes::specs::Open::stacked, spec_outcomes::specs::Open::segmented, spec_outcomes::specs::Open::open_outcome))]

ghost use Rattle.std.specs.Prelude.{◌≡◌, ◌+◌, ◌<◌, ◌≤◌, length};
ghost use Rattle.spec_words.specs.Blocks.{store_all};
ghost use Rattle.spec_layout.specs.Layout.{segment, address};
ghost use Rattle.spec_answers.specs.Answers.Outcome.{outcome};
ghost use Rattle.spec_outcomes.specs.Open.{down, empty_segment, stacked, segmented, topped, opened, open_outcome};

use layout::{
    ALL_RIGHTS, CHILDREN_HEADS, CHILDREN_TAILS, HEADER, LAST_TASK, NL, NONE, QUEUE_HEADS, QUEUES,
    RIGHT_HEADS, RIGHT_TAILS, SEGMENT_STACK, STATUS, TASK_STACK, UNFINISHED, USER_HEADS,
    USER_TAILS, WORDS,
};
use refusals::Refusal;
use spec_answers::Answer;

// n numbers from x down, from address a on.
fn count_down(m: &mut [u32], a: usize, n: u32, x: u32)
    requires { (a ≤ 320) × (n ≤ 256) × (n ≤ x + 1) }
    ensures { m.new ≡ store_all m.old a (down n x) }
{
    for i in 0..n {
        memory::put(m, a + i as usize, x - i);
    }
}

// The two stacks of free things.
fn stack(m: &mut [u32], n: u32)
    requires { (4 ≤ n) × (n ≤ 256) }
    ensures { m.new ≡ stacked n m.old }
{
    count_down(m, SEGMENT_STACK, n - QUEUES, n - 1);
    count_down(m, TASK_STACK, LAST_TASK, LAST_TASK);
}

fn empty_segment(m: &mut [u32], s: u32)
    ensures { m.new ≡ store_all m.old (address (segment s 0)) empty_segment }
{
    memory::set_first(m, s, 0);
    memory::set_count(m, s, 0);
    memory::set_next(m, s, NONE);
}

#[tactic(auto, using(memory::specs::Queues::none_done, memory::specs::Queues::one_more_done, crate::specs::Stores::all_emptied))]
fn segment(m: &mut [u32])
    ensures { m.new ≡ segmented m.old }
{
    for s in 0..QUEUES {
        empty_segment(m, s);
    }
}

// The record of the top task: its state, rights, parent, older, younger and youngest; then its views.
fn top(m: &mut [u32])
    ensures { m.new ≡ topped m.old }
{
    memory::set_words(
        m,
        0,
        STATUS,
        &[UNFINISHED, ALL_RIGHTS, NONE, NONE, NONE, NONE],
    );
    memory::set_words(m, 0, QUEUE_HEADS, &[0, 1, 2, 3]);
    memory::set_words(m, 0, CHILDREN_HEADS, &[NONE; 4]);
    memory::set_words(m, 0, USER_HEADS, &[NL; 4]);
    memory::set_words(m, 0, RIGHT_HEADS, &[NONE; 4]);
    memory::set_words(m, 0, CHILDREN_TAILS, &[NONE; 4]);
    memory::set_words(m, 0, USER_TAILS, &[0, 1, 2, 3]);
    memory::set_words(m, 0, RIGHT_TAILS, &[NONE; 4]);
}

// The words of a new core.
fn write_all(m: &mut [u32], l: u32, n: u32)
    requires { (length m.old ≡ 16384) × (4 ≤ n) × (n ≤ 256) }
    ensures { m.new ≡ opened l n }
{
    memory::clear(m);
    memory::put_all(m, HEADER, &[l, n, n - QUEUES, LAST_TASK]);
    stack(m, n);
    segment(m);
    top(m);
}

// Open, on any words.
pub fn open(m: &mut [u32], l: u32, n: u32) -> Answer
    ensures { outcome result m.new ≡ open_outcome m.old l n }
{
    if m.len() != WORDS {
        return Refusal::LengthWrong.into();
    }
    if !tree_test::in_range(l, n) {
        return Refusal::NumbersWrong.into();
    }
    write_all(m, l, n);
    Answer::Moved(0)
}
