// Segments: the ring of values, the stack of free segments, linking two segments.
#![tactic(auto)]

mod ring;

ghost use Rattle.std.specs.Prelude.{◌≡◌, [], ◌∷◌, ◌+◌, ◌*◌, ◌<◌, ◌≤◌, length, take};
ghost use Rattle.spec_words.specs.Words.{store, size};
ghost use Rattle.spec_words.specs.Blocks.{store_all};
ghost use Rattle.spec_lists.specs.Marks.{marking};
ghost use Rattle.spec_layout.specs.Layout.{segment, value, first, count, next, length_of, Opened, ValuesFit, segments_of, free_height, free_stack};
ghost use Rattle.spec_layout.specs.Layout.{address, read, write, record_of};
ghost use Rattle.spec_words.specs.Found.{found};
ghost use Rattle.spec_tree.specs.Tour.{MARKS, seek};
ghost use Rattle.spec_outcomes.specs.Segments.{value_at, stored_all, dropped, has_none_free, next_free, taken, released};
ghost use Rattle.spec_outcomes.specs.Segments.{head_index, linked_by, renamed, linked};
ghost use Rattle.segments.specs.Runs.{Storable, fitting, store_ring};
ghost use Rattle.segments.specs.Names.{held, free_marks, next_is, head_here};

use layout::{NONE, QUEUE_HEADS, SEGMENT_STACK, SEGMENTS, TASKS, VALUES, VIEW_HEADS};
use segment_record::Record;

// Value number k of segment s.
#[tactic(auto, using(crate::proofs::Values::product_fits, crate::proofs::Values::value_read))]
pub fn value_at(m: &[u32], s: u32, k: u32) -> u32
    ensures { result ≡ value_at m.now s k }
{
    let l = memory::length_of(m, s);
    let p = ring::place(l, memory::first(m, s), k);
    memory::get(m, VALUES + (s as usize * l as usize + p as usize))
}

// The record of segment s.
fn read_record(m: &[u32], s: u32) -> Record
    ensures { (result.first ≡ read m.now (first s)) × (result.count ≡ read m.now (count s))
        × (result.next ≡ read m.now (next s)) }
{
    Record {
        first: memory::first(m, s),
        count: memory::count(m, s),
        next: memory::next(m, s),
    }
}

// Stores the run vs from place p of segment s on, where segments have l places.
#[tactic(auto, using(crate::proofs::Rings::ring_part))]
fn store_from(m: &mut [u32], s: u32, l: u32, p: u32, vs: &[u32])
    requires { (p < l) × (length vs.now ≤ l) × (8192 + (s * l + l) ≤ length m.old) }
    ensures { m.new ≡ store_ring m.old (8192 + s * l) l p vs.now }
{
    let a = VALUES + s as usize * l as usize;
    let b = a + l as usize;
    ring::fill(&mut m[a..b], p as usize, vs);
}

// As many of the values vs behind the others of segment s as fit, and how many that are. Of the record, only the word that
// changed is written back.
pub fn store_run(m: &mut [u32], s: u32, vs: &[u32]) -> usize
    requires { Storable m.old s }
    ensures { (result ≡ fitting m.old s (length vs.now))
        × (m.new ≡ stored_all m.old s (take result vs.now)) }
{
    let n = vs.len();
    let l = memory::length_of(m, s);
    let r = read_record(m, s);
    let room = l - r.count;
    let k = n.min(room as usize);
    let p = ring::place(l, r.first, r.count);
    store_from(m, s, l, p, &vs[0..k]);
    let r = r.with_more(k as u32);
    memory::set_count(m, s, r.count);
    k
}

// The first value of segment s is gone.
#[tactic(auto, unfolding(spec_outcomes::specs::Segments::dropped))]
pub fn drop_one(m: &mut [u32], s: u32)
    requires { 0 < read m.old (count s) }
    ensures { m.new ≡ dropped m.old s }
{
    let r = read_record(m, s);
    let p = ring::place(memory::length_of(m, s), r.first, 1);
    let r = r.with_one_less(p);
    memory::set_first(m, s, r.first);
    memory::set_count(m, s, r.count);
}

#[tactic(auto, unfolding(spec_outcomes::specs::Segments::has_none_free))]
pub fn none_free(m: &[u32], q: u32) -> bool
    ensures { result ≡ has_none_free m.now q }
{
    memory::free_segments(m, q) == 0
}

// The segment that is taken next.
#[tactic(auto, unfolding(spec_outcomes::specs::Segments::next_free))]
pub fn next_free(m: &[u32], q: u32) -> u32
    requires { 0 < free_height m.now q }
    ensures { result ≡ next_free m.now q }
{
    memory::free_segment(m, memory::free_segments(m, q) - 1)
}

// The record of segment s becomes r.
#[tactic(auto, using(crate::proofs::Stack::three_words))]
fn set_record(m: &mut [u32], s: u32, r: Record)
    ensures { m.new ≡ store_all m.old (address (segment s 0)) (r.first ∷ r.count ∷ r.next ∷ []) }
{
    memory::set_first(m, s, r.first);
    memory::set_count(m, s, r.count);
    memory::set_next(m, s, r.next);
}

// Stores v at a place of segment s, where segments have l places. Only the values of s are lent on.
#[tactic(auto, using(crate::proofs::Values::store_part, crate::proofs::Values::store_value))]
fn store_at(m: &mut [u32], s: u32, l: u32, at: u32, v: u32)
    requires { (at < l) × (8192 + (s * l + l) ≤ length m.old) }
    ensures { m.new ≡ write m.old (value (s * l + at)) v }
{
    let a = VALUES + s as usize * l as usize;
    let b = a + l as usize;
    memory::put(&mut m[a..b], at as usize, v);
}

// The next free segment gets v as its only value, and no next.
#[tactic(auto, using(crate::proofs::Stack::take_it, crate::proofs::Values::values_inside, crate::proofs::Stack::below, crate::proofs::Stack::top_of))]
pub fn take(m: &mut [u32], q: u32, v: u32)
    requires { (size m.old ≡ 16384) × (0 < free_height m.old q) × (Opened m.old (next_free m.old q))
        × (0 < length_of m.old (next_free m.old q)) × (ValuesFit m.old) }
    ensures { m.new ≡ taken m.old q v }
{
    let n = memory::free_segments(m, q);
    let s = memory::free_segment(m, n - 1);
    let l = memory::length_of(m, s);
    memory::set_free_segments(m, q, n - 1);
    let one = Record {
        first: 0,
        count: 1,
        next: NONE,
    };
    set_record(m, s, one);
    store_at(m, s, l, 0, v);
}

// Segment s is free, and is the one taken next.
#[tactic(auto, using(crate::proofs::Stack::give_back, crate::proofs::Stack::no_room))]
pub fn release(m: &mut [u32], q: u32, s: u32)
    ensures { m.new ≡ released m.old q s }
{
    let n = memory::free_segments(m, q);
    let cleared = Record {
        first: 0,
        count: 0,
        next: 0,
    };
    set_record(m, s, cleared);
    if SEGMENTS <= n {
        return;
    }
    memory::set_free_segment(m, n, s);
    memory::set_free_segments(m, q, n + 1);
}

// The place of s among the heads of the views of task t. Head by head, as its proof goes (`head_from`).
#[tactic(auto, using(crate::proofs::Links::head_start, crate::proofs::Links::head_next))]
fn head_index(m: &[u32], s: u32, t: u32) -> Option<u32>
    ensures { result ≡ found VIEW_HEADS (head_index m.now s t) }
{
    for i in 0..VIEW_HEADS {
        if memory::task(m, t, QUEUE_HEADS + i) == s {
            return Some(i);
        }
    }
    None
}

#[tactic(auto, unfolding(crate::specs::Names::head_here, spec_words::specs::Found::found, spec_words::specs::Words::both, spec_words::specs::Words::pick))]
fn head_here(m: &[u32], s: u32, x: u32) -> bool
    ensures { result ≡ head_here m.now s x }
{
    x < TASKS && head_index(m, s, x).is_some()
}

// The task with s as the head of a view.
fn head_task(m: &[u32], s: u32) -> Option<u32>
    ensures { result ≡ found MARKS (seek MARKS (head_here m.now s) (record_of m.now) 0) }
{
    walks::seek(m, 0, |x| head_here(m, s, x))
}

// The stack of free segments. What of it is past the end of the memory is left out.
fn free_stack(m: &[u32], q: u32) -> &[u32]
    ensures { result.now ≡ free_stack m.now q }
{
    let from = SEGMENT_STACK.min(m.len());
    let rest = &m[from..];
    let h = rest.len().min(memory::free_segments(m, q) as usize);
    &rest[..h]
}

// Segment y is not on the stack of free segments.
fn held(m: &[u32], q: u32, y: u32) -> bool
    ensures { result ≡ held m.now q y }
{
    !free_stack(m, q).contains(&y)
}

// Marks segment y, where d has a place for it.
#[tactic(auto, using(crate::proofs::Free::out_of_place), unfolding(spec_words::specs::Words::store))]
fn mark(d: &mut [u8], y: u32)
    ensures { d.new ≡ store d.old y 1 }
{
    let i = y as usize;
    if i < d.len() {
        d[i] = 1;
    }
}

// Marks the free segments. The tests of the segments and of the tree mark in their own ways: they take only numbers of segments
// that are opened, or test a record beside each mark.
#[tactic(auto, using(crate::proofs::Free::marks_next, crate::proofs::Free::marks_done))]
fn mark_free(m: &[u32], q: u32, d: &mut [u8])
    ensures { d.new ≡ marking (free_stack m.now q) d.old }
{
    for s in free_stack(m, q) {
        mark(d, *s);
    }
}

// Segment y is held and has s as its next. The free segments below 256 are marked in d. Memory that passes the rules
// has no others, so the stack is not looked through for each segment.
#[tactic(auto, using(crate::proofs::Free::unmarked_held), unfolding(crate::specs::Names::next_is, spec_words::specs::Words::both, spec_words::specs::Words::pick))]
fn next_is(m: &[u32], q: u32, d: &[u8; 256], s: u32, y: u32) -> bool
    requires { d.now ≡ free_marks m.now q }
    ensures { result ≡ next_is m.now q s y }
{
    memory::next(m, y) == s
        && if y < SEGMENTS {
            d[y as usize] == 0
        } else {
            held(m, q, y)
        }
}

// The segment with s as its next.
#[tactic(auto, unfolding(crate::specs::Names::free_marks))]
fn linked_by(m: &[u32], q: u32, s: u32) -> Option<u32>
    ensures { result ≡ found (segments_of m.now q) (linked_by (segments_of m.now q) m.now q s 0) }
{
    let mut d = [0u8; 256];
    mark_free(m, q, &mut d);
    (0..memory::number(m)).find(|&y| next_is(m, q, &d, s, y))
}

// What names segment s names h instead.
fn rename(m: &mut [u32], q: u32, s: u32, h: u32)
    ensures { m.new ≡ renamed m.old q s h }
{
    if let Some(t) = head_task(m, s) {
        if let Some(i) = head_index(m, s, t) {
            memory::set_task(m, t, QUEUE_HEADS + i, h);
        }
        return;
    }
    if let Some(y) = linked_by(m, q, s) {
        memory::set_next(m, y, h);
    }
}

// Segment s gets h as its next. Where s is empty, h takes its place and s is free.
#[tactic(auto, using(crate::proofs::Links::link_full, crate::proofs::Links::link_empty))]
pub fn link(m: &mut [u32], q: u32, s: u32, h: u32)
    ensures { m.new ≡ linked m.old q s h }
{
    let n = memory::count(m, s);
    memory::set_next(m, s, h);
    if n != 0 {
        return;
    }
    rename(m, q, s, h);
    release(m, q, s);
}
