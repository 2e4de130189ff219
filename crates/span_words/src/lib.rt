// THE WORDS OF THE SPAN'S PASS: those of the tasks on the stack, of the queues and of their places. What they hold is free; where the words of
// tasks are asked for, there are as many words as the pass has, so that these are read and written without a test.
#![tactic(auto, unfolding(spec_words::specs::Words::load, spec_words::specs::Words::store, spec_words::specs::Words::pick, spec_line::specs::Later::later, spec_job::specs::Effects::sum, job_effect::specs::Made::found_of, spec_span::specs::Pass::queued, spec_span::specs::Pass::unqueued, spec_span::specs::Pass::filled, spec_span::specs::Pass::front_of, spec_span::specs::Pass::front_time, spec_span::specs::Pass::sharing, spec_span::specs::Pass::older_for, spec_span::specs::Pass::raised, spec_span::specs::Pass::finished_on, spec_span::specs::Pass::child_finished))]

ghost use Rattle.std.specs.Prelude.{◌≡◌, ◌+◌, ◌<◌, ◌≤◌, length};
ghost use Rattle.spec_words.specs.Words.{load, store, pick};
ghost use Rattle.spec_span.specs.Pass.{task_at, queue_at, place_at, SPAN, POPPING};
ghost use Rattle.spec_span.specs.Pass.{queued, unqueued, sharing, older_for, with_child, raised, finished_on, child_finished, pass_opened};
ghost use Rattle.span_words.specs.Words.{task_words, Looks, Holds};

// The words of a task, of a queue and of a place, as in `Pass` of crate `spec_span`.
const PROCEDURE: u32 = 0;

pub const POSITION: u32 = 1;

pub const REGISTER: u32 = 2;

pub const OWN: u32 = 3;

pub const CHILDREN: u32 = 4;

const OLDER: u32 = 5;

const POPPING: usize = 6;

const TAKEN: u32 = 0;

const PUSHED: u32 = 1;

const PUSHERS: u32 = 2;

const VALUE: u32 = 0;

const TIME: u32 = 1;

// The words of a task.
const TASK_WORDS: usize = 10;

// Where the words of the queues and those of their places begin, and the words of a queue's places.
const QUEUES: usize = 1290;

const PLACES: usize = 1302;

const PLACE_WORDS: usize = 131072;

// The task that is to make a step: its depth, and its words, read once; and when the last step was done. That the lent words hold it (`Holds`), and
// that they are SPAN words, stay conditions: the words are written between, and a value that carries them would be lent again at each write.
#[derive(Clone, Copy)]
pub struct Standing {
    pub depth: u32,
    pub procedure: u32,
    pub position: u32,
    pub register: u32,
    pub own: u32,
    pub older: u32,
    pub time: u32,
}

// What a look in a queue finds, and when it can be made.
#[derive(Clone, Copy)]
pub struct Seen {
    pub front: Option<u32>,
    pub time: u32,
}

// THE WORDS. Word k of the task at depth d.
pub fn task(w: &[u32], d: u32, k: u32) -> u32
    requires { (d ≤ 128) × (k < 10) × (length w.now ≡ SPAN) }
    ensures { result ≡ load w.now (task_at d k) }
{
    w[d as usize * TASK_WORDS + k as usize]
}

pub fn set_task(w: &mut [u32], d: u32, k: u32, v: u32)
    requires { (d ≤ 128) × (k < 10) × (length w.old ≡ SPAN) }
    ensures { w.new ≡ store w.old (task_at d k) v }
{
    w[d as usize * TASK_WORDS + k as usize] = v;
}

// The task at depth d, where the last step was done at time t.
pub fn read_task(w: &[u32], d: u32, t: u32) -> Standing
    requires { (d ≤ 128) × (length w.now ≡ SPAN) }
    ensures { Holds w.now result × (result.depth ≡ d) × (result.time ≡ t) }
{
    Standing {
        depth: d,
        procedure: task(w, d, PROCEDURE),
        position: task(w, d, POSITION),
        register: task(w, d, REGISTER),
        own: task(w, d, OWN),
        older: task(w, d, OLDER),
        time: t,
    }
}

// Where the task at depth d has the latest finish of a child that may pop queue q.
fn popping_at(d: u32, q: u32) -> usize
    ensures { result ≡ task_at d (POPPING + q) }
{
    d as usize * TASK_WORDS + (POPPING + q as usize)
}

fn queue_at(q: u32, k: u32) -> usize
    ensures { result ≡ queue_at q k }
{
    QUEUES + q as usize * 3 + k as usize
}

fn queue(w: &[u32], q: u32, k: u32) -> u32
    ensures { result ≡ load w.now (queue_at q k) }
{
    memory::get(w, queue_at(q, k))
}

fn set_queue(w: &mut [u32], q: u32, k: u32, v: u32)
    ensures { w.new ≡ store w.old (queue_at q k) v }
{
    memory::put(w, queue_at(q, k), v);
}

// Word k of place i of queue q.
fn place(w: &[u32], q: u32, i: u32, k: u32) -> u32
    ensures { result ≡ load w.now (place_at q i k) }
{
    memory::get(
        w,
        PLACES + q as usize * PLACE_WORDS + i as usize * 2 + k as usize,
    )
}

fn set_place(w: &mut [u32], q: u32, i: u32, k: u32, v: u32)
    ensures { w.new ≡ store w.old (place_at q i k) v }
{
    memory::put(
        w,
        PLACES + q as usize * PLACE_WORDS + i as usize * 2 + k as usize,
        v,
    );
}

// A look in queue q by the task at depth d, which is held up until `own` by what concerns no queue.
pub fn look(w: &[u32], d: u32, q: u32, own: u32) -> Seen
    ensures { Looks w.now d q own result }
{
    let a = memory::get(w, popping_at(d, q));
    let n = queue(w, q, TAKEN);
    if n < queue(w, q, PUSHED) {
        return Seen {
            front: Some(place(w, q, n, VALUE)),
            time: own.max(a.max(place(w, q, n, TIME))),
        };
    }
    Seen {
        front: None,
        time: own.max(a.max(queue(w, q, PUSHERS))),
    }
}

fn raise(w: &mut [u32], a: usize, t: u32)
    ensures { w.new ≡ raised w.old a t }
{
    memory::put(w, a, memory::get(w, a).max(t));
}

fn raise_if(w: &mut [u32], go: bool, a: usize, t: u32)
    ensures { w.new ≡ pick go (raised w.old a t) w.old }
{
    if go {
        raise(w, a, t);
    }
}

// QUEUES. Value v is pushed to queue q at time t.
pub fn enqueue(w: &mut [u32], q: u32, v: u32, t: u32)
    ensures { w.new ≡ queued w.old q v t }
{
    let n = queue(w, q, PUSHED);
    let p = queue(w, q, PUSHERS);
    set_place(w, q, n, VALUE, v);
    set_place(w, q, n, TIME, t.max(p));
    set_queue(w, q, PUSHED, n.wrapping_add(1));
}

// The first value of queue q is taken, if there is one.
pub fn unqueue(w: &mut [u32], q: u32)
    ensures { w.new ≡ unqueued w.old q }
{
    let n = queue(w, q, TAKEN);
    if n < queue(w, q, PUSHED) {
        set_queue(w, q, TAKEN, n.wrapping_add(1));
    }
}

// TASKS. The ten words of a new task at depth d: its procedure, its register, its spawn and the older siblings' time.
fn put_task(w: &mut [u32], d: u32, p: u32, x: u32, t: u32, older: u32)
    requires { (d ≤ 128) × (length w.old ≡ SPAN) }
    ensures { w.new ≡ task_words w.old d p x t older }
{
    let a = d as usize * TASK_WORDS;
    w[a..a + TASK_WORDS].copy_from_slice(&[p, 0, x, t, 0, older, 0, 0, 0, 0]);
}

// The latest finish of a child of the task at depth d that may pop queue q, where r has that right.
fn sharing(w: &[u32], d: u32, r: u32, q: u32) -> u32
    requires { q < 4 }
    ensures { result ≡ sharing w.now d r q }
{
    if rights::pops(r, q) {
        memory::get(w, popping_at(d, q))
    } else {
        0
    }
}

// The four queues one by one, as in the definition of the same name.
fn older_for(w: &[u32], d: u32, r: u32) -> u32
    ensures { result ≡ older_for w.now d r }
{
    let a = sharing(w, d, r, 0).max(sharing(w, d, r, 1));
    a.max(sharing(w, d, r, 2).max(sharing(w, d, r, 3)))
}

// The task at depth d makes a child, with procedure p, rights r and register x, at time t.
pub fn with_child(w: &mut [u32], d: u32, p: u32, r: u32, x: u32, t: u32) -> Standing
    requires { (d < 128) × (length w.old ≡ SPAN) }
    ensures { (w.new ≡ with_child w.old d p r x t) × Holds w.new result × (result.depth ≡ d + 1) × (result.time ≡ t) }
{
    let older = older_for(w, d, r);
    put_task(w, d + 1, p, x, t, older);
    Standing {
        depth: d + 1,
        procedure: p,
        position: 0,
        register: x,
        own: t,
        older,
        time: t,
    }
}

// A child of the task at depth d, with rights r, has finished at time t: what that says of queue q.
fn finished_on(w: &mut [u32], d: u32, r: u32, t: u32, q: u32)
    requires { q < 4 }
    ensures { w.new ≡ finished_on w.old d r t q }
{
    raise_if(w, rights::pops(r, q), popping_at(d, q), t);
    raise_if(w, rights::pushes(r, q), queue_at(q, PUSHERS), t);
}

// The four queues one by one, as in the definition of the same name.
pub fn child_finished(w: &mut [u32], d: u32, r: u32, t: u32)
    ensures { w.new ≡ child_finished w.old d r t }
{
    raise(w, d as usize * TASK_WORDS + CHILDREN as usize, t);
    finished_on(w, d, r, t, 0);
    finished_on(w, d, r, t, 1);
    finished_on(w, d, r, t, 2);
    finished_on(w, d, r, t, 3);
}

// The top at its first instruction, and no values.
pub fn begin(w: &mut [u32])
    requires { length w.old ≡ SPAN }
    ensures { w.new ≡ pass_opened w.old }
{
    put_task(w, 1, 0, 0, 0, 0);
    w[QUEUES..PLACES].fill(0);
}
