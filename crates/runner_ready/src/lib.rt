// THE READY MAP: which tasks' next steps would move, how many, and the lowest of them. One job test, one test of the
// memory's rules and one walk along all siblings; no memory is copied, and none but the map is written.
#![tactic(auto, unfolding(spec_words::specs::Words::both, spec_words::specs::Words::pick, spec_words::specs::Words::size, spec_words::specs::Words::load, spec_words::specs::Words::store, spec_lists::specs::Counting::one, spec_lists::specs::Counting::over, spec_job::specs::Operations::operation_at, spec_job::specs::Operations::operation_of, spec_job::specs::Operations::row_of, spec_runner::specs::Ready::lowest_from, spec_runner::specs::Moves::instruction_moves, spec_runner::specs::Moves::step_moves, spec_outcomes::specs::Waits::unfinished))]

ghost use Rattle.std.specs.Prelude.{◌≡◌, [], ◌∷◌, ◌+◌, ◌*◌, ◌^◌, ◌<◌, ◌≤◌, length};
ghost use Rattle.std.specs.Int.Count.{ones};
ghost use Rattle.spec_lists.specs.Counting.{one, over};
ghost use Rattle.spec_layout.specs.Layout.{NONE};
ghost use Rattle.spec_job.specs.Operations.{operation_at};
ghost use Rattle.spec_runner.specs.Ready.{bits_from, words_for, lowest_from, map_of, ready_outcome};
ghost use Rattle.spec_runner.specs.Ready.Mapped.{mapped};
ghost use Rattle.spec_runner.specs.Moves.{instruction_moves, step_moves};
ghost use Rattle.core_blocked.specs.Told.{Tell};

use layout::{NONE, WORDS};
use operations::Operation;
use refusals::Refusal;
use spec_job::Instruction;
use spec_runner::StepAnswer;

// Instruction s of task t, which is unfinished and not blocked, would move.
fn decides(job: &[u8], m: &[u32], t: u32, s: Instruction) -> bool
    requires { (length m.now ≡ 16384) × (t < 128) }
    ensures { result ≡ instruction_moves (operation_at s.operation) job.now m.now t s }
{
    let q = s.which;
    match Operation::from(s.operation) {
        Operation::Return => core_would_move::finish_moves(m, t),
        Operation::Push | Operation::PushSum => core_would_move::push_moves(m, t, q),
        Operation::Pop | Operation::GoIfEmpty | Operation::TakeOrGo => core_would_move::take_moves(
            m, t, q,
        ),
        Operation::Go | Operation::GoIfZero | Operation::Add => true,
        Operation::Spawn => core_would_move::spawn_moves(m, t, job_fields::rights(job, q)),
        Operation::Sync => core_would_move::sync_moves(m, t),
    }
}

// The same; the part of m that is lent is the whole, with a length that is known where it is read.
pub fn instruction_moves(job: &[u8], m: &[u32], t: u32, s: Instruction) -> bool
    requires { (length m.now ≡ 16384) × (t < 128) }
    ensures { result ≡ instruction_moves (operation_at s.operation) job.now m.now t s }
{
    decides(job, &m[0..WORDS], t, s)
}

// The next step of task t would move. The words a tell which tasks are blocked.
fn step_moves(job: &[u8], m: &[u32], r: &[u32], a: &[u32; 128], t: u32) -> bool
    requires { (length m.now ≡ 16384) × Tell m.now a.now }
    ensures { result ≡ step_moves job.now m.now r.now t }
{
    walks::unfinished(m, t)
        && !rights::shares_pop(a[t as usize], memory::rights(m, t))
        && instruction_moves(job, m, t, runner_words::instruction_for(job, r, t))
}

// The word w, whose bits from k on are not set, with bit k set where b holds.
fn with_bit(w: u32, k: u32, b: bool) -> u32
    requires { (w < 2 ^ k) × (k < 32) }
    ensures { result ≡ w + one b * 2 ^ k }
{
    if b { w | 1 << k } else { w }
}

// The bits of the 32 tasks from i on. The part of m that is lent is the whole, with a length that is known where it is read.
fn word_from(job: &[u8], m: &[u32], r: &[u32], a: &[u32; 128], i: u32) -> u32
    requires { (length m.now ≡ 16384) × Tell m.now a.now × (i ≤ 96) }
    ensures { result ≡ bits_from (step_moves job.now m.now r.now) 32 i }
{
    let words = &m[0..WORDS];
    let mut w = 0;
    for k in 0..32 {
        w = with_bit(w, k, step_moves(job, words, r, a, i + k));
    }
    w
}

// The number of set bits. The four words stay apart here and in `lowest`: the sum and the first that is not zero are said of each.
fn count(w0: u32, w1: u32, w2: u32, w3: u32) -> u32
    ensures { result ≡ over (w0 ∷ w1 ∷ w2 ∷ w3 ∷ []) ones }
{
    w0.count_ones() + w1.count_ones() + w2.count_ones() + w3.count_ones()
}

// The lowest set bit of the four words, or NONE, which is no Option since hosts read it as a word of the map.
fn lowest(w0: u32, w1: u32, w2: u32, w3: u32) -> u32
    ensures { result ≡ lowest_from 0 (w0 ∷ w1 ∷ w2 ∷ w3 ∷ []) }
{
    if w0 != 0 {
        return w0.trailing_zeros();
    }
    if w1 != 0 {
        return 32 + w1.trailing_zeros();
    }
    if w2 != 0 {
        return 64 + w2.trailing_zeros();
    }
    if w3 != 0 {
        return 96 + w3.trailing_zeros();
    }
    NONE
}

// The map of memories that pass the tests: four words of bits, how many are set, and the lowest task.
fn map(job: &[u8], m: &[u32], r: &[u32], a: &[u32; 128]) -> [u32; 6]
    requires { (length m.now ≡ 16384) × Tell m.now a.now }
    ensures { result ≡ map_of (words_for (step_moves job.now m.now r.now)) }
{
    let w0 = word_from(job, m, r, a, 0);
    let w1 = word_from(job, m, r, a, 32);
    let w2 = word_from(job, m, r, a, 64);
    let w3 = word_from(job, m, r, a, 96);
    [
        w0,
        w1,
        w2,
        w3,
        count(w0, w1, w2, w3),
        lowest(w0, w1, w2, w3),
    ]
}

// The map without a ready task.
const NO_MAP: [u32; 6] = [0, 0, 0, 0, 0, NONE];

// The map of any words. Where it is refused it has no ready task; words lent for it that are not six stay as they are.
pub fn ready(job: &[u8], m: &[u32], r: &[u32], out: &mut [u32]) -> StepAnswer
    ensures { mapped result out.new ≡ ready_outcome job.now m.now r.now out.old }
{
    if out.len() != 6 {
        return StepAnswer::Refused(Refusal::LengthWrong.number());
    }
    if let Err(e) = runner_words::check_rules(job, m, r) {
        out.copy_from_slice(&NO_MAP);
        return StepAnswer::Refused(e.number());
    }
    let mut a = [0u32; 128];
    core_blocked::blocked_all(m, &mut a);
    out.copy_from_slice(&map(job, m, r, &a));
    StepAnswer::Moved
}
