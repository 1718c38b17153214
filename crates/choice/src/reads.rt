// What the choice reads of a CPU, and the score.
ghost use Rattle.std.specs.Prelude.{◌≡◌, ◌%◌, ◌^◌};
ghost use Rattle.rules.specs.Choice as choice;
ghost use Rattle.rules.specs.Draw.{draw};
ghost use Rattle.choice.specs.Reads.{skips_at, movable_at, queue_load_at};

use processor::cpu::current_priority;
use processor::random::draw;
use processor::words::{CpuWords, LOAD, MOVABLE, word};
use rules::Priority;

// 256 times the load, modulo 2^64, less the draw modulo 128, not below 0. The product of the last 56 bits is the wrapping one.
#[tactic(auto, unfolding(rules::specs::Choice::score))]
pub fn score(load: u64, state: u64) -> u64
    ensures { result ≡ choice.score (load % 2 ^ 56) (draw state) }
{
    let whole = load % (1 << 56) * 256;
    whole.saturating_sub(draw(state) % 128)
}

// Is the CPU skipped in a search for a thread of this priority, if one is given?
#[tactic(auto, using(thread::proofs::Order::less_derived), unfolding(crate::specs::Reads::skips_at))]
pub fn skips(cpus: &[CpuWords], pri: Option<Priority>, c: u64) -> bool
    ensures { result ≡ skips_at cpus.now pri c }
{
    pri.is_some_and(|p| p < current_priority(cpus, c))
}

// How many wait in the queue of CPU c.
#[tactic(auto, unfolding(crate::specs::Reads::queue_load_at))]
pub fn queue_load(cpus: &[CpuWords], c: u64) -> u64
    ensures { result ≡ queue_load_at cpus.now c }
{
    word(cpus, c, LOAD)
}

// How many of them are not pinned.
#[tactic(auto, unfolding(crate::specs::Reads::movable_at))]
pub fn movable(cpus: &[CpuWords], c: u64) -> u64
    ensures { result ≡ movable_at cpus.now c }
{
    word(cpus, c, MOVABLE)
}
