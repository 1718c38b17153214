// The draw (`quick_random`, utils.rs): 32 bits of state to a CPU.
ghost use Rattle.std.specs.Prelude.{◌≡◌};
ghost use Rattle.rules.specs.Draw.{seed, next_state, draw};
ghost use Rattle.processor.specs.Left.{LeavesOne};
ghost use Rattle.processor.specs.Random.{quick_random_def};

use crate::words::{CpuWords, RAND_STATE, put_word, word};

// A state of 0 is replaced by the CPU number.
#[tactic(auto, unfolding(rules::specs::Draw::seed))]
fn seed(cpu: u64, state: u64) -> u64
    ensures { result ≡ seed cpu state }
{
    if state == 0 { cpu } else { state }
}

// The state after one draw of this CPU.
#[tactic(auto, using(crate::specs::Random::low_product), unfolding(rules::specs::Draw::next_state))]
pub fn next_state(cpu: u64, state: u64) -> u64
    ensures { result ≡ next_state cpu state }
{
    let low = (seed(cpu, state) % 0x1_0000_0000) as u32;
    low.wrapping_mul(69069).wrapping_add(5) as u64
}

// What a state draws.
#[tactic(auto, unfolding(rules::specs::Draw::draw))]
pub fn draw(state: u64) -> u64
    ensures { result ≡ draw state }
{
    state / 65536
}

// One draw of CPU c.
#[tactic(auto, unfolding(crate::specs::Random::quick_random_def))]
pub fn quick_random(cpus: &mut [CpuWords], c: u64) -> u64
    ensures { LeavesOne (quick_random_def c) result cpus }
{
    let state = next_state(c, word(cpus, c, RAND_STATE));
    put_word(cpus, c, RAND_STATE, state);
    draw(state)
}
