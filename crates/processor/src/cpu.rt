// What is read of a CPU (processor.rs).
ghost use Rattle.std.specs.Prelude.{◌≡◌};
ghost use Rattle.processor.specs.Cpu.{current_load, current_priority};

use crate::words::{CURRENT_PRIORITY, CpuWords, IS_IDLE, LOAD, OWN_PRIORITY, word};
use rules::Priority;
use thread::priority::from_raw;

// The queue load plus 1 unless idle.
#[tactic(auto, unfolding(crate::specs::Cpu::current_load))]
pub fn current_load(cpus: &[CpuWords], c: u64) -> u64
    ensures { result ≡ current_load cpus.now c }
{
    let load = word(cpus, c, LOAD);
    if word(cpus, c, IS_IDLE) == 0 {
        load.wrapping_add(1)
    } else {
        load
    }
}

// The greater of what its queue advertises and what it runs at.
#[tactic(auto, using(thread::proofs::Order::max_derived), unfolding(crate::specs::Cpu::current_priority))]
pub fn current_priority(cpus: &[CpuWords], c: u64) -> Priority
    ensures { result ≡ current_priority cpus.now c }
{
    let said = from_raw(word(cpus, c, CURRENT_PRIORITY));
    let own = from_raw(word(cpus, c, OWN_PRIORITY));
    said.max(own)
}
