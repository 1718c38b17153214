// The preemption mark obeyed.
ghost use Rattle.std.specs.Prelude.{◌≡◌};
ghost use Rattle.records.specs.Left.{LeavesOver};
ghost use Rattle.sched.specs.Preempt.{preempting, schedule_maybe_preempt_def};

use crate::schedule::schedule;
use records::memory::Memory;
use sched_words::context::{Context, SchedFlags};
use sched_words::preempt::swap_preempt;

// The flags of a preemption.
pub fn preempting() -> SchedFlags
    ensures { result ≡ preempting }
{
    SchedFlags {
        yields: false,
        preempt: true,
        reinsert: true,
    }
}

// A mark is cleared, and obeyed. m, k and the wake-ups stand apart, as in `schedule`.
#[tactic(auto, unfolding(crate::specs::Preempt::schedule_maybe_preempt_def))]
pub fn schedule_maybe_preempt(m: &mut Memory<'_>, k: Context, wakeups: u64) -> u64
    ensures { LeavesOver (schedule_maybe_preempt_def k wakeups) result m }
{
    if swap_preempt(m.cpus, k.us) {
        schedule(m, k, preempting(), wakeups)
    } else {
        wakeups
    }
}
