// When the boot CPU balances.
ghost use Rattle.processor.specs.Left.{LeavesOne};
ghost use Rattle.sched_words.specs.Rebalance.{time_passed, rebalance_due};

use processor::random::quick_random;
use processor::words::{CUR_REBALANCE_TIME, CpuWords, put_word, word};

pub const REBALANCE_TIME: u64 = 1000000000;

// The time until CPU us balances passes by dt: is it over? Then it is drawn anew.
#[tactic(auto, unfolding(crate::specs::Rebalance::time_passed, processor::specs::Random::quick_random_def))]
pub fn pass_time(cpus: &mut [CpuWords], us: u64, dt: u64) -> bool
    ensures { LeavesOne (time_passed us dt) result cpus }
{
    let left = word(cpus, us, CUR_REBALANCE_TIME);
    if left < dt {
        let drawn = quick_random(cpus, us);
        put_word(
            cpus,
            us,
            CUR_REBALANCE_TIME,
            REBALANCE_TIME / 2 + drawn % REBALANCE_TIME,
        );
        true
    } else {
        put_word(cpus, us, CUR_REBALANCE_TIME, left - dt);
        false
    }
}

// Only the boot CPU balances.
#[tactic(auto, unfolding(crate::specs::Rebalance::rebalance_due))]
pub fn rebalance_due(cpus: &mut [CpuWords], us: u64, dt: u64) -> bool
    ensures { LeavesOne (rebalance_due us dt) result cpus }
{
    us == 0 && pass_time(cpus, us, dt)
}
