// `balance` and the stat tick.
ghost use Rattle.std.specs.Prelude.{◌≡◌, not};
ghost use Rattle.records.specs.Left.{Leaves, LeavesOver};
ghost use Rattle.sched_ticks.specs.Balance.{move_one_def, balance_def, maybe_rebalance_def, schedule_stattick_def};

use records::memory::Memory;
use records::rq::clock;
use sched_queues::queues::{schedule_thread_on_cpu, take_a_thread_from_cpu};
use sched_words::balance::{Balancing, find_move};
use sched_words::context::Context;
use sched_words::rebalance::rebalance_due;

// m, k and the wake-ups stand apart, as in `sched_queues`.

// The move that the choices came to, if any.
#[tactic(auto, unfolding(crate::specs::Balance::move_made, crate::specs::Balance::received))]
pub fn move_one(m: &mut Memory<'_>, k: Context, b: Balancing, wakeups: u64) -> u64
    ensures { Leaves (move_one_def k b wakeups) result m }
{
    let Some(pair) = b.moves else {
        return wakeups;
    };
    match take_a_thread_from_cpu(m, pair.donor, pair.recipient) {
        Some(x) => schedule_thread_on_cpu(m, k, pair.recipient, x, wakeups),
        None => wakeups,
    }
}

// A move costs its choice and ten more steps, eleven of twenty, so at most two threads move.
#[tactic(auto, unfolding(crate::specs::Balance::balance_def, crate::specs::Balance::move_two))]
pub fn balance(m: &mut Memory<'_>, k: Context, wakeups: u64) -> u64
    ensures { LeavesOver (balance_def k wakeups) result m }
{
    let first = find_move(m.cpus, m.nodes, k, Balancing::begun());
    let w = move_one(m, k, first, wakeups);
    let second = find_move(m.cpus, m.nodes, k, first);
    move_one(m, k, second, w)
}

#[tactic(auto, unfolding(crate::specs::Balance::maybe_rebalance_def))]
pub fn schedule_maybe_rebalance(m: &mut Memory<'_>, k: Context, dt: u64, wakeups: u64) -> u64
    ensures { LeavesOver (maybe_rebalance_def k dt wakeups) result m }
{
    if rebalance_due(m.cpus, k.us, dt) {
        balance(m, k, wakeups)
    } else {
        wakeups
    }
}

#[tactic(auto, unfolding(crate::specs::Balance::schedule_stattick_def, crate::specs::Balance::clocked))]
pub fn schedule_stattick(m: &mut Memory<'_>, k: Context, dt: u64, wakeups: u64) -> u64
    ensures { LeavesOver (schedule_stattick_def k dt wakeups) result m }
{
    let w = schedule_maybe_rebalance(m, k, dt, wakeups);
    clock(m.cpus, k.us);
    w
}
