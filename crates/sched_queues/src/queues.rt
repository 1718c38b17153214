// Threads go into queues and come out of them.
ghost use Rattle.processor.specs.Left.{BecomesOne};
ghost use Rattle.records.specs.Left.{Leaves, LeavesOver};
ghost use Rattle.sched_queues.specs.Queues.{schedule_thread_on_cpu_def, wake_def, block_def, take_from, try_steal_def};

use records::memory::Memory;
use records::record::{get, set};
use records::rq::{insert, take};
use sched_words::choose::steal_from;
use sched_words::context::Context;
use sched_words::signal::signal;
use sched_words::time::{moved_to, should_signal};
use thread::Thread;
use thread::place::Place;

// The lent memory m, the context k and the wake-ups so far stand apart: m alone is changed, k is the same throughout, and the wake-ups are what is answered.

// Thread x goes into the queue of CPU c.
#[tactic(auto, unfolding(crate::specs::Queues::schedule_thread_on_cpu_def, crate::specs::Queues::moved_in))]
pub fn schedule_thread_on_cpu(m: &mut Memory<'_>, k: Context, c: u64, x: u64, wakeups: u64) -> u64
    ensures { Leaves (schedule_thread_on_cpu_def k c x wakeups) result m }
{
    let t = m.thread(x);
    let due = should_signal(m.cpus(), k.us, c, t);
    let moved = moved_to(m.cpus(), k, c, t);
    m.set_thread(x, moved);
    insert(m, c, x, k.tick, false);
    signal(wakeups, k.us, c, due)
}

// A blocked thread goes into the queue of CPU c. A name of its own, which the laws cite: it and `block` alone change the place of a declared thread from or to
// blocked.
#[tactic(auto, unfolding(crate::specs::Queues::wake_def))]
pub fn wake(m: &mut Memory<'_>, k: Context, c: u64, x: u64, wakeups: u64) -> u64
    ensures { Leaves (wake_def k c x wakeups) result m }
{
    schedule_thread_on_cpu(m, k, c, x, wakeups)
}

// The thread running is blocked.
#[tactic(auto, unfolding(crate::specs::Queues::block_def))]
pub fn block(threads: &mut [Thread], x: u64)
    ensures { BecomesOne (block_def x) threads }
{
    let t = get(threads, x);
    set(threads, x, t.with_place(Place::Blocked));
}

// A thread is asked of the queue of CPU c, for CPU d.
#[tactic(auto, unfolding(crate::specs::Queues::take_from, crate::specs::Queues::moved_for_def))]
pub fn take_a_thread_from_cpu(m: &mut Memory<'_>, c: u64, d: u64) -> Option<u64>
    ensures { Leaves (take_from c d) result m }
{
    let x = take(m, c, d != c)?;
    let t = m.thread(x);
    m.set_thread(x, t.moving_to_queue(d));
    Some(x)
}

#[tactic(auto, unfolding(crate::specs::Queues::try_steal_def))]
pub fn try_steal(m: &mut Memory<'_>, k: Context) -> Option<u64>
    ensures { LeavesOver (try_steal_def k) result m }
{
    let c = steal_from(m.cpus(), m.nodes, k)?;
    take_a_thread_from_cpu(m, c, k.us)
}
