// Donation, and the mark that a thread is critical.
ghost use Rattle.processor.specs.Left.{BecomesOne, LeavesOne};
ghost use Rattle.sched_queues.specs.Donate.{donate_priority_def, remove_donated, set_critical_def};

use processor::words::CpuWords;
use records::record::{get, set};
use rules::Priority;
use sched_words::donate::signal_donation;
use thread::Thread;

// Two slices, not a `Memory`: the type of `cpus` says that they stay.
#[tactic(auto, unfolding(crate::specs::Donate::donate_priority_def))]
pub fn donate_priority(
    threads: &mut [Thread],
    cpus: &[CpuWords],
    us: u64,
    x: u64,
    pri: Priority,
    wakeups: u64,
) -> u64
    ensures { LeavesOne (donate_priority_def us x pri wakeups cpus.now) result threads }
{
    let d = get(threads, x).donate_priority(pri);
    set(threads, x, d.thread);
    signal_donation(cpus, us, x, d, wakeups)
}

#[tactic(auto, unfolding(crate::specs::Donate::remove_donated))]
pub fn remove_donated_priority(threads: &mut [Thread], x: u64)
    ensures { BecomesOne (remove_donated x) threads }
{
    let t = get(threads, x);
    set(threads, x, t.remove_donated_priority());
}

#[tactic(auto, unfolding(crate::specs::Donate::set_critical_def))]
pub fn set_critical(threads: &mut [Thread], x: u64, mark: u64)
    ensures { BecomesOne (set_critical_def x mark) threads }
{
    let t = get(threads, x);
    set(threads, x, t.set_critical(mark));
}
