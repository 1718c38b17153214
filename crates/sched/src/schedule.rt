// `switch_to`, `do_schedule` and `schedule`, and the command that schedules a blocked thread.
ghost use Rattle.std.specs.Prelude.{◌≡◌};
ghost use Rattle.processor.specs.Left.{BecomesOne};
ghost use Rattle.records.specs.Left.{Becomes, BecomesOver, Leaves, LeavesOver};
ghost use Rattle.sched.specs.Schedule.{switch_to_def, run_taken_def, idle_unless, run_stolen_def, pick_next_def, must_move_def, reinserted_def, reset_thread_time_def, reinsert_def, do_schedule_def, schedule_def, scheduled, schedule_thread_def};

use processor::words::CpuWords;
use records::memory::Memory;
use records::record::{get, set};
use records::rq::take;
use sched_queues::queues::{block, schedule_thread_on_cpu, try_steal, wake};
use sched_words::choose::{reinsert_at, select_for};
use sched_words::context::{Context, SchedFlags, Scheduled};
use sched_words::preempt::rq_has_higher;
use sched_words::running::{is_idle, must_rebalance, run_idle, run_thread, running};
use sched_words::time::reset_time;
use thread::Thread;

// The lent memory m, the context k and the wake-ups so far stand apart: m alone is changed, k is the same throughout, and the wake-ups are what is answered.
// cur is the thread running as the word of its CPU says it, NONE for the idle thread: past the records, so that its record is read as a blank one, without a test.

// Thread x runs on CPU us.
#[tactic(auto, unfolding(crate::specs::Schedule::switch_to_def))]
pub fn switch_to(m: &mut Memory<'_>, us: u64, x: u64)
    ensures { Becomes (switch_to_def us x) m }
{
    let u = m.thread(x).moving_to_active(us);
    m.set_thread(x, u);
    run_thread(m.cpus, us, x, u);
}

// The own queue handed out thread y: one that takes itself back is not switched to.
#[tactic(auto, unfolding(crate::specs::Schedule::run_taken_def))]
pub fn run_taken(m: &mut Memory<'_>, us: u64, cur: u64, y: u64)
    ensures { Becomes (run_taken_def us cur y) m }
{
    if y != cur {
        switch_to(m, us, y);
    }
}

// A thread was stolen, or the idle thread runs on, or is switched to.
#[tactic(auto, unfolding(crate::specs::Schedule::run_stolen_def))]
pub fn run_stolen(m: &mut Memory<'_>, us: u64, cur: u64, stolen: Option<u64>)
    ensures { Becomes (run_stolen_def us cur stolen) m }
{
    match stolen {
        Some(y) => switch_to(m, us, y),
        None => idle_unless(m.cpus, us, cur),
    }
}

// The idle thread is switched to, if it does not run already.
#[tactic(auto, unfolding(crate::specs::Schedule::idle_unless))]
pub fn idle_unless(cpus: &mut [CpuWords], us: u64, cur: u64)
    ensures { BecomesOne (idle_unless us cur) cpus }
{
    if is_idle(cur) {
        return;
    }
    run_idle(cpus, us);
}

// The next thread of the own queue, else one that is stolen, else the idle thread.
#[tactic(auto, unfolding(crate::specs::Schedule::pick_next_def, crate::specs::Schedule::pick_taken, crate::specs::Schedule::pick_stolen))]
pub fn pick_next(m: &mut Memory<'_>, k: Context, cur: u64)
    ensures { BecomesOver (pick_next_def k cur) m }
{
    match take(m, k.us, false) {
        Some(y) => run_taken(m, k.us, cur, y),
        None => {
            let stolen = try_steal(m, k);
            run_stolen(m, k.us, cur, stolen);
        }
    }
}

// Does the thread running, whose record is t, go back into a queue although it does not yield?
#[tactic(auto, unfolding(crate::specs::Schedule::must_move_def))]
pub fn must_move(cpus: &[CpuWords], us: u64, t: Thread, flags: SchedFlags) -> bool
    ensures { result ≡ must_move_def cpus.now us t flags }
{
    flags.preempt || must_rebalance(cpus, us) || rq_has_higher(cpus, us, t, flags.yields)
}

#[tactic(auto, unfolding(crate::specs::Schedule::reinserted_def))]
pub fn reinserted(m: &mut Memory<'_>, k: Context, chosen: Option<u64>, x: u64, wakeups: u64) -> u64
    ensures { Leaves (reinserted_def k chosen x wakeups) result m }
{
    match chosen {
        Some(c) => schedule_thread_on_cpu(m, k, c, x, wakeups),
        None => wakeups,
    }
}

// The deadline of thread x is set anew on CPU us. Two slices, not a `Memory`: the type of `cpus` says that they stay.
#[tactic(auto, unfolding(crate::specs::Schedule::reset_thread_time_def))]
pub fn reset_thread_time(threads: &mut [Thread], cpus: &[CpuWords], k: Context, x: u64)
    ensures { BecomesOne (reset_thread_time_def k x cpus.now) threads }
{
    let t = reset_time(cpus, k, k.us, get(threads, x));
    set(threads, x, t);
}

// The thread running, cur, goes back into a queue, and the next is picked; or it runs on with its deadline set anew.
#[tactic(auto, unfolding(crate::specs::Schedule::reinsert_def, crate::specs::Schedule::then_next_def, crate::specs::Schedule::reset_thread_time_def))]
pub fn reinsert(m: &mut Memory<'_>, k: Context, cur: u64, flags: SchedFlags, wakeups: u64) -> u64
    ensures { LeavesOver (reinsert_def k cur flags wakeups) result m }
{
    let t = m.thread(cur);
    let w = if must_move(m.cpus(), k.us, t, flags) {
        let chosen = reinsert_at(m.cpus, m.nodes, k, t);
        reinserted(m, k, chosen, cur, wakeups)
    } else if flags.yields {
        schedule_thread_on_cpu(m, k, k.us, cur, wakeups)
    } else {
        // Not `m.cpus()`, which would lend the whole of `m` beside its threads.
        let cpus = &mut *m.cpus;
        reset_thread_time(m.threads, cpus, k, cur);
        return wakeups;
    };
    pick_next(m, k, cur);
    w
}

// Without reinsert the thread running is blocked, the idle thread never.
#[tactic(auto, unfolding(crate::specs::Schedule::do_schedule_def))]
pub fn do_schedule(m: &mut Memory<'_>, k: Context, flags: SchedFlags, wakeups: u64) -> u64
    ensures { LeavesOver (do_schedule_def k flags wakeups) result m }
{
    let cur = running(m.cpus(), k.us);
    if !is_idle(cur) {
        if flags.reinsert {
            return reinsert(m, k, cur, flags, wakeups);
        }
        block(m.threads, cur);
    }
    pick_next(m, k, cur);
    wakeups
}

// With a critical thread running it changes nothing.
#[tactic(auto, unfolding(crate::specs::Schedule::schedule_def))]
pub fn schedule(m: &mut Memory<'_>, k: Context, flags: SchedFlags, wakeups: u64) -> u64
    ensures { LeavesOver (schedule_def k flags wakeups) result m }
{
    let t = m.thread(running(m.cpus(), k.us));
    if t.is_critical() {
        wakeups
    } else {
        do_schedule(m, k, flags, wakeups)
    }
}

// A blocked thread goes into the queue of the CPU selected for it.
#[tactic(auto, unfolding(crate::specs::Schedule::schedule_thread_def, crate::specs::Schedule::scheduled_on_def))]
pub fn schedule_thread(m: &mut Memory<'_>, k: Context, x: u64) -> Scheduled
    ensures { LeavesOver (schedule_thread_def k x) result m }
{
    let t = m.thread(x);
    match select_for(m.cpus, m.nodes, k, t, None) {
        Some(cpu) => Scheduled {
            cpu,
            wakeups: wake(m, k, cpu, x, 0),
        },
        None => Scheduled {
            cpu: k.us,
            wakeups: 0,
        },
    }
}
