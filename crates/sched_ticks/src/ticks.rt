// Hard ticks, and the preemption mark set.
ghost use Rattle.std.specs.Prelude.{◌≡◌};
ghost use Rattle.processor.specs.Left.{BecomesOne};
ghost use Rattle.records.specs.Left.{Becomes};
ghost use Rattle.sched_ticks.specs.Ticks.{schedule_hardtick_def, schedule_resched_def};

use processor::words::CpuWords;
use records::memory::Memory;
use records::record::get;
use records::rq::hardtick;
use sched_words::context::Context;
use sched_words::preempt::{expire, needs_reschedule, pay, pay_idle, resched};
use sched_words::running::{is_idle, running};
use thread::Thread;

// The thread running pays for the ticks since the last hard tick.
#[tactic(auto, unfolding(crate::specs::Ticks::schedule_hardtick_def, crate::specs::Ticks::paid_by_def))]
pub fn schedule_hardtick(m: &mut Memory<'_>, k: Context)
    ensures { Becomes (schedule_hardtick_def k) m }
{
    let cur = running(m.cpus(), k.us);
    let t = m.thread(cur);
    let resched = needs_reschedule(m.cpus(), k.us, t, true);
    let ticks = hardtick(m.cpus, k.us, k.tick);
    let expired = if is_idle(cur) {
        pay_idle(m.cpus, k, ticks)
    } else {
        let paid = pay(m.cpus(), k, t, ticks);
        m.set_thread(cur, paid.thread);
        paid.expired
    };
    expire(m.cpus, k.us, resched, expired);
}

// Two slices, not a `Memory`: the type of `threads` says that they stay.
#[tactic(auto, unfolding(crate::specs::Ticks::schedule_resched_def))]
pub fn schedule_resched(threads: &[Thread], cpus: &mut [CpuWords], us: u64)
    ensures { BecomesOne (schedule_resched_def us threads.now) cpus }
{
    let t = get(threads, running(cpus, us));
    resched(cpus, us, t);
}
