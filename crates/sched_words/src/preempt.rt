// Whether the thread running has to give way, the mark that says so, and what a thread pays at a hard tick.
ghost use Rattle.std.specs.Prelude.{◌≡◌};
ghost use Rattle.processor.specs.Left.{LeavesOne};
ghost use Rattle.processor.specs.Words.{put_word};
ghost use Rattle.processor.specs.Word.{PREEMPT};
ghost use Rattle.thread.specs.Time.{pay_ticks};
ghost use Rattle.sched_words.specs.Preempt.{higher, rq_has_higher, needs_reschedule_def, marked, swapped, allowed_at, idle_payer, idle_paid, expires, rescheds};

use crate::context::Context;
use crate::running::{is_idle, running};
use processor::rq::load_queue;
use processor::words::{CpuWords, IDLE_TIMESLICE, PREEMPT, put_word, word};
use rules::Priority;
use thread::time::Paid;
use thread::{Thread, blank};

// Is what is advertised above this priority; with eq, or equal to it?
#[tactic(auto, using(thread::proofs::Order::at_most_derived, thread::proofs::Order::less_derived), unfolding(crate::specs::Preempt::higher))]
pub fn higher(said: Priority, own: Priority, eq: bool) -> bool
    ensures { result ≡ higher said own eq }
{
    own < said || (eq && own <= said)
}

#[tactic(auto, unfolding(crate::specs::Preempt::rq_has_higher))]
pub fn rq_has_higher(cpus: &[CpuWords], us: u64, t: Thread, eq: bool) -> bool
    ensures { result ≡ rq_has_higher cpus.now us t eq }
{
    let said = load_queue(cpus, us).current_priority();
    higher(said, t.effective_priority(), eq)
}

// Does the thread running, whose record is t, have to give way?
#[tactic(auto, unfolding(crate::specs::Preempt::needs_reschedule_def))]
pub fn needs_reschedule(cpus: &[CpuWords], us: u64, t: Thread, ticking: bool) -> bool
    ensures { result ≡ needs_reschedule_def cpus.now us t ticking }
{
    !t.is_critical() && !load_queue(cpus, us).is_empty() && rq_has_higher(cpus, us, t, ticking)
}

pub fn schedule_mark_preempt(cpus: &mut [CpuWords], us: u64)
    ensures { cpus.new ≡ put_word cpus.old us PREEMPT 1 }
{
    put_word(cpus, us, PREEMPT, 1);
}

// The mark, which is then cleared.
#[tactic(auto, unfolding(crate::specs::Preempt::swapped))]
pub fn swap_preempt(cpus: &mut [CpuWords], us: u64) -> bool
    ensures { LeavesOne (swapped us) result cpus }
{
    let marked = word(cpus, us, PREEMPT) != 0;
    if marked {
        put_word(cpus, us, PREEMPT, 0);
    }
    marked
}

// The timeslice that a thread with this record is allowed on CPU us.
#[tactic(auto, unfolding(crate::specs::Preempt::allowed_at))]
pub fn allowed(cpus: &[CpuWords], k: Context, t: Thread) -> u64
    ensures { result ≡ allowed_at cpus.now k.us k.shortest t }
{
    let class = t.effective_priority().class;
    load_queue(cpus, k.us).timeslice(k.shortest, class)
}

// The thread running pays for the ticks that passed.
pub fn pay(cpus: &[CpuWords], k: Context, t: Thread, ticks: u64) -> Paid
    ensures { result ≡ pay_ticks t ticks (allowed_at cpus.now k.us k.shortest t) }
{
    t.pay_ticks(ticks, allowed(cpus, k, t))
}

// The record of the idle thread with what it has paid.
#[tactic(auto, unfolding(crate::specs::Preempt::idle_payer, thread::specs::Thread::with_timeslice))]
pub fn idle_payer(cpus: &[CpuWords], us: u64) -> Thread
    ensures { result ≡ idle_payer cpus.now us }
{
    Thread {
        timeslice: word(cpus, us, IDLE_TIMESLICE),
        ..blank()
    }
}

// The idle thread pays: does its timeslice expire?
#[tactic(auto, unfolding(crate::specs::Preempt::idle_paid))]
pub fn pay_idle(cpus: &mut [CpuWords], k: Context, ticks: u64) -> bool
    ensures { LeavesOne (idle_paid k.us k.shortest ticks) result cpus }
{
    let t = idle_payer(cpus, k.us);
    let paid = pay(cpus, k, t, ticks);
    put_word(cpus, k.us, IDLE_TIMESLICE, paid.thread.timeslice);
    paid.expired
}

// The mark is set if the thread running has to give way or its timeslice expired.
#[tactic(auto, unfolding(crate::specs::Preempt::expires, crate::specs::Preempt::marked))]
pub fn expire(cpus: &mut [CpuWords], us: u64, resched: bool, expired: bool)
    ensures { cpus.new ≡ expires cpus.old us resched expired }
{
    if resched || expired {
        schedule_mark_preempt(cpus, us);
    }
}

// The mark is set if the CPU is idle or its thread, whose record is t, has to give way.
#[tactic(auto, unfolding(crate::specs::Preempt::rescheds, crate::specs::Preempt::marked))]
pub fn resched(cpus: &mut [CpuWords], us: u64, t: Thread)
    ensures { cpus.new ≡ rescheds cpus.old us t }
{
    if is_idle(running(cpus, us)) || needs_reschedule(cpus, us, t, false) {
        schedule_mark_preempt(cpus, us);
    }
}
