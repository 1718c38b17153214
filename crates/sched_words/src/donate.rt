// Whom a donation signals (thread.rs, processor.rs).
ghost use Rattle.std.specs.Prelude.{◌≡◌};
ghost use Rattle.thread.specs.Reads.{cpu_in};
ghost use Rattle.sched_words.specs.Donate.{wakeup_due, woken_in, maybe_reschedule, donation_signals};

use crate::running::running;
use crate::signal::signal;
use processor::rq::load_queue;
use processor::words::CpuWords;
use thread::Thread;
use thread::priority::Donation;

// The words, the CPU that signals and the wake-ups so far stand apart: the words are read, the CPU stays, the wake-ups are the answer.

// Is CPU c signalled for a thread with this record? If somebody waits there and it advertises more than the thread's priority.
#[tactic(auto, using(thread::proofs::Order::less_derived), unfolding(crate::specs::Donate::wakeup_due))]
pub fn wakeup_due(cpus: &[CpuWords], c: u64, t: Thread) -> bool
    ensures { result ≡ wakeup_due cpus.now c t }
{
    let q = load_queue(cpus, c);
    !q.is_empty() && t.effective_priority() < q.current_priority()
}

#[tactic(auto, unfolding(crate::specs::Donate::woken_in))]
pub fn maybe_wakeup(cpus: &[CpuWords], us: u64, c: u64, t: Thread, wakeups: u64) -> u64
    ensures { result ≡ woken_in cpus.now us c t wakeups }
{
    signal(wakeups, us, c, wakeup_due(cpus, c, t))
}

// The CPU in whose queue the thread was put is signalled, if there is one.
#[tactic(auto, unfolding(crate::specs::Donate::maybe_reschedule))]
pub fn maybe_reschedule_thread(cpus: &[CpuWords], us: u64, t: Thread, wakeups: u64) -> u64
    ensures { result ≡ maybe_reschedule cpus.now us t wakeups (cpu_in t.current_processor_queue) }
{
    match t.current_cpu_rq() {
        Some(c) => maybe_wakeup(cpus, us, c, t, wakeups),
        None => wakeups,
    }
}

// What a donation to thread x signals: nobody if it does not raise the thread, or the thread runs on CPU us itself.
#[tactic(auto, unfolding(crate::specs::Donate::donation_signals))]
pub fn signal_donation(cpus: &[CpuWords], us: u64, x: u64, d: Donation, wakeups: u64) -> u64
    ensures { result ≡ donation_signals cpus.now us x d wakeups }
{
    if d.needs_resched && running(cpus, us) != x {
        maybe_reschedule_thread(cpus, us, d.thread, wakeups)
    } else {
        wakeups
    }
}
