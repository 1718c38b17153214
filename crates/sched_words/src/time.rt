// The times of a thread that goes into a queue, and whether its CPU is signalled.
ghost use Rattle.std.specs.Prelude.{◌≡◌};
ghost use Rattle.sched_words.specs.Time.{deadline_at, reset_time_def, moved_to, should_signal_def};

use crate::context::Context;
use processor::rq::load_queue;
use processor::words::CpuWords;
use rules::PriorityClass;
use thread::Thread;

// The deadline of a thread of this class that goes into the queue of CPU c.
#[tactic(auto, unfolding(crate::specs::Time::deadline_at, queue::specs::Num::sum))]
pub fn deadline(cpus: &[CpuWords], k: Context, c: u64, class: PriorityClass) -> u64
    ensures { result ≡ deadline_at cpus.now c k.tick k.shortest class }
{
    let distance = load_queue(cpus, c).deadline(k.shortest, class);
    k.tick.wrapping_add(distance)
}

// The deadline is set anew, and nothing is paid of the timeslice.
#[tactic(auto, unfolding(crate::specs::Time::reset_time_def))]
pub fn reset_time(cpus: &[CpuWords], k: Context, c: u64, t: Thread) -> Thread
    ensures { result ≡ reset_time_def cpus.now c k.tick k.shortest t }
{
    let class = t.effective_priority().class;
    t.set_deadline(deadline(cpus, k, c, class))
        .reset_timeslice()
}

// The record of a thread that is about to go into the queue of CPU c.
#[tactic(auto, unfolding(crate::specs::Time::moved_to))]
pub fn moved_to(cpus: &[CpuWords], k: Context, c: u64, t: Thread) -> Thread
    ensures { result ≡ moved_to cpus.now c k.tick k.shortest t }
{
    reset_time(cpus, k, c, t.moving_to_queue(c))
}

// Is CPU c signalled when CPU us puts the thread into its queue?
#[tactic(auto, using(thread::proofs::Order::at_most_derived), unfolding(crate::specs::Time::should_signal_def))]
pub fn should_signal(cpus: &[CpuWords], us: u64, c: u64, t: Thread) -> bool
    ensures { result ≡ should_signal_def cpus.now us c t }
{
    if c == us {
        return false;
    }
    let q = load_queue(cpus, c);
    q.is_empty() || q.current_priority() <= t.effective_priority()
}
