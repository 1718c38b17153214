// What a thread keeps of processors and times (thread/time.rs). The three processor fields are signed, and below zero means none.
ghost use Rattle.std.specs.Prelude.{◌≡◌, ◌+◌, leb};
ghost use Rattle.thread.specs.Reads.{cpu_in};
ghost use Rattle.thread.specs.Time.{field_of, preferred_of, preferred_last, preferred_cpu, narrow_sum, pay_ticks, pin_cpu, reset_timeslice, moving_to_queue, moving_to_active, set_deadline};

use crate::Thread;

// The CPU that a thread prefers: the one it is pinned to, else the one last used.
#[derive(Clone, Copy)]
pub enum Preferred {
    Pinned(u64),
    Last(u64),
}

// A thread that has paid, and whether its timeslice expired. No `Option`: the record goes back into memory in both cases.
#[derive(Clone, Copy)]
pub struct Paid {
    pub thread: Thread,
    pub expired: bool,
}

// The CPU that a field names. A function, and so is its inverse: `From` and `TryFrom` of an i32 are std's.
#[tactic(auto, unfolding(crate::specs::Reads::cpu_in))]
pub fn cpu_in(field: i32) -> Option<u64>
    ensures { result ≡ cpu_in field }
{
    u64::try_from(field).ok()
}

// The field for a CPU number; a number past the largest of an i32 is none.
#[tactic(auto, unfolding(crate::specs::Time::field_of))]
pub fn field_of(cpu: u64) -> i32
    ensures { result ≡ field_of cpu }
{
    i32::try_from(cpu).unwrap_or(-1)
}

// Do the ticks paid reach what is allowed?
pub fn reaches(paid: u64, ticks: u64, allowed: u64) -> bool
    ensures { result ≡ leb allowed (paid + ticks) }
{
    allowed.saturating_sub(ticks) <= paid
}

// The ticks paid, in 32 bits.
#[tactic(auto, unfolding(crate::specs::Time::narrow_sum))]
pub fn narrow_sum(paid: u64, ticks: u64) -> u64
    ensures { result ≡ narrow_sum paid ticks }
{
    paid.wrapping_add(ticks) % 0x1_0000_0000
}

// The pin, where there is one, is preferred.
#[tactic(auto, unfolding(crate::specs::Time::preferred_of, crate::specs::Time::preferred_last))]
pub fn pin_or_last(pinned: Option<u64>, last: Option<u64>) -> Option<Preferred>
    ensures { result ≡ preferred_of pinned last }
{
    pinned.map(Preferred::Pinned).or(last.map(Preferred::Last))
}

impl Thread {
    #[tactic(auto, unfolding(crate::specs::Time::pin_cpu, crate::specs::Thread::with_pinned))]
    pub fn pin_cpu(mut self, cpu: u64) -> Thread
        ensures { result ≡ pin_cpu self cpu }
    {
        self.pinned_cpu = field_of(cpu);
        self
    }

    pub fn pinned_to(self) -> Option<u64>
        ensures { result ≡ cpu_in self.pinned_cpu }
    {
        cpu_in(self.pinned_cpu)
    }

    #[tactic(auto, unfolding(crate::specs::Time::pay_ticks, crate::specs::Thread::with_timeslice))]
    pub fn pay_ticks(mut self, ticks: u64, allowed: u64) -> Paid
        ensures { result ≡ pay_ticks self ticks allowed }
    {
        let expired = reaches(self.timeslice, ticks, allowed);
        self.timeslice = if expired {
            0
        } else {
            narrow_sum(self.timeslice, ticks)
        };
        Paid {
            thread: self,
            expired,
        }
    }

    #[tactic(auto, unfolding(crate::specs::Time::reset_timeslice, crate::specs::Thread::with_timeslice))]
    pub fn reset_timeslice(mut self) -> Thread
        ensures { result ≡ reset_timeslice self }
    {
        self.timeslice = 0;
        self
    }

    #[tactic(auto, unfolding(crate::specs::Time::moving_to_queue, crate::specs::Thread::with_queue))]
    pub fn moving_to_queue(mut self, cpu: u64) -> Thread
        ensures { result ≡ moving_to_queue self cpu }
    {
        self.current_processor_queue = field_of(cpu);
        self
    }

    #[tactic(auto, unfolding(crate::specs::Time::moving_to_active, crate::specs::Thread::with_last, crate::specs::Thread::with_queue))]
    pub fn moving_to_active(mut self, cpu: u64) -> Thread
        ensures { result ≡ moving_to_active self cpu }
    {
        self.current_processor_queue = -1;
        self.last_cpu = field_of(cpu);
        self
    }

    pub fn current_cpu_rq(self) -> Option<u64>
        ensures { result ≡ cpu_in self.current_processor_queue }
    {
        cpu_in(self.current_processor_queue)
    }

    #[tactic(auto, unfolding(crate::specs::Time::preferred_cpu))]
    pub fn preferred_cpu(self) -> Option<Preferred>
        ensures { result ≡ preferred_cpu self }
    {
        pin_or_last(cpu_in(self.pinned_cpu), cpu_in(self.last_cpu))
    }

    #[tactic(auto, unfolding(crate::specs::Time::set_deadline, crate::specs::Thread::with_deadline))]
    pub fn set_deadline(mut self, tick: u64) -> Thread
        ensures { result ≡ set_deadline self tick }
    {
        self.deadline = tick;
        self
    }

    pub fn get_deadline(self) -> u64
        ensures { result ≡ self.deadline }
    {
        self.deadline
    }
}
