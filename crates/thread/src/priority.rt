// Priorities (thread/priority.rs): a class, then a value from 0 to 127. Raw, the class is above the lower 16 bits.
ghost use Rattle.std.specs.Prelude.{◌≡◌};
ghost use Rattle.rules.specs.Priority.{class_at, cut, from_raw, raw, effective, donation_accepted};
ghost use Rattle.rules.specs.Times.{effective_priority};
ghost use Rattle.thread.specs.Reads.{donated_in, reads};
ghost use Rattle.thread.specs.Priority.{stable_effective_priority, donate_priority, remove_donated_priority};

use crate::flags::{has_donated_priority, reset_donated_priority, set_donated_priority};
use crate::{NO_DONATION, Thread};
use rules::{Priority, PriorityClass};

pub const MAX_PRIORITY: u64 = 128;

// What a donation came to: the thread, whether the donation was accepted, and whether it was accepted and is above what was the thread's effective
// priority, so that the thread's CPU may have to be signalled. No `Option`: the record goes back into memory whatever is answered.
#[derive(Clone, Copy)]
pub struct Donation {
    pub thread: Thread,
    pub accepted: bool,
    pub needs_resched: bool,
}

// The thread with its stable priority, and that priority.
#[derive(Clone, Copy)]
pub struct Stable {
    pub thread: Thread,
    pub priority: Priority,
}

// The class that a number names: everything from 3 up is Realtime. A function, here and below: its types are of `rules`, which has no functions, and an
// `impl` of `From` lies where one of its types does.
#[tactic(auto, unfolding(rules::specs::Priority::class_at))]
pub fn class_at(number: u64) -> PriorityClass
    ensures { result ≡ class_at number }
{
    match number {
        0 => PriorityClass::Idle,
        1 => PriorityClass::Background,
        2 => PriorityClass::User,
        _ => PriorityClass::Realtime,
    }
}

// The rules' word for a value in its range, which callers cite.
#[tactic(auto, unfolding(rules::specs::Priority::cut, rules::specs::Priority::nr_values))]
pub fn cut(value: u64) -> u64
    ensures { result ≡ cut value }
{
    value.min(MAX_PRIORITY - 1)
}

#[tactic(auto, unfolding(rules::specs::Priority::from_raw))]
pub fn from_raw(d: u64) -> Priority
    ensures { result ≡ from_raw d }
{
    Priority {
        class: class_at(d / 65536),
        value: cut(d % 65536),
    }
}

#[tactic(auto, unfolding(rules::specs::Priority::raw, rules::specs::Priority::class_number))]
pub fn raw(priority: Priority) -> u64
    ensures { result ≡ raw priority }
{
    priority.class as u64 * 65536 + priority.value % 65536
}

// The effective priority of a thread with these two.
#[tactic(auto, using(crate::proofs::Order::max_derived), unfolding(rules::specs::Priority::effective))]
pub fn effective(own: Priority, donated: Option<Priority>) -> Priority
    ensures { result ≡ effective own donated }
{
    donated.map_or(own, |p| own.max(p))
}

// Is a donation accepted where another may be held? Not if that one is greater.
#[tactic(auto, using(crate::proofs::Order::at_most_derived), unfolding(rules::specs::Priority::donation_accepted, rules::specs::Priority::at_most))]
pub fn donation_accepted(current: Option<Priority>, pri: Priority) -> bool
    ensures { result ≡ donation_accepted current pri }
{
    current.is_none_or(|held| held <= pri)
}

impl Thread {
    #[tactic(auto, unfolding(crate::specs::Reads::donated_in))]
    pub fn get_donated_priority(self) -> Option<Priority>
        ensures { result ≡ donated_in self }
    {
        if has_donated_priority(self.flags) && self.donated_priority != NO_DONATION {
            Some(from_raw(self.donated_priority))
        } else {
            None
        }
    }

    #[tactic(auto, unfolding(rules::specs::Times::effective_priority, crate::specs::Reads::reads))]
    pub fn effective_priority(self) -> Priority
        ensures { result ≡ effective_priority (reads self) }
    {
        effective(from_raw(self.priority), self.get_donated_priority())
    }

    pub fn get_stable_effective_priority(self) -> Priority
        ensures { result ≡ from_raw self.stable_priority }
    {
        from_raw(self.stable_priority)
    }

    #[tactic(auto, unfolding(crate::specs::Priority::stable_effective_priority, crate::specs::Thread::with_stable))]
    pub fn stable_effective_priority(mut self) -> Stable
        ensures { result ≡ stable_effective_priority self }
    {
        let priority = self.effective_priority();
        self.stable_priority = raw(priority);
        Stable {
            thread: self,
            priority,
        }
    }

    #[tactic(auto, using(crate::proofs::Order::less_derived), unfolding(crate::specs::Priority::donate_priority, crate::specs::Thread::with_donated))]
    pub fn donate_priority(mut self, pri: Priority) -> Donation
        ensures { result ≡ donate_priority self pri }
    {
        let accepted = donation_accepted(self.get_donated_priority(), pri);
        let needs_resched = accepted && self.effective_priority() < pri;
        if accepted {
            self.donated_priority = raw(pri);
            self.flags = set_donated_priority(self.flags);
        }
        Donation {
            thread: self,
            accepted,
            needs_resched,
        }
    }

    #[tactic(auto, unfolding(crate::specs::Priority::remove_donated_priority, crate::specs::Thread::with_donated))]
    pub fn remove_donated_priority(mut self) -> Thread
        ensures { result ≡ remove_donated_priority self }
    {
        if has_donated_priority(self.flags) {
            self.flags = reset_donated_priority(self.flags);
            self.donated_priority = NO_DONATION;
        }
        self
    }
}
