// The timeshare part (timeshare.rs): eight lists, the one that fills (insert_idx) and the one that empties (take_idx), and how many of each sixteen
// values wait.
ghost use Rattle.std.specs.Prelude.{◌≡◌};
ghost use Rattle.rules.specs.Queue.{offset};
ghost use Rattle.queue.specs.Timeshare.{no_timeshare, ts_empty, ts_highest, ts_bucket, ts_insert, ts_front, ts_next, ts_taken, ts_step, ts_advance};

use crate::entry::entry;
use crate::lists::{Found, Lists, Put};
use thread::NONE;
use thread::priority::cut;

#[derive(Clone, Copy)]
pub struct TimeshareQueue {
    pub count: u64,
    pub priorities: [u64; 8],
    pub insert_idx: u64,
    pub take_idx: u64,
    pub queues: Lists,
}

#[tactic(auto, using(crate::proofs::TableRule::offset_entry, rules::proofs::Laws::Effect::cut_below), unfolding(rules::specs::Priority::nr_values))]
pub fn offset(value: u64) -> u64
    ensures { result ≡ offset value }
{
    entry(2 * cut(value) + 1)
}

impl TimeshareQueue {
    #[tactic(auto, unfolding(crate::specs::Timeshare::no_timeshare, rules::specs::Queue::nr_buckets))]
    pub fn new() -> Self
        ensures { result ≡ no_timeshare }
    {
        TimeshareQueue {
            count: 0,
            priorities: [0; 8],
            insert_idx: 0,
            take_idx: 0,
            queues: Lists::new(),
        }
    }

    #[tactic(auto, unfolding(crate::specs::Timeshare::ts_empty))]
    pub fn is_empty(self) -> bool
        ensures { result ≡ ts_empty self }
    {
        self.count == 0
    }

    // The least value of the highest sixteen of which one waits, 0 if none does.
    #[tactic(auto, unfolding(crate::specs::Timeshare::ts_highest, crate::specs::Timeshare::ts_empty, rules::specs::Queue::nr_buckets, crate::specs::Timeshare::top_counts_def, rules::specs::Queue::width))]
    pub fn highest_priority(self) -> u64
        ensures { result ≡ ts_highest self }
    {
        if self.is_empty() {
            return 0;
        }
        let last = self.priorities.iter().rposition(|waiting| *waiting != 0);
        last.map_or(0, |slot| slot as u64 * 16)
    }

    // The bucket that a thread joins.
    #[tactic(auto, using(crate::specs::Timeshare::back_round, crate::specs::Timeshare::round_left, rules::proofs::Laws::Offset::offset_in), unfolding(crate::specs::Timeshare::ts_bucket, rules::specs::Queue::nr_buckets, crate::specs::Timeshare::ts_index))]
    pub fn bucket(self, value: u64, current: bool) -> u64
        ensures { result ≡ ts_bucket self value current }
    {
        if current {
            return self.take_idx;
        }
        let q = (self.insert_idx % 8 + offset(value)) % 8;
        if q == self.take_idx && self.insert_idx != self.take_idx {
            (q + 7) % 8
        } else {
            q
        }
    }

    #[tactic(auto, unfolding(crate::specs::Timeshare::ts_insert, crate::specs::Timeshare::slot, rules::specs::Queue::width, rules::specs::Queue::nr_buckets, crate::specs::Num::sum))]
    pub fn insert(mut self, thread: u64, value: u64, current: bool) -> Put<Self>
        ensures { result ≡ ts_insert self thread value current }
    {
        let pushed = self.queues.push_back(self.bucket(value, current), thread);
        let slot = (value / 16 % 8) as usize;
        self.priorities[slot] = self.priorities[slot].wrapping_add(1);
        self.count = self.count.wrapping_add(1);
        self.queues = pushed.queue;
        Put {
            queue: self,
            behind: pushed.behind,
        }
    }

    // Where the next thread to leave stands.
    #[tactic(auto, unfolding(crate::specs::Timeshare::ts_front, crate::specs::Timeshare::ts_empty))]
    pub fn front(self) -> Option<Found>
        ensures { result ≡ ts_front self }
    {
        if self.is_empty() {
            None
        } else {
            self.queues.first_from(self.take_idx)
        }
    }

    // The take index once a thread has left bucket q, from behind `previous`; its link was `next`.
    #[tactic(auto, using(crate::specs::Timeshare::round_left), unfolding(crate::specs::Timeshare::ts_next, rules::specs::Queue::nr_buckets))]
    pub fn next_take_idx(self, q: u64, previous: u64, next: u64) -> u64
        ensures { result ≡ ts_next self q previous next }
    {
        if previous != NONE || next != NONE || q == self.insert_idx {
            q
        } else {
            (q % 8 + 1) % 8
        }
    }

    // A thread has left bucket q, from behind `previous`; its link was `next`, its value when it was put in `value`.
    #[tactic(auto, unfolding(crate::specs::Timeshare::ts_taken, crate::specs::Timeshare::less_one_def, crate::specs::Num::difference, crate::specs::Timeshare::slot, rules::specs::Queue::width, rules::specs::Queue::nr_buckets))]
    pub fn taken(mut self, q: u64, previous: u64, next: u64, value: u64) -> Self
        ensures { result ≡ ts_taken self q previous next value }
    {
        self.take_idx = self.next_take_idx(q, previous, next);
        let slot = (value / 16 % 8) as usize;
        self.priorities[slot] = self.priorities[slot].saturating_sub(1);
        self.count = self.count.wrapping_sub(1);
        self.queues = self.queues.unlink(q, previous, next);
        self
    }

    #[tactic(auto, using(crate::specs::Timeshare::round_sum), unfolding(crate::specs::Timeshare::ts_step))]
    pub fn stepped(mut self, steps: u64) -> Self
        ensures { result ≡ ts_step self steps }
    {
        self.insert_idx = (self.insert_idx % 8 + steps % 8) % 8;
        self
    }

    #[tactic(auto, unfolding(crate::specs::Timeshare::ts_advance, crate::specs::Timeshare::ts_empty))]
    pub fn advance_insert_index(self, steps: u64, force: bool) -> Self
        ensures { result ≡ ts_advance self steps force }
    {
        if !self.is_empty() && (self.insert_idx == self.take_idx || force) {
            self.stepped(steps)
        } else {
            self
        }
    }
}
