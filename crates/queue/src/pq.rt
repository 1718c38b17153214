// The realtime and the idle part (rq.rs, `PriorityQueue`). It shares no trait with the timeshare part: a put there is told whether the
// thread is current, not its class, and a take is told its value.
ghost use Rattle.std.specs.Prelude.{◌≡◌};
ghost use Rattle.rules.specs.Queue.{realtime_bucket, class_bucket};
ghost use Rattle.queue.specs.PriorityQueue.{no_priority, pq_empty, pq_highest, pq_insert, pq_front, pq_taken};

use crate::entry::entry;
use crate::lists::{Found, Lists, Put};
use rules::PriorityClass;
use thread::priority::cut;

#[derive(Clone, Copy)]
pub struct PriorityQueue {
    pub count: u64,
    pub queues: Lists,
}

#[tactic(auto, using(crate::proofs::TableRule::bucket_entry, rules::proofs::Laws::Effect::cut_below), unfolding(rules::specs::Priority::nr_values))]
pub fn realtime_bucket(value: u64) -> u64
    ensures { result ≡ realtime_bucket value }
{
    entry(2 * cut(value))
}

// A User thread here got a deadline boost.
#[tactic(auto, unfolding(rules::specs::Queue::class_bucket, rules::specs::Queue::nr_buckets))]
pub fn class_bucket(class: PriorityClass, value: u64) -> u64
    ensures { result ≡ class_bucket class value }
{
    if class == PriorityClass::User {
        7
    } else {
        realtime_bucket(value)
    }
}

impl PriorityQueue {
    #[tactic(auto, unfolding(crate::specs::PriorityQueue::no_priority))]
    pub fn new() -> Self
        ensures { result ≡ no_priority }
    {
        PriorityQueue {
            count: 0,
            queues: Lists::new(),
        }
    }

    #[tactic(auto, unfolding(crate::specs::PriorityQueue::pq_empty))]
    pub fn is_empty(self) -> bool
        ensures { result ≡ pq_empty self }
    {
        self.count == 0
    }

    #[tactic(auto, unfolding(crate::specs::PriorityQueue::pq_highest, crate::specs::PriorityQueue::pq_empty))]
    pub fn highest_priority(self) -> u64
        ensures { result ≡ pq_highest self }
    {
        if self.is_empty() {
            0
        } else {
            self.queues.highest()
        }
    }

    #[tactic(auto, unfolding(crate::specs::PriorityQueue::pq_insert, crate::specs::Num::sum))]
    pub fn insert(mut self, thread: u64, class: PriorityClass, value: u64) -> Put<Self>
        ensures { result ≡ pq_insert self thread class value }
    {
        let pushed = self.queues.push_back(class_bucket(class, value), thread);
        self.count = self.count.wrapping_add(1);
        self.queues = pushed.queue;
        Put {
            queue: self,
            behind: pushed.behind,
        }
    }

    // Where the next thread to leave stands.
    #[tactic(auto, unfolding(crate::specs::PriorityQueue::pq_front, crate::specs::PriorityQueue::pq_empty))]
    pub fn front(self) -> Option<Found>
        ensures { result ≡ pq_front self }
    {
        if self.is_empty() {
            None
        } else {
            self.queues.first_from(0)
        }
    }

    // A thread has left bucket q, from behind `previous`; its link was `next`.
    #[tactic(auto, unfolding(crate::specs::PriorityQueue::pq_taken, crate::specs::Num::difference))]
    pub fn taken(mut self, q: u64, previous: u64, next: u64) -> Self
        ensures { result ≡ pq_taken self q previous next }
    {
        self.count = self.count.wrapping_sub(1);
        self.queues = self.queues.unlink(q, previous, next);
        self
    }
}
