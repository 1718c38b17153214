// Eight lists of threads, each as its first and last thread (the Rust's `queues`). Two arrays, since the lent words lie so. A thread here is a link of a
// record, with NONE for nobody: an `Option` would be made from it and be taken apart again in one line.
ghost use Rattle.std.specs.Prelude.{◌≡◌};
ghost use Rattle.queue.specs.Lists.{no_lists_def, push_back, unlinked, first_from, highest_held};

use thread::NONE;

#[derive(Clone, Copy)]
pub struct Lists {
    pub heads: [u64; 8],
    pub tails: [u64; 8],
}

// Lists, or a part of a run queue, with a thread that came in. behind: whose record's link has to be set to that thread, if anybody's.
#[derive(Clone, Copy)]
pub struct Put<Q> {
    pub queue: Q,
    pub behind: Option<u64>,
}

// The first thread of a list, and the number of that list.
#[derive(Clone, Copy)]
pub struct Found {
    pub bucket: u64,
    pub thread: u64,
}

impl Lists {
    #[tactic(auto, unfolding(crate::specs::Lists::no_lists_def, rules::specs::Queue::nr_buckets))]
    pub fn new() -> Self
        ensures { result ≡ no_lists_def }
    {
        Lists {
            heads: [NONE; 8],
            tails: [NONE; 8],
        }
    }

    #[tactic(auto, unfolding(crate::specs::Lists::push_back, rules::specs::Queue::nr_buckets))]
    pub fn push_back(mut self, bucket: u64, thread: u64) -> Put<Lists>
        ensures { result ≡ push_back self bucket thread }
    {
        let i = (bucket % 8) as usize;
        let first = self.heads[i] == NONE;
        let behind = (!first).then_some(self.tails[i]);
        self.tails[i] = thread;
        if first {
            self.heads[i] = thread;
        }
        Put {
            queue: self,
            behind,
        }
    }

    // Removes the thread between previous (NONE: it is the first) and next; the caller relinks previous.
    #[tactic(auto, unfolding(crate::specs::Lists::unlinked, rules::specs::Queue::nr_buckets))]
    pub fn unlink(mut self, bucket: u64, previous: u64, next: u64) -> Self
        ensures { result ≡ unlinked self bucket previous next }
    {
        let i = (bucket % 8) as usize;
        if previous == NONE {
            self.heads[i] = next;
        } else if next == NONE {
            self.tails[i] = previous;
        }
        self
    }

    // The first of the eight lists, from one onward round, that holds a thread.
    #[tactic(auto, using(crate::specs::Lists::scan_end, crate::specs::Lists::scan_start, crate::specs::Lists::scan_step), unfolding(crate::specs::Lists::first_from, rules::specs::Queue::nr_buckets))]
    pub fn first_from(self, from: u64) -> Option<Found>
        ensures { result ≡ first_from self from }
    {
        let start = from % 8;
        for i in 0u64..8 {
            let bucket = (start + i) % 8;
            let thread = self.heads[bucket as usize];
            if thread != NONE {
                return Some(Found { bucket, thread });
            }
        }
        None
    }

    // The least value of the highest list that holds a thread, 0 if none does.
    #[tactic(auto, unfolding(crate::specs::Lists::highest_held, rules::specs::Queue::nr_buckets, crate::specs::Lists::top_heads, rules::specs::Queue::width))]
    pub fn highest(self) -> u64
        ensures { result ≡ highest_held self }
    {
        let last = self.heads.iter().rposition(|head| *head != NONE);
        last.map_or(0, |bucket| bucket as u64 * 16)
    }
}
