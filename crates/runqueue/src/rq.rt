// A run queue: realtime, timeshare and idle, served in that order. The Rust's flags are not kept: each says that the count of its part is not 0.
ghost use Rattle.std.specs.Prelude.{◌≡◌, ◌%◌, ◌^◌};
ghost use Rattle.rules.specs.declared.PriorityClass.TheVariants as class;
ghost use Rattle.rules.specs.Priority.{priority, from_raw, raw};
ghost use Rattle.rules.specs.Queue.{part_of};
ghost use Rattle.rules.specs.Times.{timeslice, deadline_distance};
ghost use Rattle.runqueue.specs.RunQueue.{front_at, no_run_queue, rq_empty, raised, said_realtime_def, said_timeshare_def};
ghost use Rattle.runqueue.specs.RunQueue.{counted, rq_insert_into, front_of, rq_front_realtime, rq_front};
ghost use Rattle.runqueue.specs.RunQueue.{uncounted, rq_taken_from, rq_recalc, rq_clock, rq_hardtick};

use queue::lists::Found;
use queue::pq::PriorityQueue;
use queue::timeshare::TimeshareQueue;
use rules::{Part, Priority, PriorityClass};
use thread::priority::{from_raw, raw};

// current_priority: what the CPU advertises, raw. load: how many wait; timeshare_load: how many of them in timeshare; movable: how many are not pinned.
#[derive(Clone, Copy)]
pub struct RunQueue {
    pub realtime: PriorityQueue,
    pub timeshare: TimeshareQueue,
    pub idle: PriorityQueue,
    pub current_priority: u64,
    pub load: u64,
    pub timeshare_load: u64,
    pub movable: u64,
    pub last_tick: u64,
}

// What a put is told of the thread. current: it comes in as the current thread; due: its deadline is not past the tick.
#[derive(Clone, Copy)]
pub struct Arrival {
    pub thread: u64,
    pub priority: Priority,
    pub current: bool,
    pub due: bool,
    pub pinned: bool,
}

// What a take is told of the thread: its link, its value when it was put in, and whether it is pinned.
#[derive(Clone, Copy)]
pub struct Departure {
    pub next: u64,
    pub value: u64,
    pub pinned: bool,
}

// behind: whose link the caller must set to the thread that came in, if anybody's. part: where it came in; the Rust answers whether that is not idle. Not
// `queue::lists::Put` beside a part, nor `Found` in `Front`: clauses and callers would name one field more.
#[derive(Clone, Copy)]
pub struct Put {
    pub queue: RunQueue,
    pub behind: Option<u64>,
    pub part: Part,
}

// Who leaves next: the first thread of a list of a part.
#[derive(Clone, Copy)]
pub struct Front {
    pub part: Part,
    pub bucket: u64,
    pub thread: u64,
}

// The queue after a hard tick, and the ticks since the one before it.
#[derive(Clone, Copy)]
pub struct Hardtick {
    pub queue: RunQueue,
    pub ticks: u64,
}

// The thread found in a part is the front of the run queue.
pub fn in_part(part: Part, found: Found) -> Front
    ensures { Some result ≡ front_at part found.bucket found.thread }
{
    Front {
        part,
        bucket: found.bucket,
        thread: found.thread,
    }
}

// What is advertised, raw, once a thread of priority p came in.
#[tactic(auto, using(thread::proofs::Order::less_derived), unfolding(crate::specs::RunQueue::raised))]
pub fn raised(said: u64, p: Priority) -> u64
    ensures { result ≡ raised said p }
{
    if from_raw(said) < p { raw(p) } else { said }
}

pub fn advertised(class: PriorityClass, value: u64) -> u64
    ensures { result ≡ raw (priority class value) }
{
    raw(Priority { class, value })
}

// What is advertised once a thread has left the realtime part, of which `left` is left.
#[tactic(auto, using(thread::proofs::Order::class_same), unfolding(crate::specs::RunQueue::said_realtime_def, rules::specs::Queue::is_class))]
pub fn said_realtime(said: u64, left: PriorityQueue) -> u64
    ensures { result ≡ said_realtime_def said left }
{
    if from_raw(said).class != PriorityClass::Realtime {
        said
    } else if left.is_empty() {
        advertised(PriorityClass::User, 127)
    } else {
        advertised(PriorityClass::Realtime, left.highest_priority())
    }
}

// The same of the timeshare part.
#[tactic(auto, using(thread::proofs::Order::class_same), unfolding(crate::specs::RunQueue::said_timeshare_def, rules::specs::Queue::is_class))]
pub fn said_timeshare(said: u64, left: TimeshareQueue, idle: PriorityQueue) -> u64
    ensures { result ≡ said_timeshare_def said left idle }
{
    if from_raw(said).class != PriorityClass::User {
        said
    } else if left.is_empty() {
        advertised(PriorityClass::Idle, idle.highest_priority())
    } else {
        advertised(PriorityClass::User, left.highest_priority())
    }
}

// The timeslice of a User thread where so many wait in the timeshare part.
#[tactic(auto, unfolding(rules::specs::Times::timeslice))]
pub fn user_timeslice(shortest: u64, timeshare_load: u64) -> u64
    ensures { result ≡ timeslice shortest class.User timeshare_load }
{
    if timeshare_load == 0 {
        100
    } else {
        shortest.max(32 / timeshare_load)
    }
}

impl Arrival {
    // The part that the thread goes into.
    #[tactic(auto, unfolding(rules::specs::Queue::part_of))]
    pub fn part(self) -> Part
        ensures { result ≡ part_of self.priority.class self.due }
    {
        match self.priority.class {
            PriorityClass::Realtime => Part::Realtime,
            PriorityClass::User if self.due => Part::Realtime,
            PriorityClass::User => Part::Timeshare,
            PriorityClass::Background | PriorityClass::Idle => Part::Idle,
        }
    }
}

impl RunQueue {
    #[tactic(auto, unfolding(crate::specs::RunQueue::no_run_queue))]
    pub fn new() -> Self
        ensures { result ≡ no_run_queue }
    {
        RunQueue {
            realtime: PriorityQueue::new(),
            timeshare: TimeshareQueue::new(),
            idle: PriorityQueue::new(),
            current_priority: 0,
            load: 0,
            timeshare_load: 0,
            movable: 0,
            last_tick: 0,
        }
    }

    #[tactic(auto, unfolding(crate::specs::RunQueue::rq_empty))]
    pub fn is_empty(self) -> bool
        ensures { result ≡ rq_empty self }
    {
        self.realtime.is_empty() && self.timeshare.is_empty() && self.idle.is_empty()
    }

    pub fn current_priority(self) -> Priority
        ensures { result ≡ from_raw self.current_priority }
    {
        from_raw(self.current_priority)
    }

    pub fn current_load(self) -> u64
        ensures { result ≡ self.load }
    {
        self.load
    }

    pub fn movable(self) -> u64
        ensures { result ≡ self.movable }
    {
        self.movable
    }

    // One more waits: what every put does first.
    #[tactic(auto, unfolding(crate::specs::RunQueue::counted, queue::specs::Num::sum))]
    pub fn counted(mut self, p: Priority, pinned: bool) -> Self
        ensures { result ≡ counted self p pinned }
    {
        self.load = self.load.wrapping_add(1);
        if !pinned {
            self.movable = self.movable.wrapping_add(1);
        }
        self.current_priority = raised(self.current_priority, p);
        self
    }

    // A thread comes into this part.
    #[inline(always)]
    #[tactic(auto, unfolding(crate::specs::RunQueue::rq_insert_into, crate::specs::RunQueue::rq_insert_realtime, crate::specs::RunQueue::rq_insert_timeshare, crate::specs::RunQueue::rq_insert_idle, crate::specs::RunQueue::with_realtime, crate::specs::RunQueue::with_timeshare, crate::specs::RunQueue::with_idle, crate::specs::RunQueue::counted, queue::specs::Num::sum))]
    pub fn insert_into(self, part: Part, a: Arrival) -> Put
        ensures { result ≡ rq_insert_into part self a }
    {
        let p = a.priority;
        let mut queue = self.counted(p, a.pinned);
        let behind = match part {
            Part::Realtime => {
                let put = self.realtime.insert(a.thread, p.class, p.value);
                queue.realtime = put.queue;
                put.behind
            }
            Part::Timeshare => {
                let put = self.timeshare.insert(a.thread, p.value, a.current);
                queue.timeshare = put.queue;
                queue.timeshare_load = self.timeshare_load.wrapping_add(1);
                put.behind
            }
            Part::Idle => {
                let put = self.idle.insert(a.thread, p.class, p.value);
                queue.idle = put.queue;
                put.behind
            }
        };
        Put {
            queue,
            behind,
            part,
        }
    }

    // Who leaves next from this part.
    #[inline(always)]
    #[tactic(auto, unfolding(crate::specs::RunQueue::front_of, crate::specs::RunQueue::first_in_def))]
    pub fn front_of(self, part: Part) -> Option<Front>
        ensures { result ≡ front_of part self }
    {
        let found = match part {
            Part::Realtime => self.realtime.front(),
            Part::Timeshare => self.timeshare.front(),
            Part::Idle => self.idle.front(),
        };
        found.map(|found| in_part(part, found))
    }

    // Who leaves next: the front of the first part that has one.
    #[tactic(auto, using(crate::specs::RunQueue::front_first, crate::specs::RunQueue::front_second, crate::specs::RunQueue::front_third))]
    pub fn next(self) -> Option<Front>
        ensures { result ≡ rq_front_realtime self }
    {
        self.front_of(Part::Realtime)
            .or_else(|| self.front_of(Part::Timeshare))
            .or_else(|| self.front_of(Part::Idle))
    }

    // Who leaves if a thread is asked of the queue: the first half of the Rust's `take`.
    #[tactic(auto, unfolding(crate::specs::RunQueue::rq_front))]
    pub fn front(self, stealing: bool) -> Option<Front>
        ensures { result ≡ rq_front self stealing }
    {
        if stealing && self.movable == 0 {
            None
        } else {
            self.next()
        }
    }

    // One less waits: what every take does.
    #[tactic(auto, unfolding(crate::specs::RunQueue::uncounted, queue::specs::Num::difference))]
    pub fn uncounted(mut self, pinned: bool) -> Self
        ensures { result ≡ uncounted self pinned }
    {
        self.load = self.load.wrapping_sub(1);
        if !pinned {
            self.movable = self.movable.wrapping_sub(1);
        }
        self
    }

    #[tactic(auto, unfolding(crate::specs::RunQueue::rq_recalc, crate::specs::RunQueue::advertising))]
    pub fn recalc_priority_timeshare(mut self) -> Self
        ensures { result ≡ rq_recalc self }
    {
        self.current_priority = said_timeshare(self.current_priority, self.timeshare, self.idle);
        self
    }

    // A thread has left this bucket of this part from behind `previous`.
    #[inline(always)]
    #[tactic(auto, unfolding(crate::specs::RunQueue::rq_taken_from, crate::specs::RunQueue::rq_taken_realtime, crate::specs::RunQueue::rq_taken_timeshare, crate::specs::RunQueue::rq_taken_idle, crate::specs::RunQueue::advertising, crate::specs::RunQueue::with_realtime, crate::specs::RunQueue::with_timeshare, crate::specs::RunQueue::with_idle, crate::specs::RunQueue::uncounted, queue::specs::Num::difference))]
    pub fn taken_from(self, part: Part, bucket: u64, previous: u64, d: Departure) -> Self
        ensures { result ≡ rq_taken_from part self bucket previous d.next d.value d.pinned }
    {
        let Departure {
            next,
            value,
            pinned,
        } = d;
        let mut queue = self.uncounted(pinned);
        match part {
            Part::Realtime => {
                queue.realtime = self.realtime.taken(bucket, previous, next);
                queue.current_priority = said_realtime(self.current_priority, queue.realtime);
                queue
            }
            Part::Timeshare => {
                queue.timeshare = self.timeshare.taken(bucket, previous, next, value);
                queue.timeshare_load = self.timeshare_load.wrapping_sub(1);
                queue.recalc_priority_timeshare()
            }
            Part::Idle => {
                queue.idle = self.idle.taken(bucket, previous, next);
                queue.current_priority = advertised(
                    PriorityClass::Idle,
                    queue.idle.highest_priority(),
                );
                queue
            }
        }
    }

    #[tactic(auto, unfolding(rules::specs::Times::timeslice))]
    pub fn timeslice(self, shortest: u64, class: PriorityClass) -> u64
        ensures { result ≡ timeslice shortest class self.timeshare_load }
    {
        match class {
            PriorityClass::User => user_timeslice(shortest, self.timeshare_load),
            _ => 100,
        }
    }

    #[tactic(auto, unfolding(rules::specs::Times::deadline_distance))]
    pub fn deadline(self, shortest: u64, class: PriorityClass) -> u64
        ensures { result ≡ deadline_distance shortest class self.timeshare_load self.load % 2 ^ 64 }
    {
        self.timeslice(shortest, class).wrapping_mul(self.load)
    }

    #[tactic(auto, unfolding(crate::specs::RunQueue::rq_clock, crate::specs::RunQueue::with_timeshare))]
    pub fn clock(mut self) -> Self
        ensures { result ≡ rq_clock self }
    {
        self.timeshare = self.timeshare.advance_insert_index(1, true);
        self
    }

    #[tactic(auto, unfolding(crate::specs::RunQueue::rq_hardtick, queue::specs::Num::difference))]
    pub fn hardtick(mut self, now: u64) -> Hardtick
        ensures { result ≡ rq_hardtick self now }
    {
        let ticks = now.wrapping_sub(self.last_tick);
        self.last_tick = now;
        Hardtick { queue: self, ticks }
    }
}
