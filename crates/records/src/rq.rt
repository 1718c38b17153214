// The run queues of all CPUs in lent memory (rq.rs): links are fields of the thread records; heads, tails and counters are words of a CPU. A queue is
// loaded from its CPU's words, goes by value into its operation, and what changed of it is stored.
ghost use Rattle.std.specs.Prelude.{◌≡◌};
ghost use Rattle.rules.specs.Times.{pinned};
ghost use Rattle.thread.specs.Reads.{reads};
ghost use Rattle.processor.specs.Queue.{queue_at, queue_stored};
ghost use Rattle.processor.specs.Left.{LeavesOne, BecomesOne};
ghost use Rattle.records.specs.Left.{Leaves, Becomes};
ghost use Rattle.records.specs.Rq.{arrival_of, put_in_def, link_behind, insert_def, left_by_def, take_def, clock_def, hardtick_def};

use crate::memory::Memory;
use crate::record::{get, set};
use processor::rq::{front, insert_into, load_queue, store_numbers, taken_front};
use processor::words::CpuWords;
use rules::Part;
use runqueue::rq::{Arrival, Departure, Front};
use thread::place::Place;
use thread::{NONE, Thread};

#[tactic(auto, unfolding(rules::specs::Times::pinned, thread::specs::Reads::reads, thread::specs::Reads::cpu_in))]
fn is_pinned(t: Thread) -> bool
    ensures { result ≡ pinned (reads t) }
{
    t.pinned_to().is_some()
}

// What a put is told of thread x, whose record is t.
#[tactic(auto, unfolding(crate::specs::Rq::arrival_of))]
fn arrival(t: Thread, x: u64, tick: u64, current: bool) -> Arrival
    ensures { result ≡ arrival_of t x tick current }
{
    Arrival {
        thread: x,
        priority: t.effective_priority(),
        current,
        due: t.deadline <= tick,
        pinned: is_pinned(t),
    }
}

// The record of a thread that came into this part: it waits, the last of its list. Timeshare keeps the priority that it came in with.
#[tactic(auto, unfolding(crate::specs::Rq::put_in_def, crate::specs::Rq::steady_in))]
fn put_in(t: Thread, part: Part) -> Thread
    ensures { result ≡ put_in_def t part }
{
    let last = t.with_place(Place::Waiting).set_next(NONE);
    match part {
        Part::Timeshare => last.stable_effective_priority().thread,
        Part::Realtime | Part::Idle => last,
    }
}

// The link of the thread that x stands behind points to x; x stands behind nobody where it is the first of its list.
#[tactic(auto, unfolding(crate::specs::Rq::link_behind))]
fn link_behind(threads: &mut [Thread], behind: Option<u64>, x: u64)
    ensures { threads.new ≡ link_behind threads.old behind x }
{
    if let Some(b) = behind {
        let t = get(threads, b);
        set(threads, b, t.set_next(x));
    }
}

// Thread x goes into the queue of CPU c. current: it comes in as the current thread.
#[tactic(auto, using(crate::proofs::Exits::put_part), unfolding(crate::specs::Rq::insert_def, processor::specs::Queue::inserted_def, runqueue::specs::RunQueue::rq_insert))]
pub fn insert(m: &mut Memory<'_>, c: u64, x: u64, tick: u64, current: bool)
    ensures { Becomes (insert_def c x tick current) m }
{
    let t = m.thread(x);
    let a = arrival(t, x, tick, current);
    let part = a.part();
    let behind = insert_into(m.cpus, c, a, part);
    m.set_thread(x, put_in(t, part));
    link_behind(m.threads, behind, x);
}

// The thread that the queue of CPU c found, whose record is t, leaves the head of its list: nobody stands before it.
#[tactic(auto, unfolding(crate::specs::Rq::left_by_def))]
fn leave(cpus: &mut [CpuWords], c: u64, front: Front, t: Thread)
    ensures { cpus.new ≡ queue_stored cpus.old c (left_by_def (queue_at cpus.old c) (Some front) t) }
{
    let d = Departure {
        next: t.next,
        value: t.get_stable_effective_priority().value,
        pinned: is_pinned(t),
    };
    taken_front(cpus, c, Some(front), d);
}

// A thread is asked of the queue of CPU c: by the CPU itself, or by another that steals.
#[tactic(auto, unfolding(crate::specs::Rq::take_def, crate::specs::Rq::took_from_def))]
pub fn take(m: &mut Memory<'_>, c: u64, stealing: bool) -> Option<u64>
    ensures { Leaves (take_def c stealing) result m }
{
    let found = front(m.cpus(), c, stealing)?;
    let x = found.thread;
    let t = m.thread(x);
    leave(m.cpus, c, found, t);
    m.set_thread(x, t.with_place(Place::Running));
    Some(x)
}

// The insert index of CPU c's queue moves on.
#[tactic(auto, using(processor::proofs::Parts::clock_stored), unfolding(crate::specs::Rq::clock_def))]
pub fn clock(cpus: &mut [CpuWords], c: u64)
    ensures { BecomesOne (clock_def c) cpus }
{
    let q = load_queue(cpus, c);
    store_numbers(cpus, c, q.clock());
}

// CPU c has its hard tick: how many ticks passed since the last.
#[tactic(auto, using(processor::proofs::Parts::hardtick_stored), unfolding(crate::specs::Rq::hardtick_def))]
pub fn hardtick(cpus: &mut [CpuWords], c: u64, tick: u64) -> u64
    ensures { LeavesOne (hardtick_def c tick) result cpus }
{
    let h = load_queue(cpus, c).hardtick(tick);
    store_numbers(cpus, c, h.queue);
    h.ticks
}
