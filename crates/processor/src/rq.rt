// The run queue of a CPU, loaded from its words and stored into them: 72 words. Its operations take it by value; of what they hand back, one part and
// the numbers are stored, since no other part has changed.
ghost use Rattle.std.specs.Prelude.{◌≡◌, ◌+◌, ◌≤◌};
ghost use Rattle.thread.specs.Thread.{NONE};
ghost use Rattle.runqueue.specs.RunQueue.{rq_front_realtime, rq_front, rq_taken_from, rq_taken};
ghost use Rattle.processor.specs.Left.{LeavesOne};
ghost use Rattle.processor.specs.Words.{width};
ghost use Rattle.processor.specs.Window.{load_n, place_n};
ghost use Rattle.processor.specs.Queue.{lists_at, lists_stored_def, first_eight, last_two, queue_in_def, queue_into, queue_at, queue_stored, inserted_def};
ghost use Rattle.processor.specs.Parts.{numbers_into, part_into, numbers_stored, part_stored};

use crate::words::{CpuWords, WORDS};
use queue::lists::Lists;
use queue::pq::PriorityQueue;
use queue::timeshare::TimeshareQueue;
use rules::Part;
use runqueue::rq::{Arrival, Departure, Front, RunQueue};
use std::array;
use thread::NONE;

// Eight words of a row. Their place is a number at each call, or the parameter of `load_lists` and `store_lists`, where its bound is seen; a type of its own would
// carry the same bound.
#[tactic(auto, unfolding(crate::specs::Window::load_n))]
fn load(row: &CpuWords, at: usize) -> [u64; 8]
    requires { at + 8 ≤ width }
    ensures { result ≡ load_n row.now at 8 8 }
{
    array::from_fn(|i| row[at + i])
}

// Eight words stored, word by word: with `copy_from_slice`, tried, `replay` takes 5 % more instructions on puts and takes alone.
#[tactic(auto, unfolding(crate::specs::Window::place_n))]
fn store(row: &mut CpuWords, at: usize, v: [u64; 8])
    requires { at + 8 ≤ width }
    ensures { row.new ≡ place_n row.old at v 8 }
{
    for i in 0usize..8 {
        row[at + i] = v[i];
    }
}

// First and last threads, sixteen words.
#[tactic(auto, unfolding(crate::specs::Queue::lists_at))]
fn load_lists(row: &CpuWords, at: usize) -> Lists
    requires { at + 16 ≤ width }
    ensures { result ≡ lists_at row.now at }
{
    Lists {
        heads: load(row, at),
        tails: load(row, at + 8),
    }
}

#[tactic(auto, unfolding(crate::specs::Queue::lists_stored_def))]
fn store_lists(row: &mut CpuWords, at: usize, l: Lists)
    requires { at + 16 ≤ width }
    ensures { row.new ≡ lists_stored_def row.old at l }
{
    store(row, at, l.heads);
    store(row, at + 8, l.tails);
}

// The ten numbers of a queue, in two arrays.
#[tactic(auto, unfolding(crate::specs::Queue::first_eight))]
fn first_eight(q: RunQueue) -> [u64; 8]
    ensures { result ≡ first_eight q }
{
    [
        q.realtime.count,
        q.timeshare.count,
        q.timeshare.insert_idx,
        q.timeshare.take_idx,
        q.idle.count,
        q.current_priority,
        q.load,
        q.timeshare_load,
    ]
}

#[tactic(auto, unfolding(crate::specs::Queue::last_two))]
fn last_two(q: RunQueue) -> [u64; 8]
    ensures { result ≡ last_two q }
{
    [q.movable, q.last_tick, 0, 0, 0, 0, 0, 0]
}

#[tactic(auto, unfolding(crate::specs::Queue::queue_in_def, crate::specs::Queue::queue_from, crate::specs::Queue::built_of))]
fn queue_in(row: &CpuWords) -> RunQueue
    ensures { result ≡ queue_in_def row.now }
{
    let s = load(row, 56);
    let t = load(row, 64);
    RunQueue {
        realtime: PriorityQueue {
            count: s[0],
            queues: load_lists(row, 0),
        },
        timeshare: TimeshareQueue {
            count: s[1],
            priorities: load(row, 16),
            insert_idx: s[2],
            take_idx: s[3],
            queues: load_lists(row, 24),
        },
        idle: PriorityQueue {
            count: s[4],
            queues: load_lists(row, 40),
        },
        current_priority: s[5],
        load: s[6],
        timeshare_load: s[7],
        movable: t[0],
        last_tick: t[1],
    }
}

#[tactic(auto, unfolding(crate::specs::Parts::numbers_into))]
fn numbers_into(row: &mut CpuWords, q: RunQueue)
    ensures { row.new ≡ numbers_into row.old q }
{
    store(row, 56, first_eight(q));
    store(row, 64, last_two(q));
}

#[tactic(auto, unfolding(crate::specs::Queue::queue_into, crate::specs::Queue::stored_from, crate::specs::Parts::numbers_into))]
fn queue_into(row: &mut CpuWords, q: RunQueue)
    ensures { row.new ≡ queue_into row.old q }
{
    store_lists(row, 0, q.realtime.queues);
    store(row, 16, q.timeshare.priorities);
    store_lists(row, 24, q.timeshare.queues);
    store_lists(row, 40, q.idle.queues);
    numbers_into(row, q);
}

// One part, and the numbers.
#[inline(always)]
#[tactic(auto, unfolding(crate::specs::Parts::part_into))]
fn part_into(row: &mut CpuWords, part: Part, q: RunQueue)
    ensures { row.new ≡ part_into part row.old q }
{
    match part {
        Part::Realtime => {
            store_lists(row, 0, q.realtime.queues);
            numbers_into(row, q);
        }
        Part::Timeshare => {
            store(row, 16, q.timeshare.priorities);
            store_lists(row, 24, q.timeshare.queues);
            numbers_into(row, q);
        }
        Part::Idle => {
            store_lists(row, 40, q.idle.queues);
            numbers_into(row, q);
        }
    }
}

// The run queue of CPU c.
#[tactic(auto, using(crate::proofs::Laws::Queue::no_row, crate::proofs::Laws::Queue::queue_out), unfolding(crate::specs::Queue::queue_at))]
pub fn load_queue(cpus: &[CpuWords], c: u64) -> RunQueue
    ensures { result ≡ queue_at cpus.now c }
{
    let row = cpus.get(c as usize);
    row.map_or_else(|| queue_in(&[0; WORDS]), queue_in)
}

#[tactic(auto, using(crate::proofs::Laws::Queue::stored_out), unfolding(crate::specs::Queue::queue_stored))]
pub fn store_queue(cpus: &mut [CpuWords], c: u64, q: RunQueue)
    ensures { cpus.new ≡ queue_stored cpus.old c q }
{
    // The length is asked, here and below, since `get_mut` does not say what the slice becomes.
    let i = c as usize;
    if i < cpus.len() {
        queue_into(&mut cpus[i], q);
    }
}

// The numbers of a queue whose lists stand there already.
#[tactic(auto, unfolding(crate::specs::Parts::numbers_stored))]
pub fn store_numbers(cpus: &mut [CpuWords], c: u64, q: RunQueue)
    ensures { cpus.new ≡ numbers_stored cpus.old c q }
{
    let i = c as usize;
    if i < cpus.len() {
        numbers_into(&mut cpus[i], q);
    }
}

#[inline(always)]
#[tactic(auto, unfolding(crate::specs::Parts::part_stored))]
fn store_part(cpus: &mut [CpuWords], c: u64, part: Part, q: RunQueue)
    ensures { cpus.new ≡ part_stored part cpus.old c q }
{
    let i = c as usize;
    if i < cpus.len() {
        part_into(&mut cpus[i], part, q);
    }
}

#[inline(always)]
#[tactic(auto, using(crate::proofs::Parts::put_stored), unfolding(crate::specs::Queue::inserted_def))]
fn insert_part(cpus: &mut [CpuWords], c: u64, a: Arrival, part: Part) -> Option<u64>
    ensures { LeavesOne (inserted_def part c a) result cpus }
{
    let q = load_queue(cpus, c);
    let put = q.insert_into(part, a);
    store_part(cpus, c, part, put.queue);
    put.behind
}

// A thread goes into this part of the queue of CPU c: whose link the caller must set to it, if anybody's. Each arm names its part, a constant to the compiler,
// which then loads and stores no other part: with one call for all parts, `replay` took 6 to 9 % more instructions.
pub fn insert_into(cpus: &mut [CpuWords], c: u64, a: Arrival, part: Part) -> Option<u64>
    ensures { LeavesOne (inserted_def part c a) result cpus }
{
    match part {
        Part::Realtime => insert_part(cpus, c, a, Part::Realtime),
        Part::Timeshare => insert_part(cpus, c, a, Part::Timeshare),
        Part::Idle => insert_part(cpus, c, a, Part::Idle),
    }
}

// Who leaves next: a part is loaded only if those before it are empty.
#[tactic(auto, using(runqueue::specs::RunQueue::front_first, runqueue::specs::RunQueue::front_second, runqueue::specs::RunQueue::front_third))]
fn next(cpus: &[CpuWords], c: u64) -> Option<Front>
    ensures { result ≡ rq_front_realtime (queue_at cpus.now c) }
{
    load_queue(cpus, c)
        .front_of(Part::Realtime)
        .or_else(|| load_queue(cpus, c).front_of(Part::Timeshare))
        .or_else(|| load_queue(cpus, c).front_of(Part::Idle))
}

// Who leaves if a thread is asked of the queue of CPU c, as `RunQueue::front` says of a queue that is loaded whole. A stealing take finds nobody where all are
// pinned.
#[tactic(auto, unfolding(runqueue::specs::RunQueue::rq_front))]
pub fn front(cpus: &[CpuWords], c: u64, stealing: bool) -> Option<Front>
    ensures { result ≡ rq_front (queue_at cpus.now c) stealing }
{
    if stealing && load_queue(cpus, c).movable == 0 {
        None
    } else {
        next(cpus, c)
    }
}

// A thread has left this bucket of this part.
#[inline(always)]
#[tactic(auto, using(crate::proofs::Parts::left_stored))]
fn taken_part(cpus: &mut [CpuWords], c: u64, part: Part, bucket: u64, d: Departure)
    ensures { cpus.new ≡ queue_stored cpus.old c (rq_taken_from part (queue_at cpus.old c) bucket NONE d.next d.value d.pinned) }
{
    let q = load_queue(cpus, c);
    let left = q.taken_from(part, bucket, NONE, d);
    store_part(cpus, c, part, left);
}

// Nobody has left.
#[tactic(auto, using(crate::proofs::Parts::again_stored))]
fn taken_none(cpus: &mut [CpuWords], c: u64)
    ensures { cpus.new ≡ queue_stored cpus.old c (queue_at cpus.old c) }
{
    let q = load_queue(cpus, c);
    store_numbers(cpus, c, q);
}

// The thread that `front` answered, the first of its list, has left. Each arm names its part, as in `insert_into`.
#[tactic(auto, using(crate::proofs::Parts::took_stored), unfolding(runqueue::specs::RunQueue::rq_taken))]
pub fn taken_front(cpus: &mut [CpuWords], c: u64, front: Option<Front>, d: Departure)
    ensures { cpus.new ≡ queue_stored cpus.old c (rq_taken (queue_at cpus.old c) front NONE d.next d.value d.pinned) }
{
    let Some(Front { part, bucket, .. }) = front else {
        taken_none(cpus, c);
        return;
    };
    match part {
        Part::Realtime => taken_part(cpus, c, Part::Realtime, bucket, d),
        Part::Timeshare => taken_part(cpus, c, Part::Timeshare, bucket, d),
        Part::Idle => taken_part(cpus, c, Part::Idle, bucket, d),
    }
}
