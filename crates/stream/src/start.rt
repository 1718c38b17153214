// The library's start: all records undeclared, all CPUs new, the root alone, and the state of the base's limits.
ghost use Rattle.std.specs.Prelude.{◌≡◌, length};
ghost use Rattle.command.specs.Lent.{LeavesAll};
ghost use Rattle.stream.specs.Start.{new_marks, new_numbers, new_cpu_def, new_cpus, no_room_def, initial, start_def};

use processor::rq::store_queue;
use processor::words::{
    CUR_REBALANCE_TIME, CpuWords, DECLARED, IDLE_TIMESLICE, IS_IDLE, MUST_REBALANCE, OWN_PRIORITY,
    PLACED, PREEMPT, RAND_STATE, RUNNING, put_word,
};
use questions::refusal::MAX_THREADS;
use questions::state::State;
use records::record::clear;
use runqueue::rq::RunQueue;
use thread::{NONE, Thread};
use topology::node::new_root;
use topology::words::NodeWords;

// The limits of the base.
pub const MAX_CPUS: u64 = 64;

pub const MAX_NODES: u64 = 128;

pub const SHORTEST: u64 = 2;

// What CPU c is: undeclared, on no node, idle and marked so, its own priority 0.
#[tactic(auto, unfolding(crate::specs::Start::new_marks))]
fn new_marks(cpus: &mut [CpuWords], c: u64)
    ensures { cpus.new ≡ new_marks cpus.old c }
{
    put_word(cpus, c, DECLARED, 0);
    put_word(cpus, c, PLACED, NONE);
    put_word(cpus, c, RUNNING, NONE);
    put_word(cpus, c, OWN_PRIORITY, 0);
    put_word(cpus, c, IS_IDLE, 1);
}

// Its marks to rebalance and of preemption, its draws, and its times.
#[tactic(auto, unfolding(crate::specs::Start::new_numbers))]
fn new_numbers(cpus: &mut [CpuWords], c: u64)
    ensures { cpus.new ≡ new_numbers cpus.old c }
{
    put_word(cpus, c, MUST_REBALANCE, 0);
    put_word(cpus, c, PREEMPT, 0);
    put_word(cpus, c, RAND_STATE, 0);
    put_word(cpus, c, CUR_REBALANCE_TIME, 0);
    put_word(cpus, c, IDLE_TIMESLICE, 0);
}

#[tactic(auto, unfolding(crate::specs::Start::new_cpu_def))]
fn new_cpu(cpus: &mut [CpuWords], c: u64)
    ensures { cpus.new ≡ new_cpu_def cpus.old c }
{
    store_queue(cpus, c, RunQueue::new());
    new_marks(cpus, c);
    new_numbers(cpus, c);
}

// The CPUs below the limit; words past it are kept.
#[tactic(auto, unfolding(crate::specs::Start::new_cpus))]
fn new_cpus(cpus: &mut [CpuWords])
    ensures { cpus.new ≡ new_cpus 64 cpus.old }
{
    for c in 0..MAX_CPUS {
        new_cpu(cpus, c);
    }
}

#[tactic(auto, unfolding(crate::specs::Start::no_room_def))]
fn no_room(threads: &[Thread], cpus: &[CpuWords], nodes: &[NodeWords]) -> bool
    ensures { result ≡ no_room_def (length threads.now) (length cpus.now) (length nodes.now) }
{
    threads.len() < MAX_THREADS as usize
        || cpus.len() < MAX_CPUS as usize
        || nodes.len() < MAX_NODES as usize
}

#[tactic(auto, unfolding(crate::specs::Start::initial))]
fn initial() -> State
    ensures { result ≡ initial }
{
    State {
        cpus: MAX_CPUS,
        nodes: MAX_NODES,
        shortest: SHORTEST,
        wide: false,
        tick: 0,
        sealed: false,
        accepted: 0,
        node_count: 1,
    }
}

// The state, unless a slice is too short, and then nothing is changed. The slices stand apart, as C lends them and
// all three are changed.
#[tactic(auto, unfolding(crate::specs::Start::start_def))]
pub fn start(
    threads: &mut [Thread],
    cpus: &mut [CpuWords],
    nodes: &mut [NodeWords],
) -> Option<State>
    ensures { LeavesAll start_def result threads cpus nodes }
{
    if no_room(threads, cpus, nodes) {
        return None;
    }
    clear(threads);
    new_cpus(cpus);
    new_root(nodes);
    Some(initial())
}
