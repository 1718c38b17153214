// The choices of `balance`: until one moves a thread, twenty steps are made, or a donor has no load. Whether a take hands out a thread depends on the
// words of the donor alone, so a choice is made without the thread records, and the move after it.
ghost use Rattle.std.specs.Prelude.{◌≡◌};
ghost use Rattle.processor.specs.Left.{LeavesOne};
ghost use Rattle.sched_words.specs.Balance.{begun, moved, passed, stopped, without, moving, is_done, hands_out, outcome, pair_step, balance_step_def, find_move};

use crate::context::Context;
use crate::running::set_rebalance;
use choice::balance::choose_cpu_balance;
use processor::cpu::current_load;
use processor::rq::load_queue;
use processor::words::{CpuWords, LOAD, RAND_STATE, put_word, word};
use rules::choice::Pair;
use topology::cpuset::CpuSet;
use topology::words::NodeWords;

pub const MAX_STEPS: u64 = 20;

// The CPUs still allowed, the steps made, whether it goes on, and between which CPUs a thread moves, if one does. A flag beside `moves`: that it goes on
// outlasts the move.
#[derive(Clone, Copy)]
pub struct Balancing {
    pub allowed: CpuSet,
    pub steps: u64,
    pub goes_on: bool,
    pub moves: Option<Pair>,
}

impl Balancing {
    #[tactic(auto, unfolding(crate::specs::Balance::begun))]
    pub fn begun() -> Self
        ensures { result ≡ begun }
    {
        Balancing {
            allowed: CpuSet::all(),
            steps: 0,
            goes_on: true,
            moves: None,
        }
    }

    // The move was made.
    #[tactic(auto, unfolding(crate::specs::Balance::moved))]
    pub fn again(mut self) -> Self
        ensures { result ≡ moved self }
    {
        self.moves = None;
        self
    }

    // A choice that changes nothing more: one step.
    #[tactic(auto, unfolding(crate::specs::Balance::passed, queue::specs::Num::sum))]
    pub fn passed(mut self) -> Self
        ensures { result ≡ passed self }
    {
        self.steps = self.steps.wrapping_add(1);
        self
    }

    #[tactic(auto, unfolding(crate::specs::Balance::stopped))]
    pub fn stopped(mut self) -> Self
        ensures { result ≡ stopped self }
    {
        self.goes_on = false;
        self
    }

    // A choice after which CPU c is no longer allowed.
    #[tactic(auto, unfolding(crate::specs::Balance::without, crate::specs::Balance::passed))]
    pub fn without(self, c: u64) -> Self
        ensures { result ≡ without self c }
    {
        Balancing {
            allowed: self.allowed.remove(c),
            ..self.passed()
        }
    }

    // A move costs its choice and ten more steps, eleven of twenty.
    #[tactic(auto, unfolding(crate::specs::Balance::moving, queue::specs::Num::sum))]
    pub fn moving(self, pair: Pair) -> Self
        ensures { result ≡ moving self pair.donor pair.recipient }
    {
        Balancing {
            allowed: self.allowed.remove(pair.recipient),
            steps: self.steps.wrapping_add(11),
            moves: Some(pair),
            ..self
        }
    }

    // Is there nothing more to choose before the thread has moved?
    #[tactic(auto, unfolding(crate::specs::Balance::is_done))]
    pub fn is_done(self) -> bool
        ensures { result ≡ is_done self }
    {
        self.moves.is_some() || !self.goes_on || MAX_STEPS <= self.steps
    }

    // What a choice comes to. load includes the donor's running thread, waiting is its queue's load; hands: its queue hands out a thread.
    #[tactic(auto, unfolding(crate::specs::Balance::outcome))]
    pub fn outcome(self, pair: Pair, load: u64, waiting: u64, hands: bool) -> Self
        ensures { result ≡ outcome self pair.donor pair.recipient load waiting hands }
    {
        if 0 < waiting && hands {
            self.moving(pair)
        } else if 0 < waiting {
            self.without(pair.recipient)
        } else if load == 1 {
            self.without(pair.donor)
        } else {
            self.passed()
        }
    }
}

// Does the queue of the donor hand out a thread to the recipient?
#[tactic(auto, unfolding(crate::specs::Balance::hands_out))]
pub fn hands_out(cpus: &[CpuWords], pair: Pair) -> bool
    ensures { result ≡ hands_out cpus.now pair.donor pair.recipient }
{
    let q = load_queue(cpus, pair.donor);
    q.front(pair.recipient != pair.donor).is_some()
}

// A pair was chosen: a donor with no load ends it, before it is marked.
#[tactic(auto, unfolding(crate::specs::Balance::pair_step))]
pub fn balance_pair(cpus: &mut [CpuWords], b: Balancing, pair: Pair) -> Balancing
    ensures { LeavesOne (pair_step b pair.donor pair.recipient) result cpus }
{
    let load = current_load(cpus, pair.donor);
    if load == 0 {
        return b.stopped();
    }
    let waiting = word(cpus, pair.donor, LOAD);
    let hands = hands_out(cpus, pair);
    set_rebalance(cpus, pair.donor);
    b.outcome(pair, load, waiting, hands)
}

// One choice, with its draws.
#[tactic(auto, unfolding(crate::specs::Balance::balance_step_def, crate::specs::Balance::chosen_at, crate::specs::Balance::pair_of_def))]
pub fn balance_step(
    cpus: &mut [CpuWords],
    nodes: &[NodeWords],
    k: Context,
    b: Balancing,
) -> Balancing
    ensures { LeavesOne (balance_step_def nodes.now k.us k.limit b) result cpus }
{
    let draws = word(cpus, k.us, RAND_STATE);
    let chosen = choose_cpu_balance(cpus, nodes, k.us, k.limit, b.allowed, draws);
    put_word(cpus, k.us, RAND_STATE, chosen.draws);
    match chosen.found {
        Some(pair) => balance_pair(cpus, b, pair),
        None => b.passed(),
    }
}

// Choices until one moves a thread or it ends: at most twenty.
#[tactic(auto, using(crate::specs::Balance::found_done, crate::specs::Balance::found_next, crate::specs::Balance::found_out, crate::specs::Balance::length_step))]
pub fn find_move(
    cpus: &mut [CpuWords],
    nodes: &[NodeWords],
    k: Context,
    begin: Balancing,
) -> Balancing
    ensures { LeavesOne (find_move 20 nodes.now k.us k.limit (moved begin)) result cpus }
{
    let mut b = begin.again();
    for _i in 0..MAX_STEPS {
        if b.is_done() {
            break;
        }
        b = balance_step(cpus, nodes, k, b);
    }
    b
}
