// What a command asks, the questions put to it, and the state that it leaves.
ghost use Rattle.std.specs.Prelude.{◌≡◌, IfOk, Ok};
ghost use Rattle.std.specs.Result.{result_err};
ghost use Rattle.request.specs.Request.{reading_of};
ghost use Rattle.questions.specs.Questions.{refusal_in};
ghost use Rattle.outcome.specs.Call.{asked_def, refusal_back, thread_in, priority_in, context_of, flags_in, ticked, sealed_now, with_shortest, one_node_more};

use lines::Refusal;
use processor::words::CpuWords;
use questions::refusal::refusal_of;
use questions::state::State;
use request::{Asked, Reading, Request, read};
use rules::Priority;
use sched_words::context::{Context, SchedFlags};
use thread::Thread;
use thread::priority::class_at;
use topology::cpuset::MAX_CPU_ID;
use topology::words::NodeWords;

// What the bytes from `at` to below n ask. Place and length are beside them as C gives them (`scheduler_feed`), also past their end.
#[tactic(auto, using(crate::specs::Call::reading_again, std::proofs::lemmas::List::take_min))]
pub fn asked(bytes: &[u8], n: usize, at: usize, wide: bool) -> Reading
    ensures { result ≡ asked_def bytes.now n at wide }
{
    read(&bytes[..n.min(bytes.len())], at, wide)
}

// What was read, unless a question is answered no; t is the record of the thread that it names. It is `refusal_of` under the
// clause that a command's definitions use.
#[tactic(auto, using(crate::specs::Call::judged_again))]
pub fn judged(
    cpus: &[CpuWords],
    nodes: &[NodeWords],
    state: State,
    t: Thread,
    reading: Reading,
) -> Result<Asked, Refusal>
    ensures refused { result_err result ≡ refusal_back (refusal_in cpus.now nodes.now state t (reading_of reading)) }
    ensures asks { IfOk result (λ a. reading ≡ Ok a) }
{
    refusal_of(cpus, nodes, state, t, reading)
}

// The thread that is named.
#[tactic(auto, unfolding(crate::specs::Call::thread_in, crate::specs::Call::thread_named, request::specs::Request::reading_of, request::specs::Request::request_of))]
pub fn thread_named(reading: Reading) -> Option<u64>
    ensures { result ≡ thread_in (reading_of reading) }
{
    let Ok(asked) = reading else {
        return None;
    };
    match asked.request {
        Request::DeclareThread { thread, .. }
        | Request::ScheduleThread { thread, .. }
        | Request::Donate { thread, .. }
        | Request::RemoveDonation { thread }
        | Request::SetCritical { thread, .. } => Some(thread),
        _ => None,
    }
}

// Of operands as they came in: that they mean a class and a value is question 6.
#[tactic(auto, unfolding(crate::specs::Call::priority_in))]
pub fn priority_in(class: u64, value: u64) -> Priority
    ensures { result ≡ priority_in class value }
{
    Priority {
        class: class_at(class),
        value,
    }
}

// The CPU that runs the command, the tick, the shortest timeslice, and the limit of CPU numbers, which no set of CPUs exceeds: so a search ends soon
// whatever the state says.
#[tactic(auto, unfolding(crate::specs::Call::context_of, topology::specs::CpuSet::max_cpu_id, topology::specs::Node::lesser))]
pub fn context_of(state: State, cpu: u64) -> Context
    ensures { result ≡ context_of state cpu }
{
    Context {
        us: cpu,
        tick: state.tick,
        shortest: state.shortest,
        limit: state.cpus.min(MAX_CPU_ID),
    }
}

// The bits of an operand. No `From`: both types are of other crates, and that of the flags knows no operands.
#[tactic(auto, unfolding(crate::specs::Call::flags_in))]
pub fn flags_in(flags: u64) -> SchedFlags
    ensures { result ≡ flags_in flags }
{
    SchedFlags {
        yields: flags % 2 == 1,
        preempt: flags / 2 % 2 == 1,
        reinsert: flags / 4 % 2 == 1,
    }
}

// The states that a command leaves, before it is counted.
#[tactic(auto, unfolding(crate::specs::Call::ticked))]
pub fn ticked(state: State, tick: u64) -> State
    ensures { result ≡ ticked state tick }
{
    State { tick, ..state }
}

#[tactic(auto, unfolding(crate::specs::Call::sealed_now))]
pub fn sealed(state: State) -> State
    ensures { result ≡ sealed_now state }
{
    State {
        sealed: true,
        ..state
    }
}

#[tactic(auto, unfolding(crate::specs::Call::with_shortest))]
pub fn with_shortest(state: State, ticks: u64) -> State
    ensures { result ≡ with_shortest state ticks }
{
    State {
        shortest: ticks,
        ..state
    }
}

#[tactic(auto, unfolding(crate::specs::Call::one_node_more))]
pub fn one_node_more(state: State) -> State
    ensures { result ≡ one_node_more state }
{
    State {
        node_count: state.node_count.wrapping_add(1),
        ..state
    }
}
