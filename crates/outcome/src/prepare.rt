// The commands before the seal: they change the words of CPUs and nodes, and the state, alone.
ghost use Rattle.std.specs.Prelude.{◌≡◌};
ghost use Rattle.processor.specs.Words.{put_word};
ghost use Rattle.topology.specs.Node.{add_child, set_cpu};
ghost use Rattle.processor.specs.Word.{DECLARED, PLACED};
ghost use Rattle.outcome.specs.Answer.{changed};
ghost use Rattle.outcome.specs.Call.{sealed_now, with_shortest, one_node_more};

use crate::answer::{Answered, changed};
use crate::call::{one_node_more, sealed, with_shortest};
use processor::words::{CpuWords, DECLARED, PLACED, put_word};
use questions::state::State;
use topology::node::{add_child, set_cpu};
use topology::words::NodeWords;

pub fn declare_cpu(cpus: &mut [CpuWords], state: State, cpu: u64, used: usize) -> Answered
    ensures { (result ≡ changed state used) × (cpus.new ≡ put_word cpus.old cpu DECLARED 1) }
{
    put_word(cpus, cpu, DECLARED, 1);
    changed(state, used)
}

// kind is the operand as it came in: that it means a type of node is question 6.
pub fn add_node(
    nodes: &mut [NodeWords],
    state: State,
    parent: u64,
    kind: u64,
    used: usize,
) -> Answered
    ensures { (result ≡ changed (one_node_more state) used) × (nodes.new ≡ add_child nodes.old state.node_count parent kind) }
{
    add_child(nodes, state.node_count, parent, kind);
    changed(one_node_more(state), used)
}

pub fn place_cpu(
    cpus: &mut [CpuWords],
    nodes: &mut [NodeWords],
    state: State,
    node: u64,
    cpu: u64,
    used: usize,
) -> Answered
    ensures { (result ≡ changed state used) × ((cpus.new ≡ put_word cpus.old cpu PLACED node) × (nodes.new ≡ set_cpu nodes.old node cpu)) }
{
    set_cpu(nodes, node, cpu);
    put_word(cpus, cpu, PLACED, node);
    changed(state, used)
}

// The state alone is changed: from the start each CPU runs its idle thread and is marked idle.
pub fn seal(state: State, used: usize) -> Answered
    ensures { result ≡ changed (sealed_now state) used }
{
    changed(sealed(state), used)
}

pub fn set_shortest(state: State, ticks: u64, used: usize) -> Answered
    ensures { result ≡ changed (with_shortest state ticks) used }
{
    changed(with_shortest(state, ticks), used)
}
