// The CPU from which to steal (`choose_cpu_steal_via_topo`): the CPUs of the own leaf, ascending, then those of each node above it.
// CPUs, nodes, the CPU that asks and the limit are parameters of their own. Tried as fields of a struct: each clause gets longer, and most functions ask for
// fewer.
ghost use Rattle.std.specs.Prelude.{◌≡◌, ◌&&◌, ◌-◌};
ghost use Rattle.rules.specs.Choice.{may_steal_from, first_that};
ghost use Rattle.topology.specs.Node.{contains_at};
ghost use Rattle.topology.specs.Walk.{those_from, cpus_at, nearest_at};
ghost use Rattle.choice.specs.Reads.{load_at, movable_at};

use crate::reads::movable;
use processor::cpu::current_load;
use processor::words::CpuWords;
use topology::node::{PARENT, contains, end, first};
use topology::words::{NodeWords, word};

// The running thread is counted.
pub const STEAL_LOAD_THRESH: u64 = 2;

#[tactic(auto, unfolding(rules::specs::Choice::may_steal_from))]
pub fn may_steal_from(cpus: &[CpuWords], us: u64, c: u64) -> bool
    ensures { result ≡ may_steal_from us (load_at cpus.now) (movable_at cpus.now) c }
{
    c != us && STEAL_LOAD_THRESH <= current_load(cpus, c) && 0 < movable(cpus, c)
}

// Is this number a CPU of the node from which a thread may be stolen?
pub fn is_donor(cpus: &[CpuWords], nodes: &[NodeWords], us: u64, n: u64, c: u64) -> bool
    ensures { result ≡ (contains_at nodes.now n c && may_steal_from us (load_at cpus.now) (movable_at cpus.now) c) }
{
    contains(nodes, n, c) && may_steal_from(cpus, us, c)
}

#[tactic(auto, using(crate::specs::Steal::first_end, crate::specs::Steal::first_turn))]
pub fn steal_range(
    cpus: &[CpuWords],
    nodes: &[NodeWords],
    us: u64,
    n: u64,
    from: u64,
    to: u64,
) -> Option<u64>
    ensures { result
        ≡ (first_that (may_steal_from us (load_at cpus.now) (movable_at cpus.now)) (those_from (contains_at nodes.now n) from (to - from))) }
{
    (from..to).find(|c| is_donor(cpus, nodes, us, n, *c))
}

#[tactic(auto, unfolding(topology::specs::Walk::cpus_at))]
pub fn steal_node(
    cpus: &[CpuWords],
    nodes: &[NodeWords],
    us: u64,
    limit: u64,
    n: u64,
) -> Option<u64>
    ensures { result ≡ (first_that (may_steal_from us (load_at cpus.now) (movable_at cpus.now)) (cpus_at nodes.now limit n)) }
{
    steal_range(cpus, nodes, us, n, first(nodes, n), end(nodes, n, limit))
}

// `node` is the leaf of CPU `us`.
#[tactic(auto, using(crate::specs::Steal::first_here, crate::specs::Steal::first_on, crate::specs::Steal::found_so), unfolding(topology::specs::Walk::nearest_at, topology::specs::Walk::to_root, rules::specs::State::join_all, rules::specs::Choice::first_that))]
pub fn choose_cpu_steal_via_topo(
    cpus: &[CpuWords],
    nodes: &[NodeWords],
    us: u64,
    limit: u64,
    node: u64,
) -> Option<u64>
    ensures { result
        ≡ (first_that (may_steal_from us (load_at cpus.now) (movable_at cpus.now)) (nearest_at nodes.now limit node)) }
{
    let mut n = node;
    for _i in 0..nodes.len() {
        let found = steal_node(cpus, nodes, us, limit, n);
        if found.is_some() || n == 0 {
            return found;
        }
        n = word(nodes, n, PARENT);
    }
    None
}
