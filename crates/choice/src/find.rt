// The search of the tree for the CPU with the lowest score (`find_cpu_from_topo`).
// CPUs, nodes, the CPU that asks and the limit are parameters of their own. Tried as fields of a struct: each clause gets longer, and most functions ask for
// fewer.
ghost use Rattle.std.specs.Prelude.{◌≡◌, ◌-◌};
ghost use Rattle.rules.specs.Choice.{lower, find_cpu};
ghost use Rattle.topology.specs.Node.{contains_at};
ghost use Rattle.topology.specs.Walk.{those_from, leaf_cpus, visited_at};
ghost use Rattle.choice.specs.Reads.{weight_at, skips_at};
ghost use Rattle.choice.specs.Found.{weighed, considered, begun};

use crate::reads::{score, skips};
use processor::cpu::current_load;
use processor::random::next_state;
use processor::words::CpuWords;
use rules::Priority;
use rules::choice::{Best, Searched};
use topology::node::{NEXT, contains, end, first, has_children};
use topology::words::{NodeWords, word};

#[tactic(auto, unfolding(crate::specs::Found::begun))]
pub fn begin(draws: u64) -> Searched
    ensures { result ≡ begun draws }
{
    Searched { found: None, draws }
}

// The first of equals wins.
#[tactic(auto, unfolding(rules::specs::Choice::lower))]
pub fn lower(found: Option<Best>, score: u64, cpu: u64) -> Option<Best>
    ensures { result ≡ lower found score cpu }
{
    match found {
        Some(best) if best.score <= score => found,
        _ => Some(Best { score, cpu }),
    }
}

// A CPU that is not skipped: one draw, and its score beside the lowest so far. `balance::raise` has the same two lines: a common function would answer a pair,
// under a clause of its own, to be taken apart in each.
#[tactic(auto, unfolding(crate::specs::Found::weighed, crate::specs::Reads::weight_at))]
pub fn weigh(cpus: &[CpuWords], us: u64, c: u64, so_far: Searched) -> Searched
    ensures { result ≡ weighed us (weight_at cpus.now) c so_far }
{
    let draws = next_state(us, so_far.draws);
    let s = score(current_load(cpus, c), draws);
    Searched {
        found: lower(so_far.found, s, c),
        draws,
    }
}

// One number of a leaf's range: weighed if it is a CPU of the leaf and is not skipped.
#[tactic(auto, unfolding(crate::specs::Found::considered))]
pub fn consider(
    cpus: &[CpuWords],
    nodes: &[NodeWords],
    us: u64,
    pri: Option<Priority>,
    n: u64,
    c: u64,
    so_far: Searched,
) -> Searched
    ensures { result
        ≡ considered us (skips_at cpus.now pri) (weight_at cpus.now) (contains_at nodes.now n) c so_far }
{
    if contains(nodes, n, c) && !skips(cpus, pri, c) {
        weigh(cpus, us, c, so_far)
    } else {
        so_far
    }
}

// The CPUs of a node from one number to below another, ascending. A loop, as in `balance_range`: a fold of both over a closure asks more and is longer.
#[tactic(auto, using(crate::specs::Found::find_end, crate::specs::Found::find_turn))]
pub fn search_range(
    cpus: &[CpuWords],
    nodes: &[NodeWords],
    us: u64,
    pri: Option<Priority>,
    n: u64,
    from: u64,
    to: u64,
    so_far: Searched,
) -> Searched
    ensures { result
        ≡ find_cpu us (skips_at cpus.now pri) (weight_at cpus.now) (those_from (contains_at nodes.now n) from (to - from))
        (so_far) }
{
    let mut f = so_far;
    for c in from..to {
        f = consider(cpus, nodes, us, pri, n, c, f);
    }
    f
}

// The CPUs of a leaf; a node with children has none to look at.
#[tactic(auto, unfolding(topology::specs::Walk::leaf_cpus, rules::specs::Choice::find_cpu, topology::specs::Walk::cpus_at))]
pub fn search_leaf(
    cpus: &[CpuWords],
    nodes: &[NodeWords],
    us: u64,
    limit: u64,
    pri: Option<Priority>,
    n: u64,
    so_far: Searched,
) -> Searched
    ensures { result
        ≡ find_cpu us (skips_at cpus.now pri) (weight_at cpus.now) (leaf_cpus nodes.now limit n) so_far }
{
    if has_children(nodes, n) {
        return so_far;
    }
    let from = first(nodes, n);
    let to = end(nodes, n, limit);
    search_range(cpus, nodes, us, pri, n, from, to, so_far)
}

// All leaves in their order, the CPUs of each ascending: the lowest score, one draw for each CPU that is not skipped, the first of equals.
#[tactic(auto, using(crate::specs::Found::find_node), unfolding(topology::specs::Walk::visited_at, topology::specs::Walk::to_root, rules::specs::State::join_all, rules::specs::Choice::find_cpu))]
pub fn find_cpu_from_topo(
    cpus: &[CpuWords],
    nodes: &[NodeWords],
    us: u64,
    limit: u64,
    pri: Option<Priority>,
    draws: u64,
) -> Searched
    ensures { result
        ≡ find_cpu us (skips_at cpus.now pri) (weight_at cpus.now) (visited_at nodes.now limit) (begun draws) }
{
    let mut f = begin(draws);
    let mut n = word(nodes, 0, NEXT);
    for _i in 0..nodes.len() {
        f = search_leaf(cpus, nodes, us, limit, pri, n, f);
        if n == 0 {
            return f;
        }
        n = word(nodes, n, NEXT);
    }
    f
}
