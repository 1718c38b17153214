// The CPU that gives a thread and the one that gets it (`choose_cpu_balance`).
// CPUs, nodes, the CPU that asks and the limit are parameters of their own. Tried as fields of a struct: each clause gets longer, and most functions ask for
// fewer.
ghost use Rattle.std.specs.Prelude.{◌≡◌, ◌-◌, ◌&&◌};
ghost use Rattle.rules.specs.Choice as rule;
ghost use Rattle.rules.specs.Choice.{extremes, choose_cpu_balance};
ghost use Rattle.topology.specs.CpuSet as set;
ghost use Rattle.topology.specs.Node.{contains_at};
ghost use Rattle.topology.specs.Walk.{those_from, cpus_at};
ghost use Rattle.choice.specs.Reads.{weight_at};
ghost use Rattle.choice.specs.Balance.{raised, unraised};

use crate::find::lower;
use crate::reads::score;
use processor::cpu::current_load;
use processor::random::next_state;
use processor::words::CpuWords;
use rules::choice::{Best, Chosen, Extremes, Pair};
use topology::cpuset::CpuSet;
use topology::node::{contains, end, first};
use topology::words::NodeWords;

// CPU 0 has the highest score, 0, at first.
#[tactic(auto, unfolding(crate::specs::Balance::unraised))]
pub fn start(draws: u64) -> Extremes
    ensures { result ≡ unraised draws }
{
    Extremes {
        highest: 0,
        highest_score: 0,
        lowest: None,
        draws,
    }
}

// A CPU is tested for the lowest only if it did not raise the highest.
#[tactic(auto, unfolding(rules::specs::Choice::weigh))]
pub fn weigh(e: Extremes, s: u64, c: u64, draws: u64) -> Extremes
    ensures { result ≡ rule.weigh e s c draws }
{
    if e.highest_score < s {
        Extremes {
            highest: c,
            highest_score: s,
            draws,
            ..e
        }
    } else {
        Extremes {
            lowest: lower(e.lowest, s, c),
            draws,
            ..e
        }
    }
}

#[tactic(auto, unfolding(crate::specs::Balance::raised, crate::specs::Reads::weight_at))]
pub fn raise(cpus: &[CpuWords], us: u64, c: u64, e: Extremes) -> Extremes
    ensures { result ≡ raised us (weight_at cpus.now) c e }
{
    let draws = next_state(us, e.draws);
    let s = score(current_load(cpus, c), draws);
    weigh(e, s, c, draws)
}

// Is this number a CPU of the node that is allowed?
fn counts(nodes: &[NodeWords], allowed: CpuSet, n: u64, c: u64) -> bool
    ensures { result ≡ (contains_at nodes.now n c && set.contains allowed c) }
{
    contains(nodes, n, c) && allowed.contains(c)
}

// The CPUs from one number to below another, ascending. A loop, as in `search_range`.
#[tactic(auto, using(crate::specs::Balance::extremes_end, crate::specs::Balance::extremes_no, crate::specs::Balance::extremes_yes))]
pub fn balance_range(
    cpus: &[CpuWords],
    nodes: &[NodeWords],
    us: u64,
    allowed: CpuSet,
    n: u64,
    from: u64,
    to: u64,
    so_far: Extremes,
) -> Extremes
    ensures { result
        ≡ extremes us (set.contains allowed) (weight_at cpus.now) (those_from (contains_at nodes.now n) from (to - from)) so_far }
{
    let mut e = so_far;
    for c in from..to {
        if counts(nodes, allowed, n, c) {
            e = raise(cpus, us, c, e);
        }
    }
    e
}

#[tactic(auto, unfolding(rules::specs::Choice::pair_of))]
pub fn pair_of(highest: u64, lowest: Option<Best>) -> Option<Pair>
    ensures { result ≡ rule.pair_of highest lowest }
{
    match lowest {
        Some(best) if best.cpu != highest => Some(Pair {
            donor: highest,
            recipient: best.cpu,
        }),
        _ => None,
    }
}

// Over the CPUs of the root that are allowed, ascending: one draw for each.
#[tactic(auto, unfolding(rules::specs::Choice::choose_cpu_balance, topology::specs::Walk::cpus_at, crate::specs::Balance::unraised, crate::specs::Balance::finished))]
pub fn choose_cpu_balance(
    cpus: &[CpuWords],
    nodes: &[NodeWords],
    us: u64,
    limit: u64,
    allowed: CpuSet,
    draws: u64,
) -> Chosen
    ensures { result
        ≡ choose_cpu_balance us (set.contains allowed) (weight_at cpus.now) (cpus_at nodes.now limit 0) draws }
{
    let from = first(nodes, 0);
    let to = end(nodes, 0, limit);
    let e = balance_range(cpus, nodes, us, allowed, 0, from, to, start(draws));
    Chosen {
        found: pair_of(e.highest, e.lowest),
        draws: e.draws,
    }
}
