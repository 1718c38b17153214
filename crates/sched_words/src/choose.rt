// The CPU for a thread whose record is given, and the CPU from which to steal.
ghost use Rattle.std.specs.Prelude.{◌≡◌};
ghost use Rattle.processor.specs.Left.{LeavesOne};
ghost use Rattle.sched_words.specs.Choose.{preferred_of_def, select_for, selected_for, reinsert_at_def, steal_from_def};

use crate::context::Context;
use crate::running::must_rebalance;
use choice::select::select_cpu;
use choice::steal::choose_cpu_steal_via_topo;
use processor::words::{CpuWords, PLACED, word};
use thread::Thread;
use thread::time::Preferred;
use topology::words::NodeWords;

// A choice asks for the CPU alone, pinned or last. A function: `From` between types of other crates is not allowed.
#[tactic(auto, unfolding(crate::specs::Choose::preferred_of_def))]
pub fn preferred_of(p: Option<Preferred>) -> Option<u64>
    ensures { result ≡ preferred_of_def p }
{
    match p? {
        Preferred::Pinned(c) | Preferred::Last(c) => Some(c),
    }
}

// `select_cpu` for the thread; its draws are those of the own CPU. Two clauses, as there: the laws take the two definitions apart.
#[tactic(auto, unfolding(crate::specs::Choose::select_for, crate::specs::Choose::selected_for))]
pub fn select_for(
    cpus: &mut [CpuWords],
    nodes: &[NodeWords],
    k: Context,
    t: Thread,
    avoid: Option<u64>,
) -> Option<u64>
    ensures { (result ≡ select_for cpus.old nodes.now k.us k.limit t avoid)
        × (cpus.new ≡ selected_for cpus.old nodes.now k.us k.limit t avoid) }
{
    let preferred = preferred_of(t.preferred_cpu());
    let pri = t.effective_priority();
    select_cpu(cpus, nodes, k.us, k.limit, preferred, pri, avoid)
}

// Where the thread running goes back into a queue: another CPU if this one must rebalance.
#[tactic(auto, unfolding(crate::specs::Choose::reinsert_at_def))]
pub fn reinsert_at(cpus: &mut [CpuWords], nodes: &[NodeWords], k: Context, t: Thread) -> Option<u64>
    ensures { LeavesOne (reinsert_at_def nodes.now k.us k.limit t) result cpus }
{
    if must_rebalance(cpus, k.us) {
        select_for(cpus, nodes, k, t, Some(k.us))
    } else {
        Some(k.us)
    }
}

// The CPU from which the own CPU steals, looking from its own node upward.
#[tactic(auto, unfolding(crate::specs::Choose::steal_from_def))]
pub fn steal_from(cpus: &[CpuWords], nodes: &[NodeWords], k: Context) -> Option<u64>
    ensures { result ≡ steal_from_def cpus.now nodes.now k.us k.limit }
{
    let node = word(cpus, k.us, PLACED);
    choose_cpu_steal_via_topo(cpus, nodes, k.us, k.limit, node)
}
