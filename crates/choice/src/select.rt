// The CPU for a thread (`select_cpu`).
// CPUs, nodes, the CPU that asks and the limit are parameters of their own. Tried as fields of a struct: each clause gets longer, and most functions ask for
// fewer.
ghost use Rattle.std.specs.Prelude.{◌≡◌};
ghost use Rattle.rules.specs.Schedule.{same_cpu};
ghost use Rattle.choice.specs.Select.{runs_at_once, at_once, cpu_found, accepted, search_twice, select_cpu, after_select};

use crate::find::find_cpu_from_topo;
use crate::reads::queue_load;
use processor::cpu::current_priority;
use processor::words::{CpuWords, RAND_STATE, put_word, word};
use rules::Priority;
use rules::choice::{Best, Searched};
use topology::words::NodeWords;

// Is the CPU the one named? The rules' word, by which the definitions ask.
#[tactic(auto, unfolding(rules::specs::Schedule::same_cpu))]
pub fn same_cpu(c: u64, avoid: Option<u64>) -> bool
    ensures { result ≡ same_cpu c avoid }
{
    avoid == Some(c)
}

// 1: the CPU is not to be avoided, and nobody waits there or the thread is above its priority.
#[tactic(auto, using(thread::proofs::Order::less_derived), unfolding(crate::specs::Select::runs_at_once))]
pub fn runs_at_once(cpus: &[CpuWords], c: u64, pri: Priority, avoid: Option<u64>) -> bool
    ensures { result ≡ runs_at_once cpus.now pri avoid c }
{
    !same_cpu(c, avoid) && (queue_load(cpus, c) == 0 || current_priority(cpus, c) < pri)
}

#[tactic(auto, unfolding(crate::specs::Select::at_once))]
pub fn at_once(cpus: &[CpuWords], preferred: Option<u64>, pri: Priority, avoid: Option<u64>) -> bool
    ensures { result ≡ at_once cpus.now pri avoid preferred }
{
    preferred.is_some_and(|c| runs_at_once(cpus, c, pri, avoid))
}

#[tactic(auto, unfolding(crate::specs::Select::cpu_found))]
pub fn cpu_found(found: Option<Best>) -> Option<u64>
    ensures { result ≡ cpu_found found }
{
    found.map(|best| best.cpu)
}

// Was a CPU found that is not to be avoided?
#[tactic(auto, unfolding(crate::specs::Select::accepted))]
pub fn accepted(found: Option<Best>, avoid: Option<u64>) -> bool
    ensures { result ≡ accepted avoid found }
{
    found.is_some_and(|best| !same_cpu(best.cpu, avoid))
}

// 2: the least loaded that will run the thread at once, if it is not to be avoided; else 3: the least loaded of all.
#[tactic(auto, unfolding(crate::specs::Select::search_twice, crate::specs::Select::search_again, crate::specs::Select::search_from))]
pub fn search_twice(
    cpus: &[CpuWords],
    nodes: &[NodeWords],
    us: u64,
    limit: u64,
    pri: Priority,
    avoid: Option<u64>,
    draws: u64,
) -> Searched
    ensures { result ≡ search_twice cpus.now nodes.now us limit pri avoid draws }
{
    let f = find_cpu_from_topo(cpus, nodes, us, limit, Some(pri), draws);
    if accepted(f.found, avoid) {
        f
    } else {
        find_cpu_from_topo(cpus, nodes, us, limit, None, f.draws)
    }
}

// Writes the draw state of CPU `us` and nothing else. What it answers and what it leaves are a definition each: the laws take them apart.
#[tactic(auto, unfolding(crate::specs::Select::select_cpu, crate::specs::Select::after_select))]
pub fn select_cpu(
    cpus: &mut [CpuWords],
    nodes: &[NodeWords],
    us: u64,
    limit: u64,
    preferred: Option<u64>,
    pri: Priority,
    try_avoid: Option<u64>,
) -> Option<u64>
    ensures { (result ≡ (select_cpu cpus.old nodes.now us limit preferred pri try_avoid))
        × (cpus.new ≡ after_select cpus.old nodes.now us limit preferred pri try_avoid) }
{
    if at_once(cpus, preferred, pri, try_avoid) {
        return preferred;
    }
    let draws = word(cpus, us, RAND_STATE);
    let f = search_twice(cpus, nodes, us, limit, pri, try_avoid, draws);
    put_word(cpus, us, RAND_STATE, f.draws);
    cpu_found(f.found)
}
