// Questions about CPUs.
ghost use Rattle.std.specs.Prelude.{◌≡◌};
ghost use Rattle.questions.specs.Questions.{declared, cpu_new, cpu_unplaced, pin_declared, placed_with, all_placed_below, all_placed};

use crate::state::State;
use processor::words::{CpuWords, DECLARED, PLACED, word};
use thread::NONE;

// The words, and the state with its limit of CPU numbers, stand apart, as a command has them: one struct would be made for each question that asks both.

#[tactic(auto, unfolding(crate::specs::Questions::declared))]
pub fn declared(cpus: &[CpuWords], state: State, c: u64) -> bool
    ensures { result ≡ declared cpus.now state c }
{
    c < state.cpus && 0 < word(cpus, c, DECLARED)
}

#[tactic(auto, unfolding(crate::specs::Questions::cpu_new, rules::specs::Questions::question))]
pub fn new(cpus: &[CpuWords], state: State, c: u64) -> bool
    ensures { result ≡ (cpu_new cpus.now state c).answer }
{
    c < state.cpus && word(cpus, c, DECLARED) == 0
}

#[tactic(auto, unfolding(crate::specs::Questions::cpu_unplaced, rules::specs::Questions::question))]
pub fn unplaced(cpus: &[CpuWords], state: State, c: u64) -> bool
    ensures { result ≡ (cpu_unplaced cpus.now state c).answer }
{
    declared(cpus, state, c) && word(cpus, c, PLACED) == NONE
}

#[tactic(auto, unfolding(crate::specs::Questions::pin_declared, rules::specs::Questions::question, crate::specs::Questions::cpu_declared))]
pub fn pin_declared(cpus: &[CpuWords], state: State, pin: Option<u64>) -> bool
    ensures { result ≡ (pin_declared cpus.now state pin).answer }
{
    pin.is_none_or(|c| declared(cpus, state, c))
}

// Question 9 for CPUs 0 to n, from the answer for those before n and the words of CPU n. CPU 0 must be declared.
#[tactic(auto, unfolding(rules::specs::Questions::placed_with))]
pub fn placed_with(cpus: &[CpuWords], answer: bool, n: u64) -> bool
    ensures { result ≡ placed_with cpus.now answer n }
{
    let declared = 0 < word(cpus, n, DECLARED);
    let so_far = if n == 0 { declared } else { answer };
    so_far && (!declared || word(cpus, n, PLACED) != NONE)
}

// Question 9 for the CPUs below end alone, in one pass over their numbers.
#[tactic(auto, unfolding(rules::specs::Questions::all_placed_below))]
pub fn all_placed_below(cpus: &[CpuWords], end: u64) -> bool
    ensures { result ≡ all_placed_below cpus.now end }
{
    let mut answer = false;
    for n in 0u64..end {
        answer = placed_with(cpus, answer, n);
    }
    answer
}

// Question 9. Past the rows lent no CPU is declared.
#[tactic(auto, using(crate::proofs::Asking::in_rows), unfolding(crate::specs::Questions::all_placed, rules::specs::Questions::question))]
pub fn all_placed(cpus: &[CpuWords], state: State) -> bool
    ensures { result ≡ (all_placed cpus.now state).answer }
{
    all_placed_below(cpus, state.cpus.min(cpus.len() as u64))
}
