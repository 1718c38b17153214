// What a CPU does on hard ticks and stat ticks (processor/sched.rs), over the lent thread records and the words of the CPUs.
#![tactic(auto)]

pub mod balance;
pub mod ticks;
