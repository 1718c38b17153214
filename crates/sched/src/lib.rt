// A CPU switches from one thread to the next (processor/sched.rs), over the lent thread records and the words of the CPUs.
#![tactic(auto)]

pub mod preempt;
pub mod schedule;
