// Threads go into queues and come out of them, and are given priorities (processor/sched.rs), over the lent thread records and the words of the CPUs.
#![tactic(auto)]

pub mod donate;
pub mod queues;
