// The choice of a CPU (processor/sched.rs). CPUs and nodes are read, never a thread's record; draws go in and come back by value.
#![tactic(auto)]

pub mod balance;
pub mod find;
pub mod reads;
pub mod select;
pub mod steal;
