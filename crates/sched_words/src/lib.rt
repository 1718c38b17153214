// What the scheduler decides (processor/sched.rs), by value and over the words of the CPUs. The thread running on a CPU is a word, NONE while it is the
// idle thread: its record is then past every slice, so blank, (Idle, 0), not critical.
#![tactic(auto)]

pub mod balance;
pub mod choose;
pub mod context;
pub mod donate;
pub mod preempt;
pub mod rebalance;
pub mod running;
pub mod signal;
pub mod time;
