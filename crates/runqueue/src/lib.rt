// The run queue of one CPU, by value (rq.rs).
#![tactic(auto)]

pub mod rq;
