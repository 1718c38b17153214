// One CPU in lent words (processor.rs, and the thread-locals of utils.rs and sched.rs): its run queue, what it runs, its marks, its draws.
#![tactic(auto)]

pub mod cpu;
pub mod random;
pub mod rq;
pub mod words;
