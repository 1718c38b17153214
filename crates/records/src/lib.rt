// Functions over the thread records that the caller lends, and over the words of the CPUs.
#![tactic(auto)]

pub mod memory;
pub mod record;
pub mod rq;
