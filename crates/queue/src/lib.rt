// The parts of a run queue, by value (timeshare.rs, rq.rs). Lists run through the thread records: a thread's link is a field of its record, and what
// is here holds the first and the last thread of each list only. A put answers whose link to set; a take is told the link of the thread that leaves.
#![tactic(auto)]

pub mod entry;
pub mod lists;
pub mod pq;
pub mod table;
pub mod timeshare;
