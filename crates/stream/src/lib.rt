// The library's start, and a stream of commands fed block by block.
#![tactic(auto)]

pub mod block;
pub mod feed;
pub mod progress;
pub mod start;
