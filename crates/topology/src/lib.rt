// Sets of CPU numbers, and the tree of nodes in lent words (processor/sched.rs).
#![tactic(auto)]

pub mod cpuset;
// The tree of nodes (CPUTopoNode, processor/sched.rs) in lent words. Node 0 is the root; a node's children come after it and are in number order.
pub mod node;
pub mod words;
