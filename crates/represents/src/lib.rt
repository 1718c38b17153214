// No code: what lent memory shows of the rules' state (run queues, thread records, the words of CPUs, the tree of nodes), and that each function over it is the
// rules' function, in proofs/.
#![tactic(auto)]
