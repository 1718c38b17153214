// No code: that what the scheduler's functions decide and leave, over lent records and words, is what the rules decide and leave, in proofs/.
#![tactic(auto)]
