// No code: that `balance` and the stat tick over lent records and words are those of the rules, in proofs/.
#![tactic(auto)]
