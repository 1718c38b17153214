// No code: that the choice of a CPU over words is the choice of the rules, in proofs/.
#![tactic(auto)]
