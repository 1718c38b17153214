// No code: that the text of a command means that command, in proofs/.
#![tactic(auto)]
