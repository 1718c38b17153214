// No code: that one call over lent memory leaves and answers what one step of the rules does, in specs/ and proofs/.
#![tactic(auto)]
