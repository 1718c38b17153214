// No code: the three demands, of what lists of calls leave in the lent memory, in specs/ and proofs/.
#![tactic(auto)]
