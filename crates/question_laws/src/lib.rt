// No code: what lent memory and the state by value stand for, and that the questions and the plain commands are those of the rules, in specs/ and proofs/.
#![tactic(auto)]
