// No code: that a stream fed block by block gives the rules' output of the stream, and that a lent buffer of 48 bytes holds the line of every call whole, in specs/ and proofs/.
#![tactic(auto)]
