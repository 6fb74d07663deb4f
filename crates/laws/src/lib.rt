// Definitions and laws on lists, on reading by an index, and on bits, which the proofs of the other crates cite: specs/ and proofs/. No code.
#![tactic(auto)]
