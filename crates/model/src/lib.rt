// The reference model and the stream of events: definitions in specs/, theorems in proofs/. No code.
#![tactic(auto)]
