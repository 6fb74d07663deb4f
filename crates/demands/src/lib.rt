// The demands on step and run, as theorems about the definitions of dispatcher. No code.
#![tactic(auto)]
