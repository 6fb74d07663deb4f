// Demand 3 for the calls for hosts, as theorems about what their contracts say. No code.
#![tactic(auto)]
