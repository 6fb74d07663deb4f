// The standard's defaults and the former ones: what a table gives under both, as theorems about the definitions of dispatcher and forecast. No code.
#![tactic(auto)]
