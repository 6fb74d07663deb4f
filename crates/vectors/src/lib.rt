// Worked examples that take long to compute: the vectors of the figures, of ask and commit.
#![tactic(auto)]
