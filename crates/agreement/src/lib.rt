#![tactic(auto)]
// The theorem of the two runs.
