#![tactic(auto)]
// Definitions of the source run.
