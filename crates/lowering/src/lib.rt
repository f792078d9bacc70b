#![tactic(auto)]
// Definitions of the translation.
