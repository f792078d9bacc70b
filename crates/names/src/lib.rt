#![tactic(auto)]
// Definitions of names, and the laws about them.
