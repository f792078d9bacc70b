#![tactic(auto)]
// Definitions of the stack machine.
