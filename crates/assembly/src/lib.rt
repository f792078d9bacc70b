#![tactic(auto)]
// Definitions of the lines, their numbers and their text, and their laws; the numbers of their kinds for the code.
pub mod line;
