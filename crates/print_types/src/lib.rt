#![tactic(auto)]
// Where a name stands among the names, and the text of a type.
pub mod starts;
pub mod types;
