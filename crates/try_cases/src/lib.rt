#![tactic(auto)]
// Parts of a program that reads written cases: tokens of a text, and slices that are filled from them.
pub mod lent;
pub mod text;
