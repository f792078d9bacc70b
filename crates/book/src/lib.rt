#![tactic(auto)]
// Definitions of the book, the laws about them, and for the code the numbers of its entries and of the work words, its operations and the refusals.
pub mod entry;
pub mod ops;
pub mod refusal;
pub mod work;
