#![tactic(auto)]
// Definitions of the sizes, alignments and offsets of types, and their laws.
