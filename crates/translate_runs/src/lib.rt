#![tactic(auto)]
// The theorem of the two runs for calls of `translate::translate`.
