// The definitions of the questions, held against the crate by computation.
#![tactic(auto)]
