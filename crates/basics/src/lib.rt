// Definitions and laws that every crate may use; no code.
#![tactic(auto)]
