// Prefixes.

#![tactic(auto)]

pub mod prefixes;
