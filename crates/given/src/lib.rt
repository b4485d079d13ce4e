// The name that x gives.

#![tactic(auto)]

pub mod given;
