// The lines of a zone and of a delegation.

#![tactic(auto)]

pub mod zones;
