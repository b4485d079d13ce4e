// The line of a location.

#![tactic(auto)]

pub mod locations;
