// The first fault of a line.

#![tactic(auto)]

pub mod judge;
