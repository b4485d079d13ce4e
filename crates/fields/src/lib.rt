// The fault of a field.

#![tactic(auto)]

pub mod faults;
