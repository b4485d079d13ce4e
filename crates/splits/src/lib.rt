// A line split into its fields.

#![tactic(auto)]

pub mod splits;
