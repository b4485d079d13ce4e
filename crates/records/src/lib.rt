// Resource records.

#![tactic(auto)]

pub mod resources;
