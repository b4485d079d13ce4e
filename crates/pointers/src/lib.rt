// The lines whose data are a name.

#![tactic(auto)]

pub mod pointers;
