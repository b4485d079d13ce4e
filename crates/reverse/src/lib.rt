// The reverse names of addresses.

#![tactic(auto)]

pub mod reverse;
