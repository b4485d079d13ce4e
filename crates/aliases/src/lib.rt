// The lines that say a host's address.

#![tactic(auto)]

pub mod aliases;
