// SRV records.

#![tactic(auto)]

pub mod srv;
