// The contacts of zones.

#![tactic(auto)]

pub mod contacts;
