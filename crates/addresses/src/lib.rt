// Addresses.

#![tactic(auto)]

pub mod address;
pub mod addresses;
mod groups_bytes;
