// SOA records.

#![tactic(auto)]

pub mod soa;
