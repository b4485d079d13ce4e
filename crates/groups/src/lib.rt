// IPv6: the groups of an address.

#![tactic(auto)]

pub mod groups;
