// IPv4: the numbers of an address or a prefix.

#![tactic(auto)]

pub mod octets;
