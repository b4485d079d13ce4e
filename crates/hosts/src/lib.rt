// What a line says of a host.

#![tactic(auto)]

pub mod hosts;
