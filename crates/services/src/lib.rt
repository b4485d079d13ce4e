// The line of a service.

#![tactic(auto)]

pub mod services;
