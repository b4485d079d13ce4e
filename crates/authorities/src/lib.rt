// The line of an authority.

#![tactic(auto)]

pub mod authorities;
