// time.

#![tactic(auto)]

pub mod times;
