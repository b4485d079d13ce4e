// Address records.

#![tactic(auto)]

pub mod a_aaaa;
