// lo.

#![tactic(auto)]

pub mod codes;
