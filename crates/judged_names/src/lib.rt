// Names judged.

#![tactic(auto)]

pub mod judged;
