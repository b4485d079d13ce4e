// What a line is: stripped, ignored or of a kind.

#![tactic(auto)]

pub mod kinds;
pub mod strips;
