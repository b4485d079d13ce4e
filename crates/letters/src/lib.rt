// ASCII letters: which they are, and lowered by a table.

#![tactic(auto)]

pub mod ascii;
pub mod letters;
