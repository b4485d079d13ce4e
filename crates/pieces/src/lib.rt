// A byte looked for in a text.

#![tactic(auto)]

pub mod pieces;
