// The lines whose data are a text.

#![tactic(auto)]

pub mod texts;
