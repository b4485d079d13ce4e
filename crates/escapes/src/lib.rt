// Texts with escapes.

#![tactic(auto)]

pub mod texts;
