// The values of a line's fields.

#![tactic(auto)]

pub mod values;
