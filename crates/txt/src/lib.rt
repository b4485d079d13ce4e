// TXT records.

#![tactic(auto)]

pub mod txt;
