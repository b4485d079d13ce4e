// A good line's records written into the front of a lent buffer.

#![tactic(auto)]

pub mod line;
