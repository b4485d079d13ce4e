// Bytes put at the front of a lent buffer.

#![tactic(auto)]

pub mod filled;
pub mod put;
