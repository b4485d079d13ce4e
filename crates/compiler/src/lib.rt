// A source compiled: every line judged and the sizes summed, then the room tested, then every line written.

#![tactic(auto)]

pub mod compile;
mod judge;
mod source;
mod write;
