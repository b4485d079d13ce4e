// Whole files, read into lent buffers. What a call of the system reads no contract can say.

#![tactic(auto)]

pub mod files;
pub mod reasons;
pub mod streams;
