// Names put on the wire.

#![tactic(auto)]

pub mod names;
