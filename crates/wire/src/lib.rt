// Bytes read: as numbers, and the label `*`.

#![tactic(auto)]

pub mod get;
pub mod stars;
