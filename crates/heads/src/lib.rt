// What every record begins with, and the record of a location.

#![tactic(auto)]

pub mod heads;
pub mod locations;
