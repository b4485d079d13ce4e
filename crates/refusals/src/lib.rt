// The number that 01 gives each answer of compiling and asking.

#![tactic(auto)]

pub mod faults;
pub mod replies;
