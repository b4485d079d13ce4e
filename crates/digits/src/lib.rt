// Digits of a base, and the numbers that they say.

#![tactic(auto)]

pub mod decimal;
pub mod hex;
pub mod radix;
