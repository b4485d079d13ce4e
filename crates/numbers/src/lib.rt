// Decimal numbers.

#![tactic(auto)]

pub mod numbers;
