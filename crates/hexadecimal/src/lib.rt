// Bytes as hexadecimal digits, as text and printed.

#![tactic(auto)]

pub mod hex;
