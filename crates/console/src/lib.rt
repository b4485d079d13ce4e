// A program's arguments. What the system gives no contract can say.

#![tactic(auto)]

pub mod arguments;
