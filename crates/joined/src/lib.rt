// The names that a line puts together, judged by their sizes.

#![tactic(auto)]

pub mod joined;
