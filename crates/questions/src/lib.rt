// A question as a line of text: moment, client, type and name, parted by single spaces. specs/Questions.antt says
// which question a line is.

#![tactic(auto)]

mod asked;
mod askers;
mod moments;
pub mod questions;
mod texts;
