// The line of mail.

#![tactic(auto)]

pub mod mail;
