// The lines of covercheck: how an input is cut, what a line asks, and what is printed for it.
#![tactic(auto)]

pub mod answer;
pub mod cut;
mod flags;
mod put;
pub mod question;
