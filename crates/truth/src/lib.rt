// What a guard means.
#![tactic(auto)]

pub mod formula;
pub mod states;
pub mod values;
