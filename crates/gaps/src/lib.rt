// The gaps of a guard: the states that make it false, in ascending order, and how they are written.
#![tactic(auto)]

pub mod writing;
