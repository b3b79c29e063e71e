// k-saturation: rest, and splits on flags, until neither adds anything; and the verdicts that it leads to.
#![tactic(auto)]

pub mod saturate;
pub mod verdict;
