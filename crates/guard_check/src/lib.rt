// What check answers: covered, a gap, undecided, or a refusal.
#![tactic(auto)]

pub mod answer;
pub mod check;
pub mod decide;
