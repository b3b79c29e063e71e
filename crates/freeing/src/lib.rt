// Fixes some flags of a guard's triplets, those of a mask: what becomes constant, or another's equal, goes.
#![tactic(auto)]

pub mod some;
