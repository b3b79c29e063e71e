// The service that checks a line pack: whether its variants leave a gap, and which two of them can stand together.
#![tactic(auto)]

pub mod asking;
pub mod check;
pub mod verdict;
