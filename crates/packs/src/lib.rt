// Line packs: an id, at most one rule, then variants with their texts, read from the left into lent tables.
#![tactic(auto)]

pub mod due;
pub mod pool;
pub mod read;
pub mod steps;
