// Rest beside a naive reference that shares no code with it, on random lists of triplets, each in several orders.
#![tactic(auto)]

mod compare;
mod draw;
mod lists;
mod naive;
mod report;

use compare::{ORDERS, disagreements};

// The lists that are tried.
const LISTS: usize = 2000;

fn main(rt: HostRuntime) {
    let mut wrong = 0;
    for seed in 0..LISTS {
        wrong += disagreements(&rt, seed, wrong > 0);
    }
    let _ = println!(rt;
        "{} comparisons of rest with a naive reference, {wrong} disagreements",
        ORDERS * LISTS
    );
}
