// A disagreement in full.
use crate::compare::Start;
use crate::lists::List;

// The list as it stands, the two equalities that it started from, and a pair of literals that one of the two holds. All literals are
// those of the list as it was made, counted without gaps, but in the triplets. What cannot be printed is passed over.
pub fn report(
    rt: &impl Print,
    list: &List,
    start: &Start,
    seed: usize,
    order: usize,
    pair: usize,
    naive: bool,
) {
    let _ = print!(rt;
        "seed {seed} order {order} start {}={} {}={} triplets",
        start.a, start.b, start.c, start.d
    );
    for number in list.numbers[..3 * list.count].iter() {
        let _ = print!(rt; " {number}");
    }
    let one = if naive { "the naive reference" } else { "rest" };
    let _ = println!(rt;
        " literals {} and {} are equal in {one} alone",
        pair / 32,
        pair % 32
    );
}
