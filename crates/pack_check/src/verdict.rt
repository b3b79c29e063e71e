// What the check of a pack answers.
use saturation::verdict::Verdict;

// The first pair of variants, counted from 1, that is not covered, with its answer.
#[derive(Clone, Copy)]
pub struct Overlap {
    pub first: usize,
    pub second: usize,
    pub verdict: Verdict,
}

// The answer of the whole line and that of its pairs: none where each pair is covered.
#[derive(Clone, Copy)]
pub struct LineVerdict {
    pub whole: Verdict,
    pub overlap: Option<Overlap>,
}
