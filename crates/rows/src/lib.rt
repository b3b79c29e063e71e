// The values of variables in many states at once: 64 states to a word, a row of words to a variable.
#![tactic(auto)]

ghost use Rattle.std.specs.Prelude.{ℕ, ◌≡◌, suc, ◌+◌, ◌*◌, ◌-◌, ◌/◌, ◌^◌, ◌≤◌, ◌<◌, length, get_or};
ghost use Rattle.notation.specs.Ceilings.{flag_ceiling, connective_ceiling};
ghost use Rattle.notation.specs.Triplets.{triplet_variable};
ghost use Rattle.notation.specs.clauses.Shape.{Shape, y_at, z_at};
ghost use Rattle.rows.specs.clauses.Rows.{turned, RowMade, TripletMade, FlagRows, Evaluated, WordOf, FlagsMade};
ghost use Rattle.truth.specs.clauses.Words.{word_bits};

use notation::ceilings::FLAGS;
use truth::states::is_set;

// Flags whose states one word holds.
pub const WORD_FLAGS: usize = 6;

// Bits of a word, one for each of those states.
pub const WORD_BITS: u64 = 64;

// The word of all ones.
pub const ONES: u64 = u64::MAX;

// All ones for a negated literal, else zero.
pub fn turn(l: u16) -> u64
    ensures { result ≡ turned l }
{
    if l % 2 == 0 {
        return 0;
    }
    ONES
}

// Makes the row from x on: its word w is what `word` says of w.
fn make_row<F: Fn(usize) -> u64>(rows: &mut [u64], x: usize, width: usize, word: F)
    requires within { x + width ≤ length rows.old }
    requires callable { (w : ℕ) → w < width → F.pre word w }
    ensures { RowMade rows.old x width (λ w r. F.post word w r) rows.new }
{
    for w in 0..width {
        rows[x + w] = word(w);
    }
}

// Makes the row from x on: each word is what `word` makes of those at its place in the rows from y on and from z on, which lie before.
fn join_rows<F: Fn(u64, u64) -> u64>(
    rows: &mut [u64],
    x: usize,
    y: usize,
    z: usize,
    width: usize,
    word: F,
)
    requires within { (y + width ≤ x) × (z + width ≤ x) × (x + width ≤ length rows.old) }
    requires callable { F.IsAlwaysCallable word }
    ensures { RowMade rows.old x width (λ w r. F.post word (get_or rows.old (y + w) 0) (get_or rows.old (z + w) 0) r) rows.new }
{
    for w in 0..width {
        rows[x + w] = word(rows[y + w], rows[z + w]);
    }
}

// Makes the row of triplet j from those of its operands.
fn triplet_row(xs: &[u16], j: usize, rows: &mut [u64], width: usize)
    requires { (j < connective_ceiling) × (3 * j + 2 < length xs.now) × (y_at xs.now j / 2 < triplet_variable (suc j))
        × (z_at xs.now j / 2 < triplet_variable (suc j)) × (triplet_variable (suc (suc j)) * width ≤ length rows.old) }
    ensures { TripletMade xs.now j rows.old width rows.new }
{
    let y = xs[3 * j + 1];
    let z = xs[3 * j + 2];
    let x = (FLAGS + 1 + j) * width;
    let of_y = ((y / 2) as usize) * width;
    let of_z = ((z / 2) as usize) * width;
    let ty = turn(y + 1);
    let tz = turn(z);
    if xs[3 * j] == 0 {
        join_rows(rows, x, of_y, of_z, width, move |a, b| (a ^ ty) | (b ^ tz));
    } else {
        join_rows(rows, x, of_y, of_z, width, move |a, b| (a ^ b) ^ (ty ^ tz));
    }
}

// Makes the rows of the first `count` triplets.
pub fn evaluate(xs: &[u16], count: usize, n: usize, rows: &mut [u64], width: usize)
    requires n_le_flag_ceiling { (n ≤ flag_ceiling) × (count ≤ connective_ceiling) × (3 * count ≤ length xs.now)
        × (triplet_variable (suc count) * width ≤ length rows.old) }
    requires shape { Shape n count xs.now }
    requires flag_rows { FlagRows n width rows.old }
    ensures { Evaluated n width xs.now count rows.old rows.new }
{
    for j in 0..count {
        triplet_row(xs, j, rows, width);
    }
}

// Bit p of the numbers 0 to 63, for each p below 6.
const LOW: [u64; WORD_FLAGS] = [
    0xAAAAAAAAAAAAAAAA,
    0xCCCCCCCCCCCCCCCC,
    0xF0F0F0F0F0F0F0F0,
    0xFF00FF00FF00FF00,
    0xFFFF0000FFFF0000,
    0xFFFFFFFF00000000,
];

// Bit p of the 64 states of word w.
fn flag_word(p: usize, w: usize) -> u64
    requires { p < word_bits }
    ensures { WordOf p w result }
{
    if p < WORD_FLAGS {
        return LOW[p];
    }
    if is_set(w as u64, p - WORD_FLAGS) {
        ONES
    } else {
        0
    }
}

// Makes the rows of true and of n flags.
pub fn flag_rows(rows: &mut [u64], n: usize, width: usize)
    requires { (n < word_bits) × (suc n * width ≤ length rows.old) }
    ensures { FlagsMade n width rows.old rows.new }
{
    make_row(rows, 0, width, |_| ONES);
    for i in 0..n {
        let p = n - (i + 1);
        make_row(rows, (i + 1) * width, width, move |w| flag_word(p, w));
    }
}
