// Writes states into the lent slice, in ascending order.
ghost use Rattle.std.specs.Prelude.{◌≡◌, not, suc, ◌+◌, ◌*◌, ◌-◌, ◌/◌, ◌^◌, ◌≤◌, ◌<◌, length};
ghost use Rattle.ground.specs.Bits.{bit};
ghost use Rattle.truth.specs.clauses.Computed.{literal_value};
ghost use Rattle.gaps.specs.Gaps.{false_from};
ghost use Rattle.rows.specs.clauses.Rows.{in_row};
ghost use Rattle.truth.specs.clauses.Words.{word_bits};
ghost use Rattle.gaps.specs.clauses.Rows.{Writes, since, LiveWord, words_of};

use rows::{ONES, WORD_BITS, WORD_FLAGS, turn};

// What became of the states: all were written, and how many stand in the slice; or the slice is full, and which is the next. No Result says it
// more plainly: both cases are answers, and each says how much was written.
#[derive(Clone, Copy)]
pub enum Found {
    Done(usize),
    More { written: usize, next: u64 },
}

// Where a stretch of states is written: it begins at state `base`, a state counts from `start` on, and `from` numbers of the slice are written.
#[derive(Clone, Copy)]
pub struct Place {
    pub base: u64,
    pub start: u64,
    pub from: usize,
}

// Writes base + i for each bit i of the word, after the first `from` numbers of the slice.
pub fn write_word(word: u64, base: u64, from: usize, out: &mut [u32]) -> Found
    requires { (from ≤ length out.old) × (base + word_bits ≤ 2 ^ 32) }
    ensures { Writes out.old from (false_from (λ s. not (bit word (s - base))) base word_bits) result out.new }
{
    let mut rest = word;
    let mut at = base;
    let mut m = from;
    // No index is counted: the bits that are set are gone through.
    while rest != 0 {
        let t = u64::trailing_zeros(rest);
        let s = at + (t as u64);
        if m == out.len() {
            return Found::More {
                written: m,
                next: s,
            };
        }
        out[m] = s as u32;
        m += 1;
        at = s + 1;
        rest = (rest >> t) >> 1;
    }
    Found::Done(m)
}

// The same for the states from `start` on.
fn write_from(word: u64, place: Place, out: &mut [u32]) -> Found
    requires { (place.from ≤ length out.old) × (place.base + 2 * word_bits ≤ 2 ^ 32) }
    ensures { Writes out.old place.from (false_from (since place.start (λ s. not (bit word (s - place.base)))) place.base word_bits) result out.new }
{
    let Place { base, start, from } = place;
    if start <= base {
        return write_word(word, base, from, out);
    }
    let k = start - base;
    if WORD_BITS <= k {
        return Found::Done(from);
    }
    write_word(word >> k, start, from, out)
}

// The bits below 2^n, for n below 6.
const FEW: [u64; WORD_FLAGS] = [1, 3, 15, 255, 65535, 4294967295];

// The bits of a word that are states of n flags.
fn live_word(n: usize) -> u64
    ensures { LiveWord n result }
{
    if n < WORD_FLAGS {
        return FEW[n];
    }
    ONES
}

// How many words hold the states of n flags.
fn words_of(n: usize) -> usize
    requires { n < word_bits }
    ensures { result ≡ words_of n }
{
    if n < WORD_FLAGS {
        return 1;
    }
    1 << (n - WORD_FLAGS)
}

// Writes base + s for each state s of n flags in which the literal is false, as its row has it.
pub fn write_row(
    rows: &[u64],
    root: u16,
    n: usize,
    width: usize,
    place: Place,
    out: &mut [u32],
) -> Found
    requires n_lt_word_bits { (n < word_bits) × (2 ^ n ≤ word_bits * width) × (place.base + word_bits * width + word_bits ≤ 2 ^ 32) }
    requires root_bound { (root + 1 < 2 ^ 16) × (suc (root / 2) * width ≤ length rows.now) × (place.from ≤ length out.old) }
    ensures { Writes out.old place.from (false_from (since place.start (λ s. literal_value (in_row rows.now width (s - place.base)) root)) place.base
        (2 ^ n)) result out.new }
{
    let x = ((root / 2) as usize) * width;
    let t = turn(root + 1);
    let live = live_word(n);
    let words = words_of(n);
    let mut m = place.from;
    for w in 0..words {
        let gap = (rows[x + w] ^ t) & live;
        let at = Place {
            base: place.base + WORD_BITS * (w as u64),
            from: m,
            ..place
        };
        let found = write_from(gap, at, out);
        let Found::Done(k) = found else {
            return found;
        };
        m = k;
    }
    Found::Done(m)
}
