// Appending bytes to a lent slice at a place. Each answers the place after what it put. Printing by Display may fail, and the
// library's digits are a String's, which needs a heap: `answer_line` may do neither.
ghost use Rattle.std.specs.Prelude.{◌+◌, ◌≤◌, ◌<◌, [], ◌∷◌, length};
ghost use Rattle.lines.specs.clauses.Put.{Puts, PutsIn, number_room};
ghost use Rattle.lines.specs.Printed.{decimal};

// One byte.
pub fn put(out: &mut [u8], at: usize, byte: u8) -> usize
    requires { at < length out.old }
    ensures { Puts out.old at (byte ∷ []) out.new result }
{
    out[at] = byte;
    at + 1
}

// All the bytes of a slice.
pub fn put_all(out: &mut [u8], at: usize, bytes: &[u8]) -> usize
    requires { at + length bytes.now ≤ length out.old }
    ensures { Puts out.old at bytes.now out.new result }
{
    let end = at + bytes.len();
    out[at..end].copy_from_slice(bytes);
    end
}

// A number in decimal digits, without a leading zero.
fn put_decimal(out: &mut [u8], at: usize, n: u64) -> usize
    requires { at + length (decimal n) ≤ length out.old }
    ensures { Puts out.old at (decimal n) out.new result }
{
    if n < 10 {
        return put(out, at, b'0' + n as u8);
    }
    let next = put_decimal(out, at, n / 10);
    put(out, next, b'0' + (n % 10) as u8)
}

// The same, in the room that any number needs.
pub fn put_number(out: &mut [u8], at: usize, n: u64) -> usize
    requires { at + number_room ≤ length out.old }
    ensures { PutsIn number_room out.old at (decimal n) out.new result }
{
    put_decimal(out, at, n)
}
