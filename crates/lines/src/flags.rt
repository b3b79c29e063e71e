// The flags of a gap, each with its value.
ghost use Rattle.std.specs.Prelude.{◌≡◌, ◌+◌, ◌*◌, ◌≤◌, ◌<◌, length};
ghost use Rattle.notation.specs.Ceilings.{flag_ceiling};
ghost use Rattle.ground.specs.Choice.{choose};
ghost use Rattle.notation.specs.Reading.{reading};
ghost use Rattle.notation.specs.clauses.Codes.{flags_in, code_in};
ghost use Rattle.ground.specs.Bytes.{bytes};
ghost use Rattle.lines.specs.clauses.Put.{Puts, PutsIn, CodeTable, value_room};
ghost use Rattle.lines.specs.Printed.{flag_value, valued, flags_of};

use crate::put::{put, put_all};
use notation::ceilings::{FLAGS, TRIPLETS_ROOM};
use notation::codes::Code;
use reading::parse::parse;
use truth::states::is_set;

fn put_bit(out: &mut [u8], at: usize, value: bool) -> usize
    requires { at < length out.old }
    ensures { Puts out.old at (bytes (choose value "1" "0")) out.new result }
{
    let digit = if value { b'1' } else { b'0' };
    put(out, at, digit)
}

// A space, the code of flag i of the table, `=` and its value.
fn put_flag(out: &mut [u8], at: usize, text: &[u8], codes: &[Code], i: usize, value: bool) -> usize
    requires code_table { CodeTable text.now codes.now (i + 1) }
    requires value_room_in_bounds { at + value_room ≤ length out.old }
    ensures { Puts out.old at (flag_value (code_in text.now codes.now i) value) out.new result }
{
    let flag = codes[i];
    let code = put(out, at, b' ');
    let sign = put_all(out, code, &text[flag.start..flag.next]);
    let digit = put(out, sign, b'=');
    put_bit(out, digit, value)
}

// The first flag is the highest bit of the state.
fn put_values(
    out: &mut [u8],
    at: usize,
    text: &[u8],
    codes: &[Code],
    flags: usize,
    state: u64,
) -> usize
    requires code_table { CodeTable text.now codes.now flags }
    requires flags_in_bounds { at + value_room * flags ≤ length out.old }
    ensures { PutsIn (value_room * flags) out.old at (valued (flags_in text.now codes.now flags) state)
        out.new result }
{
    let mut next = at;
    for i in 0..flags {
        let value = is_set(state, flags - 1 - i);
        next = put_flag(out, next, text, codes, i, value);
    }
    next
}

// The flags of a text's guard with their values in a state; none where the text is refused.
pub fn put_flags(out: &mut [u8], at: usize, text: &[u8], state: u64) -> usize
    requires { at + value_room * flag_ceiling ≤ length out.old }
    ensures { PutsIn (value_room * flag_ceiling) out.old at (valued (flags_of (reading text.now)) state) out.new result }
{
    let mut codes = [Code::NONE; FLAGS];
    let mut triplets = [0u16; TRIPLETS_ROOM];
    let Ok(guard) = parse(text, &mut codes, &mut triplets) else {
        return at;
    };
    put_values(out, at, text, &codes, guard.flags, state)
}
