// The values of variables in a state: true, the flags, and one triplet after the other.
ghost use Rattle.std.specs.Prelude.{◌≡◌, ◌+◌, ◌*◌, ◌/◌, ◌≤◌, ◌<◌, length};
ghost use Rattle.notation.specs.Ceilings.{flag_ceiling};
ghost use Rattle.notation.specs.clauses.Shape.{kind_at, y_at, z_at};
ghost use Rattle.truth.specs.Connectives.{gate};
ghost use Rattle.truth.specs.clauses.Computed.{literal_value};
ghost use Rattle.truth.specs.clauses.Values.{value_in, FlagsSet};

use crate::states::is_set;

// The value of a literal, where the variables have these values.
pub(crate) fn literal_value(values: &[bool], literal: u16) -> bool
    requires { literal / 2 < length values.now }
    ensures { result ≡ literal_value (value_in values.now) literal }
{
    let value = values[(literal / 2) as usize];
    if literal % 2 == 0 {
        return value;
    }
    !value
}

// What a triplet of this kind makes of the values of its operands. The kind is the number in the list, which the C entry hands out as it stands.
fn gate_value(kind: u16, y: bool, z: bool) -> bool
    ensures { result ≡ gate kind y z }
{
    if kind == 0 {
        return !y | z;
    }
    y == z
}

// The value of triplet j, counted from 0, where the variables before it have these values.
pub(crate) fn triplet_value(values: &[bool], triplets: &[u16], j: usize) -> bool
    requires { (3 * j + 2 < length triplets.now) × (y_at triplets.now j / 2 < length values.now) × (z_at triplets.now j / 2 < length values.now) }
    ensures { result ≡ gate (kind_at triplets.now j) (literal_value (value_in values.now) (y_at triplets.now j))
        (literal_value (value_in values.now) (z_at triplets.now j)) }
{
    let y = literal_value(values, triplets[3 * j + 1]);
    let z = literal_value(values, triplets[3 * j + 2]);
    gate_value(triplets[3 * j], y, z)
}

// Sets the values of true and of n flags: the first flag is the highest bit of the state.
pub(crate) fn set_flags(values: &mut [bool], n: usize, state: u64)
    requires { (n ≤ flag_ceiling) × (n < length values.old) }
    ensures { FlagsSet n state n values.old values.new }
{
    values[0] = true;
    for i in 0..n {
        values[i + 1] = is_set(state, n - (i + 1));
    }
}
