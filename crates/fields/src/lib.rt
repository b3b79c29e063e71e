// Fields of a file: a one-byte tag, a two-byte length, high byte first, and a body of that many bytes. A function on the bytes and a place.
#![tactic(auto)]

ghost use Rattle.std.specs.Prelude.{◌≡◌};
ghost use Rattle.fields.specs.Fields.{field_at};

// Bytes before a body: the tag and the length.
pub const HEADER: usize = 3;

// What stands at a place: a whole field, whose body goes from start up to end; one that is cut short; or nothing, at the end of the bytes. Its
// readers tell the three apart at once, which a Result of an Option would nest.
#[derive(Clone, Copy)]
pub enum Field {
    Whole { tag: u8, start: usize, end: usize },
    Cut,
    End,
}

// The field at a place. What is left is compared, so that no sum can exceed what a number holds.
pub fn field_at(file: &[u8], at: usize) -> Field
    ensures { result ≡ field_at file.now at }
{
    if file.len() <= at {
        return Field::End;
    }
    if file.len() - at < HEADER {
        return Field::Cut;
    }
    let start = at + HEADER;
    let high = file[at + 1] as usize;
    let low = file[at + 2] as usize;
    let len = 256 * high + low;
    if file.len() - start < len {
        return Field::Cut;
    }
    Field::Whole {
        tag: file[at],
        start,
        end: start + len,
    }
}
