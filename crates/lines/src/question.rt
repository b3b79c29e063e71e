// What a line asks: a depth of one or two digits, one space, a guard.
ghost use Rattle.std.specs.Prelude.{◌≡◌, ◌≤◌};
ghost use Rattle.lines.specs.Question.{byte_at, question};
ghost use Rattle.lines.specs.clauses.Digit.{digit};

// A depth, and where the guard starts in the line.
#[derive(Clone, Copy)]
pub struct Question {
    pub depth: u64,
    pub start: usize,
}

// A byte of a line, 0 past its end.
fn byte_at(line: &[u8], i: usize) -> u8
    ensures { result ≡ byte_at line.now i }
{
    line.get(i).copied().unwrap_or(0)
}

// The number that a digit stands for; none where the byte is no digit.
fn digit(b: u8) -> Option<u64>
    ensures { result ≡ digit b }
{
    if !b.is_ascii_digit() {
        return None;
    }
    Some(u64::from(b - b'0'))
}

// The depth and the guard of a line, if it has the form.
pub fn question_of(line: &[u8]) -> Option<Question>
    ensures { result ≡ question line.now }
{
    let high = digit(byte_at(line, 0))?;
    let second = byte_at(line, 1);
    if second == b' ' {
        return Some(Question {
            depth: high,
            start: 2,
        });
    }
    let low = digit(second)?;
    if byte_at(line, 2) != b' ' {
        return None;
    }
    Some(Question {
        depth: 10 * high + low,
        start: 3,
    })
}
