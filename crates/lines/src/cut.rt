// Cutting an input into lines.
ghost use Rattle.std.specs.Prelude.{◌<◌, length};
ghost use Rattle.lines.specs.clauses.Cutting.{LineEnd};

// Where the line that starts here ends: at its line feed, or at the end of the input.
pub fn line_end(input: &[u8], start: usize) -> usize
    requires { start < length input.now }
    ensures { LineEnd input.now start result }
{
    for at in start..input.len() {
        if input[at] == b'\n' {
            return at;
        }
    }
    input.len()
}
