//! Places in a text, by line and column.
ghost use Rattle.std.specs.Prelude.{◌≡◌, ◌≤◌, ◌+◌, ◌-◌, length};
ghost use Rattle.job_advice.specs.Places.{IsLineStart, lines_before, newlines};

/// A place in a text. Both numbers count from 1; columns count bytes.
#[derive(Clone, Copy, Debug, PartialEq, Eq)]
pub(crate) struct Place {
    pub(crate) line: usize,
    pub(crate) column: usize,
    /// Where the line begins, as a number of bytes from the text's begin.
    pub(crate) start: usize,
}

/// The place of the byte at this offset, or of the text's end.
pub(crate) fn place_of(text: &[u8], offset: usize) -> Place
    requires { offset ≤ length text.now }
    ensures line { result.line ≡ 1 + lines_before text.now offset }
    ensures start { IsLineStart text.now offset result.start }
    ensures column { result.column ≡ 1 + (offset - result.start) }
{
    let start = line_start(text, offset);
    let line = 1 + newlines(&text[..offset]);
    let column = 1 + (offset - start);
    Place {
        line,
        column,
        start,
    }
}

/// Returns how many lines end in the bytes.
fn newlines(bytes: &[u8]) -> usize
    ensures value { result ≡ newlines bytes.now }
    ensures few { result ≤ length bytes.now }
{
    let mut lines = 0;
    let mut rest = bytes;
    while let Some((byte, after)) = rest.split_first() {
        if *byte == b'\n' {
            lines += 1;
        }
        rest = after;
    }
    lines
}

/// Returns where the line of the byte at this offset begins.
fn line_start(text: &[u8], offset: usize) -> usize
    requires { offset ≤ length text.now }
    ensures { IsLineStart text.now offset result }
{
    let mut start = offset;
    while start > 0 && text[start - 1] != b'\n' {
        start -= 1;
    }
    start
}

/// Returns where the line that begins here ends: at its newline, or at the end of the text.
pub(crate) fn line_end(text: &[u8], start: usize) -> usize
    requires { start ≤ length text.now }
    ensures low { start ≤ result }
    ensures high { result ≤ length text.now }
{
    text[start..]
        .iter()
        .position(|byte| *byte == b'\n')
        .map_or(text.len(), |len| start + len)
}
