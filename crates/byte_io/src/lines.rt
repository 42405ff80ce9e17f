//! Lines of a text.
ghost use Rattle.std.specs.Prelude.{◌≡◌, ◌<◌, ◌==◌, ◌≤◌, [], IfSome, MatchOption, length};
ghost use Rattle.std.specs.List.{position};
ghost use Rattle.byte_io.specs.Lines.{IsFirstLine, content, first_len, without_last};

use memchr::memchr;

/// Returns the first line of the bytes, with its newline, and what stands behind it. `None` where there is none.
///
/// # Cost
///
/// A pass over the first line.
pub fn split_line(bytes: &[u8]) -> Option<(&[u8], &[u8])>
    ensures { MatchOption result (bytes.now ≡ []) (λ p. IsFirstLine bytes.now p.0.now p.1.now) }
{
    if bytes.is_empty() {
        return None;
    }
    Some(bytes.split_at(first_len(bytes)))
}

/// Returns how many bytes the first line has, its newline included.
fn first_len(bytes: &[u8]) -> usize
    ensures value { result ≡ first_len bytes.now }
    ensures inside { result ≤ length bytes.now }
{
    match find_byte(bytes, b'\n') {
        Some(newline) => newline + 1,
        None => bytes.len(),
    }
}

/// Returns how many bytes stand before the first of this value. `None` where there is no such byte.
///
/// # Cost
///
/// A pass over the bytes before it.
pub fn find_byte(bytes: &[u8], byte: u8) -> Option<usize>
    ensures value { result ≡ position (λ b. b == byte) bytes.now }
    ensures inside { IfSome result (λ n. n < length bytes.now) }
{
    memchr(byte, bytes)
}

/// Returns the line without its newline, and without a carriage return before that.
#[tactic(auto, unfolding(crate::specs::Lines::content))]
pub fn content(line: &[u8]) -> &[u8]
    ensures { result.now ≡ content line.now }
{
    without_last(without_last(line, b'\n'), b'\r')
}

/// Returns the line without this byte at its end.
fn without_last(line: &[u8], last: u8) -> &[u8]
    ensures { result.now ≡ without_last last line.now }
{
    match line.split_last() {
        Some((byte, front)) if *byte == last => front,
        _ => line,
    }
}
