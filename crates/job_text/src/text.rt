//! Where the CIF text of a job ends.
//!
//! A section's line begins with `%`, and most texts have none. So `memchr` finds the next `%`, and
//! only the line that begins there is tested for a section; else the search goes on after that
//! line.
ghost use Rattle.std.specs.Prelude.{◌≡◌, ℕ, ◌+◌, ◌<◌, ◌≤◌, ◌==◌, ◌^◌, count_by, drop, length, take};
ghost use Rattle.byte_io.specs.Lines.{lines};
ghost use Rattle.job_text.specs.Text.{are_whole, is_section, sections_of, text_of};

use byte_io::split_line;
use memchr::memchr;

/// Lines of a job, and the number of the first of them, counted from 1.
pub type Place<'a> = (u32, &'a [u8]);

/// The bytes before the first section, then the bytes from there on and the number of their first line.
///
/// # Cost
///
/// A few passes over the text.
pub(crate) fn split_text(number: u32, bytes: &[u8]) -> (&[u8], Place<'_>)
    requires { number + length bytes.now < 2 ^ 32 }
    ensures text { result.0.now ≡ text_of (lines bytes.now) }
    ensures sections { (result.1.0, lines result.1.1.now) ≡ sections_of number (lines bytes.now) }
    ensures count { result.1.0 + length result.1.1.now ≤ number + length bytes.now }
{
    let (text, sections) = bytes.split_at(text_len(bytes));
    (text, (number + count_lines(text), sections))
}

/// Returns how many bytes stand before the first section.
fn text_len(bytes: &[u8]) -> usize
    ensures inside { result ≤ length bytes.now }
    ensures text { take result bytes.now ≡ text_of (lines bytes.now) }

    // The sections begin behind so many lines.
    ensures sections { (number : ℕ) → sections_of number (lines bytes.now)
        ≡ (number + length (lines (take result bytes.now)), lines (drop result bytes.now)) }
{
    let mut len = 0;
    let mut rest = bytes;
    // A section begins with `%`, so what stands before the first `%` is text, and its line too unless it begins there.
    while let Some(sign) = memchr(b'%', rest) {
        let (front, signed) = rest.split_at(sign);
        let (line, behind) = split_line(signed).unwrap();
        if are_whole(front) && is_section(line) {
            return len + sign;
        }
        len += sign + line.len();
        rest = behind;
    }
    bytes.len()
}

/// Returns whether the line ends the CIF text.
fn is_section(line: &[u8]) -> bool
    ensures { result ≡ is_section line.now }
{
    line.starts_with("%session".as_bytes()) || line.starts_with("%order".as_bytes())
}

/// Returns whether the last line ends with a newline, or there is none.
fn are_whole(bytes: &[u8]) -> bool
    ensures { result ≡ are_whole bytes.now }
{
    match bytes.last() {
        Some(last) => *last == b'\n',
        None => true,
    }
}

/// Returns how many lines the bytes have.
fn count_lines(bytes: &[u8]) -> u32
    requires { length bytes.now < 2 ^ 32 }
    ensures value { result ≡ length (lines bytes.now) }
    ensures few { result ≤ length bytes.now }
{
    let newlines = count_newlines(bytes);
    if are_whole(bytes) {
        newlines
    } else {
        newlines + 1
    }
}

/// Returns how many newlines the bytes have.
fn count_newlines(bytes: &[u8]) -> u32
    requires { length bytes.now < 2 ^ 32 }
    ensures { result ≡ count_by (λ b. b == 10) bytes.now }
{
    let mut newlines = 0;
    for b in bytes {
        newlines += u32::from(*b == b'\n');
    }
    newlines
}
