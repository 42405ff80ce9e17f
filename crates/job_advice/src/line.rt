//! Where lines and words of a job begin and end.
ghost use Rattle.std.specs.Prelude.{◌≤◌, length};

use crate::place::line_end;

/// Returns where the CIF text of a job begins: after the first line that has words.
pub(crate) fn text_start(job: &[u8]) -> usize
    ensures { result ≤ length job.now }
{
    let end = line_end(job, first_word(job, 0));
    (end + 1).min(job.len())
}

/// Returns where the line of this number begins, counted from 1, or where the last one does.
pub(crate) fn line_of(job: &[u8], line: u32) -> usize
    ensures { result ≤ length job.now }
{
    let mut start = 0;
    for _ in 1..line {
        let end = line_end(job, start);
        if end == job.len() {
            break;
        }
        start = end + 1;
    }
    start
}

/// Returns where the first word from here on begins, or the end.
pub(crate) fn first_word(job: &[u8], from: usize) -> usize
    requires { from ≤ length job.now }
    ensures low { from ≤ result }
    ensures high { result ≤ length job.now }
{
    job[from..]
        .iter()
        .position(|byte| !byte.is_ascii_whitespace())
        .map_or(job.len(), |len| from + len)
}

/// Returns where the word that begins here ends.
pub(crate) fn word_end(job: &[u8], start: usize) -> usize
    requires { start ≤ length job.now }
    ensures low { start ≤ result }
    ensures high { result ≤ length job.now }
{
    job[start..]
        .iter()
        .position(u8::is_ascii_whitespace)
        .map_or(job.len(), |len| start + len)
}
