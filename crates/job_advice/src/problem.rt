//! What is wrong in a line of a job, and where.

use crate::line::{first_word, word_end};
use crate::parts::{Part, parts_of};

/// What is wrong in a line.
#[derive(Clone, Copy, Debug, PartialEq, Eq)]
pub(crate) enum Wrong {
    /// The word isn't what it has to be.
    Unfit(Part),
    /// The line ends where such a word has to come.
    Missing(Part),
    /// The word is one too many.
    Extra,
    /// No step begins with this word.
    NoStep,
}

/// What is wrong in a line, and how many bytes of the line there are from the place on.
#[derive(Clone, Copy, Debug, PartialEq, Eq)]
pub(crate) struct Problem {
    pub(crate) wrong: Wrong,
    pub(crate) left: usize,
}

/// Returns the first problem of a line that is to be a step. The line ends before its newline.
pub(crate) fn problem_of(line: &[u8]) -> Problem {
    let (name, left, rest) = next_word(line);
    if name == b"poly".as_slice() {
        return problem_of_poly(rest);
    }
    match parts_of(name) {
        Some(parts) => match after_parts(rest, parts) {
            Ok(rest) => extra(rest),
            Err(problem) => problem,
        },
        None => Problem {
            wrong: Wrong::NoStep,
            left,
        },
    }
}

/// Returns the first problem of the words after `poly`.
fn problem_of_poly(words: &[u8]) -> Problem {
    match after_parts(words, &[Part::Cell, Part::Layer]) {
        Ok(points) => problem_of_points(points),
        Err(problem) => problem,
    }
}

/// Returns the first problem of words that are to be points, two a point.
fn problem_of_points(words: &[u8]) -> Problem {
    let mut rest = words;
    for _ in 0..words.len() {
        let (word, _, _) = next_word(rest);
        if word.is_empty() {
            break;
        }
        match after_parts(rest, &[Part::Number, Part::Number]) {
            Ok(behind) => rest = behind,
            Err(problem) => return problem,
        }
    }
    extra(rest)
}

/// Returns what comes after words that are to be these, or the first problem.
fn after_parts<'a>(words: &'a [u8], parts: &[Part]) -> Result<&'a [u8], Problem> {
    let mut rest = words;
    for part in parts {
        let (word, left, behind) = next_word(rest);
        if word.is_empty() {
            return Err(Problem {
                wrong: Wrong::Missing(*part),
                left,
            });
        }
        if !part.fits(word) {
            return Err(Problem {
                wrong: Wrong::Unfit(*part),
                left,
            });
        }
        rest = behind;
    }
    Ok(rest)
}

/// Returns the problem that a line doesn't end where it has to.
fn extra(rest: &[u8]) -> Problem {
    let (_, left, _) = next_word(rest);
    Problem {
        wrong: Wrong::Extra,
        left,
    }
}

/// Returns the first word, which is empty where there is none, how many bytes there are from it on, and what comes after it.
pub(crate) fn next_word(words: &[u8]) -> (&[u8], usize, &[u8]) {
    let from = &words[first_word(words, 0)..];
    let (word, behind) = from.split_at(word_end(from, 0));
    (word, from.len(), behind)
}
