//! What is said of a faulty line of a job: which word, what is wrong with it, and what the line has to be.

use crate::advice::Told;
use crate::cif_words::Words;
use crate::job_words::form_of;
use crate::no_job::{LIVE_FORM, words_of_head, words_of_input};
use crate::problem::{Problem, Wrong, next_word, problem_of};
use crate::sections::{MAX_SESSION, Section, first_miscount, is_section, section_after};
use byte_io::{is_number, number_of};
use lay_point::NoMemory;
use std::alloc::Global;
use std::io::Write;

/// The lines of a live run that are no steps.
const LIVE_WORDS: &str =
    "Such lines are %write, %cells, %items CELL, %look ITEM, %history and %changes TRANSACTION.";

/// The form of a step's line.
const LIVE_STEPS: &str = "A step comes after its session's number: `1 open`, `2 undo 1.1`.";

/// Returns what is said of a line of this job, which comes after these lines.
pub(crate) fn told_of_line(
    alloc: Global,
    job: &[u8],
    before: &[u8],
    line: &[u8],
) -> Result<Told, NoMemory> {
    let (name, left, rest) = next_word(line);
    match (section_after(before), name) {
        (Section::Head, b"%cif") => told_of_cif(alloc, rest),
        (Section::Head, _) => {
            let Words { problem, cure } = words_of_input(job);
            told(alloc, left, problem, cure)
        }
        (Section::Order, _) => told_of_order_line(alloc, line),
        (section, b"%session") => told_of_session(alloc, section, left, rest),
        (_, b"%order") => told_of_order(alloc, job, left, rest),
        _ => told_of_step(alloc, name, problem_of(line)),
    }
}

/// Returns what is said of a line of this head of a live run, which comes after these lines: the first that can't be there or,
/// where each can, the last.
pub(crate) fn told_of_head(
    alloc: Global,
    head: &[u8],
    before: &[u8],
    line: &[u8],
) -> Result<Told, NoMemory> {
    let (name, left, rest) = next_word(line);
    match (section_after(before), name) {
        (Section::Head, b"%cif") if next_left(rest) > 0 => told_of_cif(alloc, rest),
        (Section::Head, name) if name != b"%cif".as_slice() => {
            let Words { problem, cure } = words_of_head(head);
            told(alloc, left, problem, cure)
        }
        (Section::Text, _) if is_section(line) => told(
            alloc,
            left,
            "here comes `%live`",
            LIVE_FORM,
        ),
        _ => told(
            alloc,
            0,
            "the lines end, and none begins with `%live`",
            LIVE_FORM,
        ),
    }
}

/// Returns what is said of the line `%cif`, with these words after that.
fn told_of_cif(alloc: Global, rest: &[u8]) -> Result<Told, NoMemory> {
    told(
        alloc,
        next_left(rest),
        "`%cif` is alone on its line",
        "The CIF text begins on the next line.",
    )
}

/// Returns what is said of a line of a live run.
pub(crate) fn told_of_live(alloc: Global, line: &[u8]) -> Result<Told, NoMemory> {
    let (word, left, rest) = next_word(line);
    if word.starts_with(b"%") {
        return told(
            alloc,
            left,
            "no line of a live run begins with this word",
            LIVE_WORDS,
        );
    }
    match number_of(MAX_SESSION, word) {
        Some(session) if session != 0 => {
            let (name, _, _) = next_word(rest);
            told_of_step(alloc, name, problem_of(rest))
        }
        _ => told(
            alloc,
            left,
            "this isn't a session, from 1 to 64",
            LIVE_STEPS,
        ),
    }
}

/// Returns what is wrong and what to do, where so many bytes of the line are left.
fn told(alloc: Global, left: usize, problem: &str, cure: &'static str) -> Result<Told, NoMemory> {
    let mut text = Vec::new(alloc);
    text.extend_from_slice(problem.as_bytes())?;
    Ok(Told {
        left,
        problem: text,
        cure,
    })
}

/// Returns how many bytes are left from the next word on.
fn next_left(words: &[u8]) -> usize {
    let (_, left, _) = next_word(words);
    left
}

/// Returns the first word where there is one of a thing, else the second.
fn plural(count: usize, one: &'static str, more: &'static str) -> &'static str {
    if count == 1 { one } else { more }
}

/// Returns what is said of a step whose first word is this.
fn told_of_step(alloc: Global, name: &[u8], problem: Problem) -> Result<Told, NoMemory> {
    let Problem { wrong, left } = problem;
    let mut text = Vec::new(alloc);
    match wrong {
        Wrong::Unfit(part) => write!(text, "this isn't {}", part.name()),
        Wrong::Missing(part) => write!(text, "here comes {}, and the line ends", part.name()),
        Wrong::Extra => write!(text, "this is one word too many"),
        Wrong::NoStep => write!(text, "no step begins with this word"),
    }
    .map_err(|_| NoMemory)?;
    Ok(Told {
        left,
        problem: text,
        cure: form_of(name),
    })
}

/// Returns what is said of a line `%session`, with the words after that.
fn told_of_session(
    alloc: Global,
    section: Section,
    left: usize,
    rest: &[u8],
) -> Result<Told, NoMemory> {
    let next = match section {
        Section::Steps(number) => number.saturating_add(1),
        _ => 1,
    };
    let (word, word_left, behind) = next_word(rest);
    if number_of(MAX_SESSION, word) == Some(next) {
        return told(
            alloc,
            next_left(behind),
            "this is one word too many",
            form_of(b"%session"),
        );
    }
    if next > MAX_SESSION {
        return told(
            alloc,
            left,
            "a job has at most 64 sections",
            form_of(b"%session"),
        );
    }
    let mut text = Vec::new(alloc);
    write!(text, "here comes `%session {next}`").map_err(|_| NoMemory)?;
    let left = if word.is_empty() { left } else { word_left };
    Ok(Told {
        left,
        problem: text,
        cure: form_of(b"%session"),
    })
}

/// Returns what is said of the line `%order`, with the words after that.
fn told_of_order(alloc: Global, job: &[u8], left: usize, rest: &[u8]) -> Result<Told, NoMemory> {
    let (word, word_left, _) = next_word(rest);
    if !word.is_empty() {
        return told(
            alloc,
            word_left,
            "this is one word too many",
            form_of(b"%order"),
        );
    }
    let mut text = Vec::new(alloc);
    match first_miscount(job) {
        Some(found) => {
            let (steps, times) = (found.steps, found.times);
            write!(
                text,
                "session {} has {steps} {}",
                found.session,
                plural(steps, "step", "steps")
            )
            .map_err(|_| NoMemory)?;
            write!(
                text,
                ", and is {times} {} in the order",
                plural(times, "time", "times")
            )
        }
        None => write!(text, "the order names a session that has no section"),
    }
    .map_err(|_| NoMemory)?;
    Ok(Told {
        left,
        problem: text,
        cure: form_of(b"%order"),
    })
}

/// Returns what is said of a line after `%order`.
fn told_of_order_line(alloc: Global, line: &[u8]) -> Result<Told, NoMemory> {
    let left = left_at_no_number(line);
    told(
        alloc,
        left,
        "this isn't a session's number",
        form_of(b"%order"),
    )
}

/// Returns how many bytes of the line are left from the first word on that isn't a number.
fn left_at_no_number(line: &[u8]) -> usize {
    let mut rest = line;
    for _ in 0..line.len() {
        let (word, left, behind) = next_word(rest);
        if word.is_empty() || !is_number(word) {
            return left;
        }
        rest = behind;
    }
    next_left(rest)
}
