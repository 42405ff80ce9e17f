//! The sections of a job: in which of them a line is, and how many steps each has.

use crate::problem::next_word;
use byte_io::number_of;
use undo_rules::MAX_SESSIONS;

/// The greatest number of a session.
pub(crate) const MAX_SESSION: u32 = MAX_SESSIONS as u32;

/// The part of a job in which a line is.
#[derive(Clone, Copy, Debug, PartialEq, Eq)]
pub(crate) enum Section {
    /// Before the first line with words, or at it.
    Head,
    /// In the CIF text.
    Text,
    /// Among the steps of the session of this number.
    Steps(u32),
    /// After the line `%order`.
    Order,
}

/// Returns the section of the line that comes after these.
pub(crate) fn section_after(lines: &[u8]) -> Section {
    let mut section = Section::Head;
    for line in lines.split(|byte| *byte == b'\n') {
        section = next_section(section, line);
    }
    section
}

/// Returns the section after a line.
fn next_section(section: Section, line: &[u8]) -> Section {
    let (name, _, _) = next_word(line);
    match section {
        Section::Head if name.is_empty() => Section::Head,
        Section::Head => Section::Text,
        Section::Text => {
            // The text ends where a line begins so, whatever follows in the word.
            if line.starts_with(b"%order") {
                Section::Order
            } else if line.starts_with(b"%session") {
                Section::Steps(1)
            } else {
                Section::Text
            }
        }
        Section::Steps(number) => match name {
            b"%order" => Section::Order,
            b"%session" => Section::Steps(number.saturating_add(1)),
            _ => Section::Steps(number),
        },
        Section::Order => Section::Order,
    }
}

/// Returns the number of the line with which the job's first section begins, counted from 1, `None` where it has none.
pub(crate) fn first_section(job: &[u8]) -> Option<u32> {
    let mut section = Section::Head;
    let mut number: u32 = 0;
    for line in job.split(|byte| *byte == b'\n') {
        number = number.saturating_add(1);
        if section == Section::Text && is_section(line) {
            return Some(number);
        }
        section = next_section(section, line);
    }
    None
}

/// Returns whether the line ends the CIF text of a job, whatever follows in its first word.
pub(crate) fn is_section(line: &[u8]) -> bool {
    line.starts_with(b"%order") || line.starts_with(b"%session")
}

/// A session that isn't in the order once for each of its steps.
#[derive(Clone, Copy, Debug)]
pub(crate) struct Miscount {
    pub(crate) session: u32,
    pub(crate) steps: usize,
    pub(crate) times: usize,
}

/// Returns the first session that isn't in the job's order once for each of its steps.
pub(crate) fn first_miscount(job: &[u8]) -> Option<Miscount> {
    for session in 1..=MAX_SESSION {
        let found = counted(job, session);
        if found.steps != found.times {
            return Some(found);
        }
    }
    None
}

/// Returns how many steps the session has in the job, and how often it is in the order.
fn counted(job: &[u8], session: u32) -> Miscount {
    let mut section = Section::Head;
    let mut steps: usize = 0;
    let mut times: usize = 0;
    for line in job.split(|byte| *byte == b'\n') {
        let (name, _, _) = next_word(line);
        match section {
            Section::Steps(number) if number == session && is_step(name) => {
                steps = steps.saturating_add(1);
            }
            Section::Order => times = times.saturating_add(times_in(line, session)),
            _ => {}
        }
        section = next_section(section, line);
    }
    Miscount {
        session,
        steps,
        times,
    }
}

/// Returns whether a line with this first word is a step.
fn is_step(name: &[u8]) -> bool {
    !name.is_empty() && name != b"%session".as_slice() && name != b"%order".as_slice()
}

/// Returns how often the session is in the line.
fn times_in(line: &[u8], session: u32) -> usize {
    line.split(|byte| byte.is_ascii_whitespace())
        .filter(|word| number_of(MAX_SESSION, word) == Some(session))
        .count()
}
