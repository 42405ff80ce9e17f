//! The lines that are said of a fault.
ghost use Rattle.std.specs.Prelude.{◌≡◌, ◌≤◌, ◌++◌, IfOk, length};
ghost use Rattle.job_advice.specs.Places.{HasStart, TellsPlace, TellsTextPlace};
ghost use Rattle.job_advice.specs.Places.{
  heading_text,
  live_heading_text,
  text_heading_text,
  text_line_text,
};

use crate::cif_words::words_of;
use crate::line::{line_of, text_start};
use crate::line_advice::{told_of_head, told_of_line, told_of_live};
use crate::place::{line_end, place_of};
use crate::sections::first_section;
use crate::window::window;
use cif_read::CifFault;
use lay_point::NoMemory;
use std::alloc::Global;
use std::io::Write;

/// What is said of a job that is too long.
const TOO_LONG: &[u8] =
    b"masklay: the job has more than 16,777,216 bytes\n  Cut it into jobs, each of which begins with the text that the one before wrote.\n";

/// What is said of a live run whose head is too long.
const HEAD_TOO_LONG: &[u8] =
    b"masklay: there are more than 16,777,216 bytes before a line that begins with `%live`\n  A live run is the line `%cif`, a CIF text, that line, and then lines as `1 open`. Cut the layout into parts where its text is so long.\n";

/// What is said of a line: what is wrong, what to do, and how many bytes of the line there are from the place on.
#[derive(Drop)]
pub(crate) struct Told {
    pub(crate) left: usize,
    pub(crate) problem: Vec<u8>,
    pub(crate) cure: &'static str,
}

/// What is reported to a person of a fault of this CIF text, which isn't in a job.
///
/// # Errors
///
/// `NoMemory`, if an allocation fails.
///
/// # Cost
///
/// A pass over the text before the fault.
pub fn of_text_fault(alloc: Global, text: &[u8], fault: CifFault) -> Result<Vec<u8>, NoMemory> {
    let offset = (fault.offset as usize).min(text.len());
    let words = words_of(fault.kind, &text[..offset], &text[offset..]);
    lines_of(alloc, text, offset, words.problem.as_bytes(), words.cure)
}

/// What is reported to a person of a fault of the CIF text of this job. Its place is given in the text, and in the job.
///
/// # Errors
///
/// `NoMemory`, if an allocation fails.
///
/// # Cost
///
/// A pass over the text before the fault.
pub fn of_cif_fault(alloc: Global, job: &[u8], fault: CifFault) -> Result<Vec<u8>, NoMemory> {
    let start = text_start(job);
    let offset = start.saturating_add(fault.offset as usize).min(job.len());
    let words = words_of(fault.kind, &job[..offset], &job[offset..]);
    lines_of_text(
        alloc,
        job,
        start,
        offset,
        words.problem.as_bytes(),
        words.cure,
    )
}

/// What is reported to a person of a fault of this job on the line of this number, counted from 1: the word, what is wrong
/// with it, and what the line has to be. A job that is too long has it on line 0.
///
/// # Errors
///
/// `NoMemory`, if an allocation fails.
///
/// # Cost
///
/// A pass over the job before the fault; where the order has another count, one for each session.
pub fn of_job_fault(alloc: Global, job: &[u8], line: u32) -> Result<Vec<u8>, NoMemory> {
    if line == 0 {
        let mut lines = Vec::new(alloc);
        lines.extend_from_slice(TOO_LONG)?;
        return Ok(lines);
    }
    let start = line_of(job, line);
    let end = line_end(job, start);
    let told = told_of_line(alloc, job, &job[..start], &job[start..end])?;
    let offset = end.saturating_sub(told.left);
    lines_of(alloc, job, offset, told.problem.as_slice(), told.cure)
}

/// What is reported to a person where no live run begins after this head: the lines before `%live`, or all lines where none begins
/// so. `line` is that of the fault, counted from 1; a head that is too long has it on line 0. Where sections come before that line,
/// which a live run doesn't have, the first of them is named.
///
/// # Errors
///
/// `NoMemory`, if an allocation fails.
///
/// # Cost
///
/// A pass over the head.
pub fn of_live_fault(alloc: Global, head: &[u8], line: u32) -> Result<Vec<u8>, NoMemory> {
    if line == 0 {
        let mut lines = Vec::new(alloc);
        lines.extend_from_slice(HEAD_TOO_LONG)?;
        return Ok(lines);
    }
    let line = first_section(head).unwrap_or(line).min(line);
    let start = line_of(head, line);
    let end = line_end(head, start);
    let told = told_of_head(alloc, head, &head[..start], &head[start..end])?;
    let offset = end.saturating_sub(told.left);
    lines_of(alloc, head, offset, told.problem.as_slice(), told.cure)
}

/// What is reported to a person of a line of a live run, of this number after `%live`, that says nothing which a run takes:
/// the word, what is wrong with it, and what the line has to be.
///
/// # Errors
///
/// `NoMemory`, if an allocation fails.
pub fn of_live_line(alloc: Global, line: &[u8], number: u64) -> Result<Vec<u8>, NoMemory>
    ensures { IfOk result (λ lines. HasStart (live_heading_text number) lines.items) }
{
    let end = line_end(line, 0);
    let told = told_of_live(alloc, &line[..end])?;
    let offset = end.saturating_sub(told.left);
    let mut lines = live_heading(alloc, number)?;
    let rest = rest_of(alloc, line, 0, offset, told.problem.as_slice(), told.cure)?;
    lines.extend_from_slice(rest.as_slice())?;
    Ok(lines)
}

/// The place and what is wrong there, the line with a caret under the place, and what to do.
fn lines_of(
    alloc: Global,
    text: &[u8],
    offset: usize,
    problem: &[u8],
    cure: &str,
) -> Result<Vec<u8>, NoMemory>
    requires { offset ≤ length text.now }
    ensures { IfOk result (λ lines. TellsPlace text.now offset lines.items) }
{
    let place = place_of(text, offset);
    let mut lines = heading(alloc, place.line, place.column)?;
    let rest = rest_of(alloc, text, place.start, offset, problem, cure)?;
    lines.extend_from_slice(rest.as_slice())?;
    Ok(lines)
}

/// The same of a place in the CIF text of a job, which begins there.
fn lines_of_text(
    alloc: Global,
    job: &[u8],
    text: usize,
    offset: usize,
    problem: &[u8],
    cure: &str,
) -> Result<Vec<u8>, NoMemory>
    requires before { text ≤ offset }
    requires inside { offset ≤ length job.now }
    ensures { IfOk result (λ lines. TellsTextPlace job.now text offset lines.items) }
{
    let place = place_of(job, offset);
    let lines_before = place_of(job, text).line;
    let line = place.line.saturating_sub(lines_before).saturating_add(1);
    let mut lines = text_heading(alloc, line, place.line, place.column)?;
    let rest = rest_of(alloc, job, place.start, offset, problem, cure)?;
    lines.extend_from_slice(rest.as_slice())?;
    Ok(lines)
}

/// The line and the column.
#[tactic(auto, unfolding(crate::specs::Places::heading_text))]
fn heading(alloc: Global, line: usize, column: usize) -> Result<Vec<u8>, NoMemory>
    ensures { IfOk result (λ lines. lines.items ≡ heading_text line column) }
{
    let mut lines = Vec::new(alloc);
    write!(lines, "masklay: line {line}, column {column}: ").map_err(|_| NoMemory)?;
    Ok(lines)
}

/// The number of a line of a live run.
#[tactic(auto, unfolding(crate::specs::Places::live_heading_text))]
fn live_heading(alloc: Global, number: u64) -> Result<Vec<u8>, NoMemory>
    ensures { IfOk result (λ lines. lines.items ≡ live_heading_text number) }
{
    let mut lines = Vec::new(alloc);
    write!(lines, "masklay: line {number} after `%live`: ").map_err(|_| NoMemory)?;
    Ok(lines)
}

/// The line in the text, that in the job, and the column.
#[tactic(auto, unfolding(crate::specs::Places::text_heading_text))]
fn text_heading(
    alloc: Global,
    line: usize,
    of_job: usize,
    column: usize,
) -> Result<Vec<u8>, NoMemory>
    ensures { IfOk result (λ lines. lines.items ≡ text_heading_text line of_job column) }
{
    let mut lines = text_line(alloc, line)?;
    write!(lines, " (line {of_job} of the job)").map_err(|_| NoMemory)?;
    write!(lines, ", column {column}: ").map_err(|_| NoMemory)?;
    Ok(lines)
}

/// The line in the text.
#[tactic(auto, unfolding(crate::specs::Places::text_line_text))]
fn text_line(alloc: Global, line: usize) -> Result<Vec<u8>, NoMemory>
    ensures { IfOk result (λ lines. lines.items ≡ text_line_text line) }
{
    let mut lines = Vec::new(alloc);
    write!(lines, "masklay: line {line} of the CIF text").map_err(|_| NoMemory)?;
    Ok(lines)
}

/// What follows the place: what is wrong, the line with the caret, and what to do.
fn rest_of(
    alloc: Global,
    text: &[u8],
    start: usize,
    offset: usize,
    problem: &[u8],
    cure: &str,
) -> Result<Vec<u8>, NoMemory>
    requires before { start ≤ offset }
    requires inside { offset ≤ length text.now }
{
    let mut lines = Vec::new(alloc);
    lines.extend_from_slice(problem)?;
    lines.push(b'\n')?;
    let shown = window(alloc, text, start, offset)?;
    lines.extend_from_slice(shown.as_slice())?;
    write!(lines, "  {cure}\n").map_err(|_| NoMemory)?;
    Ok(lines)
}
