//! The sections of a job: the steps of each session.
ghost use Rattle.std.specs.Prelude.{◌≡◌, ◌+◌, ◌++◌, ◌∷◌, [], ◌≤◌, IfOk, IsTrue, Ok, OnOk, length, option_to_list};
ghost use Rattle.std.specs.Result.{result_map_both};
ghost use Rattle.lay_point.specs.Memory.{IsAnswer};
ghost use Rattle.job_text.specs.declared.job.JobFault.TheVariants.{NoMemory as OutOfMemory};
ghost use Rattle.job_text.specs.Job.{
  Sections,
  is_only_number,
  is_session_line,
  is_session_number,
  scripts_of,
  sections_at,
  steps_with,
};
ghost use Rattle.byte_io.specs.Lines.{lines};
ghost use Rattle.job_text.specs.Words.{words};

use crate::job::{JobFault, MAX_JOB, is_only};
use crate::step_line::step_of;
use crate::text::Place;
use crate::words::{MAX_SESSION, is_blank, split_word};
use byte_io::{content, number_of, split_line};
use lay_point::{NoMemory, Sequence};
use session_steps::Step;
use std::alloc::Global;

/// The steps of each session, in order, and what stands from the order on.
type Sections<'a> = (Sequence<Sequence<Step>>, Place<'a>);

/// The sections from this place on.
#[tactic(auto, unfolding(crate::specs::Job::sections_at))]
pub(crate) fn sections_at(
    alloc: Global,
    number: u32,
    bytes: &[u8],
) -> Result<Sections<'_>, JobFault>
    requires { number + length bytes.now ≤ MAX_JOB + 1 }
    ensures value { IsAnswer OutOfMemory
        (result_map_both (λ r. (r.0, (r.1.0, lines r.1.1.now))) (λ fault. fault) result)
        (sections_at (number, lines bytes.now)) }
    ensures count { IfOk result (λ r. r.1.0 + length r.1.1.now ≤ MAX_JOB + 1) }
    ensures few { IfOk result (λ r. length r.0 ≤ MAX_SESSION) }
{
    let none = Sequence::from_vec(Vec::new(alloc));
    let Some((line, behind)) = split_line(bytes) else {
        return Ok((none, (number, bytes)));
    };
    let words = content(line);
    if is_only("%order".as_bytes(), words) {
        return Ok((none, (number, bytes)));
    }
    if !is_session(1, words) {
        return Err(JobFault::Line(number));
    }
    scripts_of(alloc, number + 1, behind)
}

/// The scripts of the sessions, from the first line behind `%session 1` on.
fn scripts_of(alloc: Global, number: u32, bytes: &[u8]) -> Result<Sections<'_>, JobFault>
    requires { number + length bytes.now ≤ MAX_JOB + 1 }
    ensures value { IsAnswer OutOfMemory
        (result_map_both (λ r. (r.0, (r.1.0, lines r.1.1.now))) (λ fault. fault) result)
        (scripts_of [] [] number (lines bytes.now)) }
    ensures count { IfOk result (λ r. r.1.0 + length r.1.1.now ≤ MAX_JOB + 1) }
    ensures few { IfOk result (λ r. length r.0 ≤ MAX_SESSION) }
{
    let mut done = Vec::new(alloc);
    let mut steps = Vec::new(alloc);
    let mut number = number;
    let mut rest = bytes;
    while let Some((line, behind)) = split_line(rest) {
        let words = content(line);
        if is_only("%order".as_bytes(), words) {
            return Ok((with_last(done, steps)?, (number, rest)));
        }
        if is_session(done.len() + 2, words) {
            done.push(Sequence::from_vec(steps)).map_err(|_| NoMemory)?;
            steps = Vec::new(alloc);
        } else {
            push_step(alloc, &mut steps, number, words)?;
        }
        number += 1;
        rest = behind;
    }
    Ok((with_last(done, steps)?, (number, rest)))
}

/// These scripts, and behind them that of these steps.
fn with_last(
    scripts: Vec<Sequence<Step>>,
    steps: Vec<Step>,
) -> Result<Sequence<Sequence<Step>>, NoMemory>
    ensures { IsAnswer (record {}) result (Ok (scripts.items ++ steps.items ∷ [])) }
{
    let mut scripts = scripts;
    scripts
        .push(Sequence::from_vec(steps))
        .map_err(|_| NoMemory)?;
    Ok(Sequence::from_vec(scripts))
}

/// Appends the step that the words of the line say, if there are any.
#[tactic(auto, unfolding(crate::specs::Job::steps_with))]
fn push_step(alloc: Global, steps: &mut Vec<Step>, number: u32, line: &[u8]) -> Result<(), JobFault>
    ensures { IsAnswer OutOfMemory (result_map_both (λ _. steps.new.items) (λ fault. fault) result)
        (steps_with steps.old.items number (words line.now)) }
{
    if is_blank(line) {
        return Ok(());
    }
    let mut step = step_of(alloc, line)?;
    if step.is_none() {
        return Err(JobFault::Line(number));
    }
    push_taken(steps, &mut step)?;
    Ok(())
}

/// Takes the item out, where there is one, and puts it at the end.
fn push_taken<T: Drop>(items: &mut Vec<T>, item: &mut Option<T>) -> Result<(), NoMemory>
    ensures ok { OnOk result (items.new.items ≡ items.old.items ++ option_to_list item.old) }
{
    if let Some(item) = item.take() {
        items.push(item).map_err(|_| NoMemory)?;
    }
    Ok(())
}

/// Returns whether the line's words are `%session` and this number.
fn is_session(session: usize, line: &[u8]) -> bool
    ensures value { result ≡ is_session_line session (words line.now) }
    ensures small { IsTrue result → session ≤ MAX_SESSION }
{
    match split_word(line) {
        Some((name, behind)) => name == "%session".as_bytes() && is_only_number(session, behind),
        None => false,
    }
}

/// Returns whether the line has one word, which spells this number of a session.
fn is_only_number(session: usize, line: &[u8]) -> bool
    ensures value { result ≡ is_only_number session (words line.now) }
    ensures small { IsTrue result → session ≤ MAX_SESSION }
{
    match split_word(line) {
        Some((word, behind)) => is_session_number(session, word) && is_blank(behind),
        None => false,
    }
}

/// Returns whether the word spells this number of a session.
fn is_session_number(session: usize, word: &[u8]) -> bool
    ensures value { result ≡ is_session_number session word.now }
    ensures small { IsTrue result → session ≤ MAX_SESSION }
{
    match number_of(MAX_SESSION, word) {
        Some(number) => number as usize == session,
        None => false,
    }
}
