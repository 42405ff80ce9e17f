//! The section of a job that states the order of the steps.
ghost use Rattle.std.specs.Prelude.{◌≡◌, ◌+◌, ◌++◌, ◌<◌, ◌==◌, ◌≤◌, IfOk, Ok, OnOk, count_by, length, map};
ghost use Rattle.std.specs.List.{list_all};
ghost use Rattle.lay_point.specs.Memory.{IsAnswer};
ghost use Rattle.job_text.specs.declared.job.JobFault.TheVariants.{NoMemory as OutOfMemory};
ghost use Rattle.job_text.specs.Job.{
  are_counted,
  named_by,
  named_in,
  named_order,
  odd_line,
  one_by_one,
  order_at,
  order_fits,
  session_of,
  total_len,
};
ghost use Rattle.byte_io.specs.Lines.{lines};
ghost use Rattle.byte_io.specs.Numbers.{is_number};
ghost use Rattle.job_text.specs.Words.{words};

use crate::job::{JobFault, MAX_JOB};
use crate::order::push_times;
use crate::words::{MAX_SESSION, split_word};
use byte_io::{content, is_number, number_of, split_line};
use lay_point::{NoMemory, Sequence};
use session_steps::Step;
use std::alloc::Global;

/// The order of the steps: what the section at this place states, or one session after the other.
#[tactic(auto, unfolding(crate::specs::Job::order_at))]
pub(crate) fn order_at(
    alloc: Global,
    scripts: &[Sequence<Step>],
    number: u32,
    bytes: &[u8],
) -> Result<Sequence<u8>, JobFault>
    requires few { length scripts.now ≤ MAX_SESSION }
    requires count { number + length bytes.now ≤ MAX_JOB + 1 }
    ensures { IsAnswer OutOfMemory result (order_at scripts.now (number, lines bytes.now)) }
{
    let Some((_, behind)) = split_line(bytes) else {
        return Ok(one_by_one(alloc, scripts)?);
    };
    named_order(alloc, scripts, number, behind)
}

/// All steps of session 1, then those of session 2, and so on.
fn one_by_one(alloc: Global, scripts: &[Sequence<Step>]) -> Result<Sequence<u8>, NoMemory>
    requires { length scripts.now ≤ MAX_SESSION }
    ensures { IsAnswer (record {}) result (Ok (one_by_one 1 scripts.now)) }
{
    let mut order = Vec::new(alloc);
    let mut session = 1;
    for script in scripts {
        push_times(&mut order, script.as_slice().len(), session)?;
        session += 1;
    }
    Ok(Sequence::from_vec(order))
}

/// The order that the lines name, behind `%order` on the line of this number.
#[tactic(auto, unfolding(crate::specs::Job::named_order))]
fn named_order(
    alloc: Global,
    scripts: &[Sequence<Step>],
    number: u32,
    bytes: &[u8],
) -> Result<Sequence<u8>, JobFault>
    requires { number + length bytes.now ≤ MAX_JOB }
    ensures { IsAnswer OutOfMemory result (named_order scripts.now number (lines bytes.now)) }
{
    let order = named_in(alloc, bytes)?;
    if !fits(scripts, order.as_slice()) {
        return Err(JobFault::Line(number));
    }
    match odd_line(number + 1, bytes) {
        Some(line) => Err(JobFault::Line(line)),
        None => Ok(order),
    }
}

/// The sessions that the lines name.
fn named_in(alloc: Global, bytes: &[u8]) -> Result<Sequence<u8>, NoMemory>
    ensures { IsAnswer (record {}) result (Ok (named_in (lines bytes.now))) }
{
    let mut order = Vec::new(alloc);
    let mut rest = bytes;
    while let Some((line, behind)) = split_line(rest) {
        push_named(&mut order, content(line))?;
        rest = behind;
    }
    Ok(Sequence::from_vec(order))
}

/// Appends the sessions that the words of the line name.
fn push_named(order: &mut Vec<u8>, line: &[u8]) -> Result<(), NoMemory>
    ensures { OnOk result (order.new.items ≡ order.old.items ++ named_by (words line.now)) }
{
    let mut rest = line;
    while let Some((word, behind)) = split_word(rest) {
        if is_number(word) {
            order.push(session_of(word))?;
        }
        rest = behind;
    }
    Ok(())
}

/// The session that the number names; 0 stands for those above `MAX_SESSION` too.
#[tactic(auto, unfolding(crate::specs::Job::session_of))]
pub(crate) fn session_of(word: &[u8]) -> u8
    ensures { result ≡ session_of word.now }
{
    number_of(MAX_SESSION, word).unwrap_or(0) as u8
}

/// The number of the first line that has a word that isn't a number.
fn odd_line(number: u32, bytes: &[u8]) -> Option<u32>
    requires { number + length bytes.now ≤ MAX_JOB + 1 }
    ensures { result ≡ odd_line number (lines bytes.now) }
{
    let mut number = number;
    let mut rest = bytes;
    while let Some((line, behind)) = split_line(rest) {
        if !are_numbers(content(line)) {
            return Some(number);
        }
        number += 1;
        rest = behind;
    }
    None
}

/// Returns whether all words of the line are numbers.
fn are_numbers(line: &[u8]) -> bool
    ensures { result ≡ list_all is_number (words line.now) }
{
    let mut rest = line;
    while let Some((word, behind)) = split_word(rest) {
        if !is_number(word) {
            return false;
        }
        rest = behind;
    }
    true
}

/// Returns whether each session stands in the order as often as it has steps, and nothing else does.
#[tactic(auto, unfolding(crate::specs::Job::order_fits))]
fn fits(scripts: &[Sequence<Step>], order: &[u8]) -> bool
    ensures { result ≡ order_fits scripts.now order.now }
{
    has_total_len(scripts, order.len()) && are_counted(scripts, order)
}

/// Returns whether the scripts have so many steps, all together.
fn has_total_len(scripts: &[Sequence<Step>], len: usize) -> bool
    ensures { result ≡ (len == total_len scripts.now) }
{
    let mut left = len;
    for script in scripts {
        let Some(fewer) = left.checked_sub(script.as_slice().len()) else {
            return false;
        };
        left = fewer;
    }
    left == 0
}

/// Returns whether each session stands in the order as often as it has steps.
fn are_counted(scripts: &[Sequence<Step>], order: &[u8]) -> bool
    ensures { result ≡ are_counted 1 scripts.now order.now }
{
    let mut session: u64 = 1;
    for script in scripts {
        if count_of(session, order) != script.as_slice().len() {
            return false;
        }
        session += 1;
    }
    true
}

/// Returns how often the session stands in the order.
fn count_of(session: u64, order: &[u8]) -> usize
    ensures { result ≡ count_by (λ n. n == session) order.now }
{
    order.iter().filter(|n| u64::from(**n) == session).count()
}
