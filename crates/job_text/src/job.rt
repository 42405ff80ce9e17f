//! Jobs, and the reading of them.
ghost use Rattle.std.specs.Prelude.{◌≡◌, ◌<◌, ◌+◌, ◌≤◌, IfOk, length};
ghost use Rattle.std.specs.Result.{result_map_both};
ghost use Rattle.lay_point.specs.Memory.{IsAnswer};
ghost use Rattle.job_text.specs.declared.job.JobFault.TheVariants.{Line, NoMemory as OutOfMemory};
ghost use Rattle.job_text.specs.Job.{head_of, is_only, job_of, sections_job};
ghost use Rattle.byte_io.specs.Lines.{lines};
ghost use Rattle.job_text.specs.Words.{words};

use crate::order_section::order_at;
use crate::scripts::sections_at;
use crate::text::{Place, split_text};
use crate::words::{is_blank, split_word};
use byte_io::{content, split_line};
use lay_point::{NoMemory, Sequence};
use session_steps::Step;
use std::alloc::Global;
use std::marker::Model;
use thiserror::Error;

/// The longest job that is read, in bytes.
pub const MAX_JOB: usize = 16_777_216;

const _: () = prove!(MAX_JOB == 16_777_216);

/// Why a job isn't read.
#[derive(Clone, Copy, Debug, PartialEq, Eq, Error)]
pub enum JobFault {
    /// The first line with a fault, counted from 1. A job that is too long has it on line 0.
    #[error("the job is refused at line {0}")]
    Line(u32),
    /// A growth of memory was refused.
    #[error("out of memory")]
    NoMemory,
}

impl From<NoMemory> for JobFault {
    ghost from_gives = { λ _ fault. fault ≡ OutOfMemory };

    fn from(_refused: NoMemory) -> JobFault {
        JobFault::NoMemory
    }
}

/// What a job says. The CIF text is lent by the job's bytes.
#[derive(Debug, Drop)]
pub struct Job<'a> {
    /// The bytes of the CIF text.
    pub cif: &'a [u8],
    /// The steps of each session, in order, session 1 first.
    pub scripts: Sequence<Sequence<Step>>,
    /// The sessions in the order in which their steps run: each stands here once for each of its steps.
    pub order: Sequence<u8>,
}

impl<'a> Model for Job<'a> {
    ghost use Rattle.job_text.specs.Jobs.{Job};

    ghost Value = { Job };

    ghost view = { λ job. record { cif = job.cif.now; scripts = job.scripts; order = job.order } };
}

impl<'a> Job<'a> {
    /// The job that the bytes spell, or its first fault. Any answer but that of a job that is too long
    /// can give way to `NoMemory`.
    ///
    /// # Cost
    ///
    /// A pass over the bytes.
    #[tactic(auto, unfolding(crate::specs::Job::job_of))]
    pub fn read(alloc: Global, bytes: &'a [u8]) -> Result<Job<'a>, JobFault>
        // A job that is too long is refused before anything else, and needs no memory.
        ensures too_long { MAX_JOB < length bytes.now → result ≡ Err (Line 0) }

        // Which job it is, or which line is the first with a fault.
        ensures answer { IsAnswer JobFault.NoMemory result (job_of bytes.now) }
    {
        if bytes.len() > MAX_JOB {
            return Err(JobFault::Line(0));
        }
        sections_job(alloc, bytes)
    }
}

/// The job of bytes that aren't too many.
#[tactic(auto, unfolding(crate::specs::Job::sections_job))]
fn sections_job(alloc: Global, bytes: &[u8]) -> Result<Job<'_>, JobFault>
    requires { length bytes.now ≤ MAX_JOB }
    ensures { IsAnswer JobFault.NoMemory result (sections_job bytes.now) }
{
    let (number, behind) = behind_head(bytes)?;
    let (cif, (number, sections)) = split_text(number, behind);
    let (scripts, (number, behind)) = sections_at(alloc, number, sections)?;
    let order = order_at(alloc, scripts.as_slice(), number, behind)?;
    Ok(Job {
        cif,
        scripts,
        order,
    })
}

/// What stands behind the line `%cif`, which is the first with words.
fn behind_head(bytes: &[u8]) -> Result<Place<'_>, JobFault>
    requires { length bytes.now ≤ MAX_JOB }
    ensures value { result_map_both (λ p. (p.0, lines p.1.now)) (λ fault. fault) result ≡ head_of 1 (lines bytes.now) }
    ensures count { IfOk result (λ p. p.0 + length p.1.now ≤ MAX_JOB + 1) }
{
    let mut number = 1;
    let mut rest = bytes;
    while let Some((line, behind)) = split_line(rest) {
        let words = content(line);
        if !is_blank(words) {
            if is_only("%cif".as_bytes(), words) {
                return Ok((number + 1, behind));
            }
            return Err(JobFault::Line(number));
        }
        number += 1;
        rest = behind;
    }
    Err(JobFault::Line(1))
}

/// Returns whether the line has this one word.
pub(crate) fn is_only(name: &[u8], line: &[u8]) -> bool
    ensures { result ≡ is_only name.now (words line.now) }
{
    match split_word(line) {
        Some((word, behind)) => word == name && is_blank(behind),
        None => false,
    }
}
