//! Names and labels of the text that was read, which stay beside its layout.
ghost use Rattle.std.specs.Prelude.{◌≡◌, ◌≤◌, ◌+◌, IfOk, length};
ghost use Rattle.masklay.specs.Named.{names_in};
ghost use Rattle.masklay.specs.Outcome.{job_in};

use crate::program::options::Options;
use crate::program::outcome::job_in;
use cif_names::Names;
use job_text::{JobFault, MAX_JOB};
use lay_point::NoMemory;
use std::alloc::Global;
use std::io::Write;

/// Returns the names and labels of the job's text, where the options ask for them. The job is read for it.
pub(super) fn names_in(
    alloc: Global,
    options: Options,
    job: &[u8],
) -> Result<Option<Names>, NoMemory>
    requires { length job.now ≤ MAX_JOB + 1 }
    ensures { IfOk result (λ names. names ≡ names_in options.named (job_in options.bare job.now)) }
{
    if !options.named {
        return Ok(None);
    }
    let names = match job_in(alloc, options.bare, job) {
        Ok(job) => Names::of(alloc, job.cif)?,
        Err(JobFault::Line(_)) => Names::of(alloc, b"")?,
        Err(JobFault::NoMemory) => return Err(NoMemory),
    };
    Ok(Some(names))
}

/// Returns how many names and labels are left out, where there are some that are kept.
pub(super) fn left_out_of(names: &Option<Names>) -> usize {
    match names {
        Some(names) => names.left_out(),
        None => 0,
    }
}

/// Appends how many names and labels are left out, where some are.
pub(super) fn put_left_out(lines: &mut Vec<u8>, left_out: usize) -> Result<(), NoMemory> {
    let text = match left_out {
        0 => return Ok(()),
        1 => "name or label is",
        _ => "names and labels are",
    };
    write!(
        lines,
        "masklay: {left_out} {text} left out: a name is one word, and a label a word and a point on the grid\n"
    )
    .map_err(|_| NoMemory)
}
