//! The layout on which a live run begins, that of the CIF text in front of the line `%live`, and how it is shown.
ghost use Rattle.std.specs.Prelude.{◌≡◌, ◌+◌, IfSome, true, false, Err};
ghost use Rattle.std.specs.Result.{result_map_both};
ghost use Rattle.lay_point.specs.Memory.{IsAnswer};
ghost use Rattle.job_text.specs.declared.job.JobFault.TheVariants.{Line};
ghost use Rattle.job_text.specs.Job.{job_of};
ghost use Rattle.live_run.specs.declared.base.HeadFault.TheVariants.{Memory as MemoryHead};
ghost use Rattle.live_run.specs.Cif.{cif_from, has_no_script};
ghost use Rattle.live_run.specs.Course.{
  IsBaseOf,
  OpensTo,
  RefusesHead,
  end_of_head,
  head_cif,
  head_job,
};

use crate::ending::LiveEnd;
use crate::live::Live;
use crate::showing::{Showing, View};
use cif_layout::FromCif;
use cif_read::{CifFault, FaultKind, read};
use job_text::{Job, JobFault};
use lay_items::Snapshot;
use lay_point::NoMemory;
use std::alloc::Global;

/// Why no run begins.
#[derive(Clone, Copy, Debug)]
pub(crate) enum HeadFault {
    /// The first line with a fault, or the live line.
    Job(u32),
    /// The first fault of the CIF text.
    Cif(CifFault),
    /// A growth of memory was refused.
    Memory,
}

impl From<JobFault> for HeadFault {
    ghost from_gives = { λ fault head. head ≡ head_job fault };

    fn from(fault: JobFault) -> HeadFault {
        match fault {
            JobFault::Line(line) => HeadFault::Job(line),
            JobFault::NoMemory => HeadFault::Memory,
        }
    }
}

impl From<CifFault> for HeadFault {
    ghost from_gives = { λ fault head. head ≡ head_cif fault };

    fn from(fault: CifFault) -> HeadFault {
        match fault.kind {
            FaultKind::NoMemory => HeadFault::Memory,
            _ => HeadFault::Cif(fault),
        }
    }
}

impl From<NoMemory> for HeadFault {
    ghost from_gives = { λ _ head. head ≡ MemoryHead };

    fn from(_refused: NoMemory) -> HeadFault {
        HeadFault::Memory
    }
}

/// Returns the run after this head, before its first line, where the live line has this number.
pub(crate) fn open_run(
    alloc: Global,
    showing: Showing,
    head: &[u8],
    number: u32,
) -> Result<Live, HeadFault>
    ensures { OpensTo showing head.now number result }
{
    let (base, view) = base_of(alloc, showing, head, number)?;
    Ok(Live::new(alloc, base, view)?)
}

/// Returns the end of a run whose head has this fault and this text.
pub(crate) fn head_end(fault: HeadFault, text: Vec<u8>) -> LiveEnd
    ensures { result ≡ end_of_head fault text }
{
    match fault {
        HeadFault::Job(line) => LiveEnd::Job { line, text },
        HeadFault::Cif(fault) => LiveEnd::Cif { fault, text },
        HeadFault::Memory => LiveEnd::Memory,
    }
}

/// Returns the end of a run whose input ends with this head; the line after it has this number.
pub(crate) fn unopened(alloc: Global, head: Vec<u8>, number: u32) -> LiveEnd
    ensures { RefusesHead false head.items number result }
{
    match job_fault(alloc, head.as_slice(), number) {
        Some(line) => LiveEnd::Job { line, text: head },
        None => LiveEnd::Memory,
    }
}

/// Returns the layout of the head's CIF text, and how it is shown.
#[tactic(auto, unfolding(crate::specs::Course::IsBaseOf))]
fn base_of(
    alloc: Global,
    showing: Showing,
    head: &[u8],
    number: u32,
) -> Result<(Snapshot, View), HeadFault>
    ensures { IsBaseOf showing head.now number result }
{
    let cif = cif_of(alloc, head, number)?;
    let file = read(alloc, cif)?;
    let view = View::of(alloc, showing, cif)?;
    Ok((Snapshot::from_cif(alloc, file)?, view))
}

/// Returns the CIF text of a head in front of a live line of this number.
fn cif_of(alloc: Global, head: &[u8], number: u32) -> Result<&[u8], JobFault>
    ensures { IsAnswer JobFault.NoMemory (result_map_both (λ cif. cif.now) (λ fault. fault) result)
        (cif_from number true (job_of head.now)) }
{
    let job = Job::read(alloc, head)?;
    if job.scripts.as_slice().is_empty() {
        return Ok(job.cif);
    }
    Err(JobFault::Line(number))
}

/// Returns the line of the fault of a head without a live line, or nothing where memory is refused.
fn job_fault(alloc: Global, head: &[u8], number: u32) -> Option<u32>
    ensures { IfSome result (λ line. cif_from number false (job_of head.now) ≡ Err (Line line)) }
{
    match Job::read(alloc, head) {
        Ok(_) => Some(number),
        Err(JobFault::Line(line)) => Some(line),
        Err(JobFault::NoMemory) => None,
    }
}
