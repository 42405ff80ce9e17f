//! Reading of the whole input.
ghost use Rattle.std.specs.Prelude.{◌≡◌, ◌++◌, ◌+◌, ◌≤◌, ℕ, List, IfOk, OnOk, Some, length};
ghost use Rattle.live_run.specs.declared.run.TheConstants.{MAX_READS};
ghost use Rattle.masklay.specs.declared.program.reading.ReadFault.TheVariants.{
  Device as Stopped,
  NoMemory as OutOfMemory,
};
ghost use Rattle.masklay.specs.Reading.{HowRead, input_kept};

use byte_io::{In, InFault};
use job_text::MAX_JOB;
use lay_point::NoMemory;
use live_run::MAX_READS;
use std::alloc::Global;

/// How many bytes are asked for in one read.
const BUFFER: usize = 16_384;

/// Why the input isn't read to its end.
#[derive(Clone, Copy, Debug, PartialEq, Eq)]
pub(super) enum ReadFault {
    /// The device failed, or gave bytes in each of `MAX_READS` reads.
    Device,
    /// A growth of memory was refused.
    NoMemory,
}

impl From<InFault> for ReadFault {
    ghost from_gives = { λ _ fault. fault ≡ Stopped };

    fn from(_failed: InFault) -> ReadFault {
        ReadFault::Device
    }
}

impl From<NoMemory> for ReadFault {
    ghost from_gives = { λ _ fault. fault ≡ OutOfMemory };

    fn from(_refused: NoMemory) -> ReadFault {
        ReadFault::NoMemory
    }
}

/// Reads the input to its end, and keeps one byte more of it than a job may have.
pub(super) fn read_all<I: In>(alloc: Global, input: &mut I) -> Result<Vec<u8>, ReadFault>
    ensures kept { IfOk result (λ kept. (bytes : List ℕ) → I.remaining input.old ≡ Some bytes
        → kept.items ≡ input_kept bytes) }
    ensures few { IfOk result (λ kept. length kept.items ≤ MAX_JOB + 1) }
    ensures how { HowRead (I.counts input.old) (I.counts input.new) result }
    ensures reads { (I.counts input.new).reads ≤ (I.counts input.old).reads + MAX_READS }
{
    let mut kept = Vec::new(alloc);
    let mut buffer = [0; BUFFER];
    for _ in 0..MAX_READS {
        let taken = input.take(&mut buffer)?;
        if taken == 0 {
            return Ok(kept);
        }
        keep(&mut kept, &buffer[..taken])?;
    }
    Err(ReadFault::Device)
}

/// Appends the piece, as far as one byte more is kept than a job may have.
#[tactic(auto, unfolding(crate::specs::Reading::input_kept))]
fn keep(kept: &mut Vec<u8>, piece: &[u8]) -> Result<(), NoMemory>
    requires { length kept.old.items ≤ MAX_JOB + 1 }
    ensures kept { OnOk result (kept.new.items ≡ input_kept (kept.old.items ++ piece.now)) }
    ensures few { OnOk result (length kept.new.items ≤ MAX_JOB + 1) }
{
    let room = MAX_JOB + 1 - kept.len();
    let len = room.min(piece.len());
    kept.extend_from_slice(&piece[..len])?;
    Ok(())
}
