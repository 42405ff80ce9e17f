//! Where a live run keeps its lines, so that a later run can begin from them.
ghost use Rattle.std.specs.Prelude.{◌≡◌, ℕ, ◌∷◌, [], List, None, Option, OnErr, OnOk};
ghost use Rattle.live_run.specs.Journal.{KeptText, KeptAll, KeptPart, as_line};

use byte_io::{Out, OutFault};

/// A journal failed.
#[derive(Clone, Copy, Debug, PartialEq, Eq)]
pub struct KeepFault;

/// A device that keeps lines, and brings them to the disk.
pub trait Journal {
    /// What was kept so far, or `None` where the device can't know it: texts, and of each whether it, and all
    /// before it, were on the disk when the call returned.
    ghost kept: { Self → Option (List KeptText) };

    /// How often the device has failed.
    ghost losses: { Self → ℕ };

    /// Keeps the line, or lines, after those before, with a newline at the end. With `is_flushed` it and they are on the
    /// disk when the call returns.
    ///
    /// # Errors
    ///
    /// `KeepFault`, if the device fails; a prefix of the line may be kept then.
    fn keep(&mut self, line: &[u8], is_flushed: bool) -> Result<(), KeepFault>
        ensures ok { OnOk result (KeptAll kept losses self.old self.new ((as_line line.now, is_flushed) ∷ [])) }
        ensures fault { OnErr result (KeptPart kept losses self.old self.new ((as_line line.now, is_flushed) ∷ [])) };

    /// Takes a line that says nothing which a run takes, and its number. Such a line isn't kept.
    fn tell(&mut self, line: &[u8], number: u64)
        ensures { KeptAll kept losses self.old self.new [] };
}

/// The journal of a run that keeps nothing.
#[derive(Clone, Copy, Debug, Drop)]
pub struct NoJournal;

impl Journal for NoJournal {
    ghost kept = { λ _. None };

    ghost losses = { λ _. 0 };

    fn keep(&mut self, _line: &[u8], _is_flushed: bool) -> Result<(), KeepFault> {
        Ok(())
    }

    fn tell(&mut self, _line: &[u8], _number: u64) {}
}

/// The output of a run that answers nobody, for lines that were answered before.
#[derive(Clone, Copy, Debug, Drop)]
pub(crate) struct Silent;

impl Out for Silent {
    ghost written = { λ _. None };

    ghost failures = { λ _. 0 };

    fn put(&mut self, piece: &[u8]) -> Result<usize, OutFault> {
        Ok(piece.len())
    }
}
