//! Devices that take bytes.
ghost use Rattle.std.specs.Prelude.{◌≡◌, ℕ, List, Option, OnErr, OnOk};
ghost use Rattle.std.specs.Io.{WritesAtMost};
ghost use Rattle.std.specs.Io.KnownBytes.{WriteAppends};
ghost use Rattle.byte_io.specs.Device.{WrotePrefix, WroteAll, failures_after};

use thiserror::Error;

/// An output device failed.
#[derive(Clone, Copy, Debug, PartialEq, Eq, Error)]
#[error("the output device failed")]
pub struct OutFault;

/// A device that takes bytes.
pub trait Out {
    /// What was written so far, or `None` where the device can't know it.
    ghost written: { Self → Option (List ℕ) };

    /// How often the device has failed.
    ghost failures: { Self → ℕ };

    /// Writes a prefix of the piece and returns its length. An `Err` is a failure, and so is 0 for a
    /// piece that isn't empty.
    fn put(&mut self, piece: &[u8]) -> Result<usize, OutFault>
        ensures bound { WritesAtMost result piece.now }
        ensures bytes { WriteAppends (written self.old) (written self.new) result piece.now }
        ensures cause { failures self.new ≡ failures_after (failures self.old) piece.now result };
}

/// Writes all the bytes, up to the first failure of the device.
///
/// # Errors
///
/// `OutFault` at the first failure of the device; a prefix of the bytes was written then.
///
/// # Cost
///
/// A call of the device for each run of bytes that it takes.
pub fn put_all<O: Out>(out: &mut O, bytes: &[u8]) -> Result<(), OutFault>
    ensures ok { OnOk result (WroteAll O.written O.failures out.old out.new bytes.now) }
    ensures fault { OnErr result (WrotePrefix O.written O.failures out.old out.new bytes.now) }
{
    let mut rest = bytes;
    while !rest.is_empty() {
        match out.put(rest)? {
            0 => return Err(OutFault),
            taken => rest = &rest[taken..],
        }
    }
    Ok(())
}
