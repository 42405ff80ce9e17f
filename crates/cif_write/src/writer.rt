//! Writing of a layout to a device. All that takes memory comes before the first byte.
ghost use Rattle.std.specs.Prelude.{◌≡◌, ◌+◌, ◌↔◌, IsErrOf, Ok, OnErr, OnOk};
ghost use Rattle.cif_write.specs.declared.writer.WriteFault.TheVariants.{
  Device,
  NoMemory as OutOfMemory,
};
ghost use Rattle.byte_io.specs.Device.{WroteAll, WrotePrefix};
ghost use Rattle.cif_write.specs.Boxes.{text_as};
ghost use Rattle.cif_write.specs.Text.{text};
ghost use Rattle.lay_point.specs.Memory.{IsAnswer};

use crate::boxes::Rectangles;
use crate::text::put_text;
use crate::wrap::least_unused;
use byte_io::{Out, OutBuffer, OutFault};
use lay_items::Snapshot;
use lay_point::NoMemory;
use std::alloc::Global;
use std::marker::Model;
use thiserror::Error;

/// Why a layout isn't written whole.
#[derive(Clone, Copy, Debug, PartialEq, Eq, Error)]
pub enum WriteFault {
    /// The device failed. A prefix of the text was written.
    #[error("the output device failed")]
    Device,
    /// An allocation failed. Nothing was written.
    #[error("out of memory")]
    NoMemory,
}

impl From<OutFault> for WriteFault {
    ghost from_gives = { λ _ fault. fault ≡ Device };

    fn from(_fault: OutFault) -> WriteFault {
        WriteFault::Device
    }
}

impl From<NoMemory> for WriteFault {
    ghost from_gives = { λ _ fault. fault ≡ OutOfMemory };

    fn from(_fault: NoMemory) -> WriteFault {
        WriteFault::NoMemory
    }
}

/// A layout that can be written without memory. Contracts see the layout.
#[derive(Drop)]
pub struct Prepared<'s> {
    snapshot: &'s Snapshot,
    /// A number that no symbol has.
    unused: u32,
}

impl<'s> Model for Prepared<'s> {
    ghost use Rattle.std.specs.Prelude.{◌≡◌};
    ghost use Rattle.lay_layouts.specs.Layout.{Layout, coded_layout};
    ghost use Rattle.lay_layouts.specs.SlotOrder.{in_slot_order};
    ghost use Rattle.cif_write.specs.Wrap.{least_unused};

    ghost Value = { Layout };

    ghost coded = { coded_layout };

    ghost view = { λ p. p.snapshot.now };

    ghost invariant = { λ p. p.unused ≡ least_unused (in_slot_order p.snapshot.now.symbols) };
}

/// Returns the layout, ready to be written: it finds the least number that no symbol has, for the symbol that wraps the top
/// cell's items.
///
/// # Errors
///
/// `NoMemory` where a `u32` has no such number. It takes no memory itself, but may answer that.
///
/// # Cost
///
/// A pass over the symbols.
pub fn prepare(snapshot: &Snapshot) -> Result<Prepared<'_>, NoMemory>
    ensures { IsAnswer (record {}) result (Ok snapshot.now) }
{
    let unused = least_unused(snapshot.cells())?;
    Ok(Prepared { snapshot, unused })
}

impl<'s> Prepared<'s> {
    /// Writes the layout's text to the device. It takes no memory.
    ///
    /// # Errors
    ///
    /// `OutFault` at the first failure of the device; a prefix of the text was written then.
    ///
    /// # Cost
    ///
    /// A pass over the items, with a few comparisons for each.
    pub fn put<O: Out>(&self, out: &mut O) -> Result<(), OutFault>
        ensures ok { OnOk result (WroteAll O.written O.failures out.old out.new (text self.now)) }
        ensures fault { OnErr result
            (WrotePrefix O.written O.failures out.old out.new (text self.now)) }
    {
        self.put_as(out, Rectangles::Polygons)
    }

    /// Writes the layout's text to the device, its upright rectangles as polygons or as boxes. It takes no memory.
    ///
    /// # Errors
    ///
    /// `OutFault` at the first failure of the device; a prefix of the text was written then.
    ///
    /// # Cost
    ///
    /// That of `put`, and for boxes a few comparisons more for each shape of four points.
    pub fn put_as<O: Out>(&self, out: &mut O, rectangles: Rectangles) -> Result<(), OutFault>
        ensures ok { OnOk result
            (WroteAll O.written O.failures out.old out.new (text_as rectangles self.now)) }
        ensures fault { OnErr result
            (WrotePrefix O.written O.failures out.old out.new (text_as rectangles self.now)) }
    {
        let mut buffer = OutBuffer::new();
        put_text(out, &mut buffer, rectangles, self.snapshot, self.unused);
        buffer.flush(out)
    }
}

/// Writes the layout's text to the device. The allocator is not used.
///
/// # Errors
///
/// `Device` at the first failure of the device; a prefix of the text was written then. `NoMemory` before the first byte.
///
/// # Cost
///
/// That of `prepare` and `put`.
pub fn write<O: Out>(_alloc: Global, snapshot: &Snapshot, out: &mut O) -> Result<(), WriteFault>
    ensures ok { OnOk result (WroteAll O.written O.failures out.old out.new (text snapshot.now)) }
    ensures device { IsErrOf result WriteFault.Device
        → WrotePrefix O.written O.failures out.old out.new (text snapshot.now) }
    ensures failed { IsErrOf result WriteFault.Device
        ↔ (O.failures out.new ≡ O.failures out.old + 1) }
    ensures no_memory { IsErrOf result WriteFault.NoMemory → out.new ≡ out.old }
{
    let prepared = prepare(snapshot)?;
    Ok(prepared.put(out)?)
}
