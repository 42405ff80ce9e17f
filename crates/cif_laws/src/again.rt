//! A layout, written and read again.
ghost use Rattle.std.specs.Prelude.{◌≡◌, ◌≤◌, length, Ok};
ghost use Rattle.lay_point.specs.Memory.{IsAnswer};
ghost use Rattle.lay_layouts.specs.Sound.{IsSound};
ghost use Rattle.cif_read.specs.declared.file.TheConstants.{MAX_SYMBOLS, MAX_TEXT};
ghost use Rattle.cif_read.specs.Meaning.{no_memory};
ghost use Rattle.cif_write.specs.Text.{text};
ghost use Rattle.cif_write.specs.Wrap.{wrap, written};
ghost use Rattle.cif_laws.specs.Laws.{AreOnNamedLayers, IsOnNamedLayer};

use byte_io::{Failing, MemoryOut};
use cif_layout::FromCif;
use cif_read::{CifFault, read};
use cif_write::write;
use lay_items::Snapshot;
use lay_layouts::Item;
use lay_point::NoMemory;
use std::alloc::Global;

/// Returns the layout, written and read again: itself, wrapped. A text that would be too long, or define
/// too many symbols, is refused by the reader.
///
/// # Errors
///
/// `NoMemory`, if an allocation fails; else the reader's, of a text that is too long or defines too many symbols.
pub fn reread(alloc: Global, snapshot: &Snapshot) -> Result<Snapshot, CifFault>
    ensures { length (written snapshot.now).definitions ≤ MAX_SYMBOLS → length (text snapshot.now) ≤ MAX_TEXT
        → IsAnswer no_memory result (Ok (wrap snapshot.now)) }
{
    look_at_layers(snapshot);
    let mut out = MemoryOut::new(alloc, usize::MAX, usize::MAX, Failing::ByErr);
    write(alloc, snapshot, &mut out).map_err(|_| NoMemory)?;
    let file = read(alloc, out.written())?;
    Ok(Snapshot::from_cif(alloc, file)?)
}

/// Looks at each layer's name. The type of a layer keeps that it has one.
pub fn look_at_layers(snapshot: &Snapshot)
    ensures named { AreOnNamedLayers snapshot.now }
    ensures sound { IsSound snapshot.now }
{
    for (_, item) in snapshot.version().iter() {
        look_at_layer(item);
    }
}

/// Looks at the name of the layer that the item is drawn on, if it is drawn.
fn look_at_layer(item: &Item)
    ensures { IsOnNamedLayer item.now }
{
    if let Item::Shape { layer, .. } = item {
        layer.as_bytes();
    }
}
