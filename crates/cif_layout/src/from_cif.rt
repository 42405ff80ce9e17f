//! The elements of a text as items.
ghost use Rattle.std.specs.Prelude.{◌≡◌, IfOk, Ok};
ghost use Rattle.lay_point.specs.Memory.{IsAnswer};
ghost use Rattle.cif_layout.specs.FromCif.{item_in, items_of_elements, layout_of};

use cif_read::{CifFile, Element, Figure};
use lay_cells::CellId;
use lay_items::{NumberedItems, Snapshot, Version};
use lay_layouts::{Item, Rings};
use lay_point::{NoMemory, ShrinkingIntoIter};
use std::alloc::Global;

/// Layouts that are made of a text. What they are made into is said by each type that has it: the method itself promises
/// nothing.
pub trait FromCif: Sized {
    /// Returns the layout of a text's meaning, as the type says.
    fn from_cif(alloc: Global, file: CifFile) -> Result<Self, NoMemory>;
}

impl FromCif for Snapshot {
    /// Returns the layout of a text's meaning: its symbols in the order of their definitions, and its
    /// element q as item 0.0.q.
    ///
    /// # Cost
    ///
    /// A pass over the elements, and a sort of where runs of a cell or a layer begin.
    fn from_cif(alloc: Global, file: CifFile) -> Result<Snapshot, NoMemory>
        ensures { IsAnswer (record {}) result (Ok (layout_of file)) }
    {
        let (symbols, elements) = file.into_parts();
        let items = numbered(alloc, elements)?;
        let version = Version::of_numbered(alloc, &symbols, items)?;
        Snapshot::of(alloc, version)
    }
}

/// Returns the elements as items, numbered. What they take is given back on the way, so they don't stand whole
/// beside the items.
fn numbered(alloc: Global, elements: Vec<Element>) -> Result<NumberedItems, NoMemory>
    ensures { IfOk result (λ items. items ≡ items_of_elements elements.items) }
{
    let mut items = NumberedItems::new(alloc);
    for Element { cell, figure } in ShrinkingIntoIter::of(elements) {
        items.push(alloc, item_in(alloc, cell, figure)?)?;
    }
    Ok(items)
}

/// Returns a figure of a cell as an item.
fn item_in(alloc: Global, cell: CellId, figure: Figure) -> Result<Item, NoMemory>
    ensures { IfOk result (λ item. item ≡ item_in cell figure) }
{
    match figure {
        Figure::Polygon { layer, ring } => Ok(Item::Shape {
            cell,
            layer,
            rings: Rings::one(alloc, ring)?,
        }),
        Figure::Call { target, turn } => Ok(Item::Placed { cell, target, turn }),
    }
}
