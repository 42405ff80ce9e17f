//! The groups that items are of.
//!
//! A layer's tag is a `u32` made of its name, so marks are compared as numbers, of 4 bytes where a
//! name has 17. Names that share a tag are in one group, and then the names themselves are
//! compared.
ghost use Rattle.std.specs.Prelude.{◌≡◌};
ghost use Rattle.lay_items.specs.Runs.{
  begins,
  call_group,
  cell_group,
  cell_key,
  group_in,
  layer_group,
};
ghost use Rattle.lay_items.specs.Runs.{layer_tag, same_group, tag_of};

use lay_cells::CellId;
use lay_layouts::Item;
use lay_point::LayerName;

/// Items that are lent together: those of a cell, its shapes on the layers of a tag, or its calls. They are ordered
/// by cell, then by tag.
#[derive(Clone, Copy, Debug, PartialEq, Eq, PartialOrd, Ord)]
pub struct Group {
    /// The number of the cell, 0 for the top cell and one more for symbols.
    pub(crate) cell: u64,
    /// The tag of the layers or of calls. All items of a cell have 0.
    pub(crate) tag: u32,
}

/// What items are grouped by.
#[derive(Clone, Copy, Debug)]
pub enum By {
    /// By the cell in which they stand.
    Cell,
    /// By the cell, and there by the tag of the layer, calls for themselves.
    Layer,
}

impl By {
    /// Returns the group of an item.
    pub(crate) fn group(self, item: &Item) -> Group
        ensures { result ≡ group_in self item.now }
    {
        Group {
            cell: cell_key(item.cell()),
            tag: self.tag(item),
        }
    }

    /// Returns whether an item is of the group. By cell it doesn't look at the layer.
    pub(crate) fn is_in(self, item: &Item, group: Group) -> bool
        ensures { result ≡ same_group (group_in self item.now) group }
    {
        cell_key(item.cell()) == group.cell && self.tag(item) == group.tag
    }

    /// Returns the tag of an item's group.
    fn tag(self, item: &Item) -> u32
        ensures { result ≡ (group_in self item.now).tag }
    {
        match self {
            By::Cell => 0,
            By::Layer => tag_of(item),
        }
    }
}

/// The tag of a call.
const CALL_TAG: u32 = 0;

/// Returns the group of a cell's items.
pub(crate) fn cell_group(cell: CellId) -> Group
    ensures { result ≡ cell_group cell }
{
    Group {
        cell: cell_key(cell),
        tag: 0,
    }
}

/// Returns the group of a cell's shapes on a layer. Those on layers of the same tag are of it too.
pub(crate) fn layer_group(cell: CellId, layer: &LayerName) -> Group
    ensures { result ≡ layer_group cell layer.now }
{
    Group {
        cell: cell_key(cell),
        tag: layer_tag(layer),
    }
}

/// Returns the group of a cell's calls.
pub(crate) fn call_group(cell: CellId) -> Group
    ensures { result ≡ call_group cell }
{
    Group {
        cell: cell_key(cell),
        tag: CALL_TAG,
    }
}

/// Returns whether an item of this group begins a run behind one of another group, or as the first.
pub(crate) fn begins(before: Option<Group>, group: Group) -> bool
    ensures { result ≡ begins before group }
{
    match before {
        Some(before) if before == group => false,
        _ => true,
    }
}

/// Returns the tag of an item.
fn tag_of(item: &Item) -> u32
    ensures { result ≡ tag_of item.now }
{
    match item {
        Item::Shape { layer, .. } => layer_tag(layer),
        Item::Placed { .. } => CALL_TAG,
    }
}

/// Returns the tag of a layer, a number made of all bytes of its name. Names of up to four bytes have tags of their own,
/// and few others share one.
#[tactic(auto, unfolding(crate::specs::Runs::layer_tag))]
fn layer_tag(layer: &LayerName) -> u32
    ensures { result ≡ layer_tag layer.now }
{
    let mut tag = 0u32;
    for byte in layer.as_bytes() {
        tag = tag.wrapping_mul(257).wrapping_add(u32::from(*byte));
    }
    tag
}

/// Returns the cell's number, which no other cell has.
fn cell_key(cell: CellId) -> u64
    ensures { result ≡ cell_key cell }
{
    match cell {
        CellId::Top => 0,
        CellId::Symbol(number) => u64::from(number) + 1,
    }
}
