//! The parts of a layout that commands read and write, and their order.
ghost use Rattle.std.specs.Prelude.{◌≡◌, refl};
ghost use Rattle.std.specs.Cmp.Lexicographic.{slice_cmp};
ghost use Rattle.std.specs.Ordering.{nat_cmp};
ghost use Rattle.txn_commands.specs.Elements.{cell_number, cell_rank, element_layer, numbers_of};

use lay_cells::CellId;
use lay_layouts::ItemId;
use lay_point::LayerName;
use std::cmp::Ordering;

/// A part of a layout that a transaction read or wrote. Elements are ordered by their kinds as they stand
/// here, then by the fields: ids in their order, the top cell before the symbols, symbols by number, and
/// layers by the bytes of their names.
#[derive(Clone, Copy, Debug)]
pub enum Element {
    /// The item of this id.
    Item(ItemId),
    /// The shapes of a cell on a layer.
    Layer(CellId, LayerName),
    /// The calls in a cell.
    Calls(CellId),
    /// The symbol of this number: whether it is there, and its slot.
    Cell(u32),
    /// All items in the symbol of this number.
    Content(u32),
    /// All calls of the symbol of this number.
    Uses(u32),
}

impl Element {
    /// Returns the rank, then the fields that are numbers, and zeros behind them.
    fn numbers(&self) -> [u32; 4]
        ensures { result ≡ numbers_of self.now }
    {
        match self {
            Element::Item(id) => [0, u32::from(id.session), u32::from(id.txn), id.seq],
            Element::Layer(cell, _) => [1, cell_rank(*cell), cell_number(*cell), 0],
            Element::Calls(cell) => [2, cell_rank(*cell), cell_number(*cell), 0],
            Element::Cell(number) => [3, *number, 0, 0],
            Element::Content(number) => [4, *number, 0, 0],
            Element::Uses(number) => [5, *number, 0, 0],
        }
    }

    /// Returns the bytes of the layer's name, if it has one.
    fn name(&self) -> &[u8]
        ensures { result.now ≡ element_layer self.now }
    {
        match self {
            Element::Layer(_, layer) => layer.as_bytes(),
            _ => &[],
        }
    }
}

/// Returns 0 for the top cell and 1 for a symbol.
fn cell_rank(cell: CellId) -> u32
    ensures { result ≡ cell_rank cell }
{
    match cell {
        CellId::Top => 0,
        CellId::Symbol(_) => 1,
    }
}

/// Returns the number of a symbol, and 0 for the top cell.
fn cell_number(cell: CellId) -> u32
    ensures { result ≡ cell_number cell }
{
    match cell {
        CellId::Top => 0,
        CellId::Symbol(number) => number,
    }
}

/// Returns the order of the first two of these numbers that differ.
fn compare(one: [u32; 4], other: [u32; 4]) -> Ordering
    ensures { result ≡ slice_cmp nat_cmp one other }
{
    one[0]
        .cmp(&other[0])
        .then(one[1].cmp(&other[1]))
        .then(one[2].cmp(&other[2]))
        .then(one[3].cmp(&other[3]))
}

impl Ord for Element {
    ghost use Rattle.txn_commands.specs.Elements.{element_cmp, elements_total};

    ghost cmp = { element_cmp };

    ghost total = { elements_total };

    ghost matches_partial_cmp = { λ _ _. refl };

    ghost matches_eq = { λ _ _. refl };

    fn cmp(&self, other: &Element) -> Ordering {
        match compare(self.numbers(), other.numbers()) {
            Ordering::Equal => self.name().cmp(other.name()),
            unequal => unequal,
        }
    }
}

impl PartialOrd for Element {
    ghost use Rattle.std.specs.Prelude.{Some};
    ghost use Rattle.txn_commands.specs.Elements.{element_cmp, elements_partial};

    ghost partial_cmp = { λ e f. Some (element_cmp e f) };

    ghost laws = { elements_partial };

    fn partial_cmp(&self, other: &Element) -> Option<Ordering> {
        Some(self.cmp(other))
    }
}

impl PartialEq for Element {
    ghost use Rattle.txn_commands.specs.Elements.{element_eq, element_eq_partial};

    ghost eq = { element_eq };

    ghost laws = { element_eq_partial };

    fn eq(&self, other: &Element) -> bool {
        self.cmp(other).is_eq()
    }
}

impl Eq for Element {
    ghost use Rattle.std.specs.Cmp.{eq_by_cmp_equiv};
    ghost use Rattle.txn_commands.specs.Elements.{elements_total};

    ghost laws = { eq_by_cmp_equiv elements_total };
}
