//! The shapes on a layer that stand in cells, listed once for each symbol.
ghost use Rattle.std.specs.Prelude.{◌≡◌, ◌++◌, ◌∷◌, [], IfOk, OnOk};
ghost use Rattle.lay_cells.specs.declared.cell_id.CellId.TheVariants.{Symbol};
ghost use Rattle.lay_flat.specs.Lists.{shape_rings};

use crate::shared::Shared;
use lay_cells::CellId;
use lay_items::Snapshot;
use lay_point::{LayerName, NoMemory, Ring};
use std::alloc::Global;
use std::collections::BTreeMap;
use std::marker::Model;

/// A shape, lent from the snapshot. Contracts see its rings.
#[derive(Drop)]
pub(crate) struct Shape<'s> {
    /// The rings, read together.
    pub rings: &'s [Ring],
}

impl<'s> Model for Shape<'s> {
    ghost use Rattle.std.specs.Prelude.{List};
    ghost use Rattle.lay_point.specs.declared.point.Point.{Point};

    ghost Value = { List (List Point) };

    ghost view = { λ s. s.rings.now };
}

/// The shapes on a layer in each symbol that was asked for, listed once. Contracts see the layout and the
/// layer.
#[derive(Drop)]
pub(crate) struct ShapeLists<'s> {
    snapshot: &'s Snapshot,
    layer: LayerName,
    symbols: BTreeMap<u32, Shared<Shape<'s>>>,
}

impl<'s> Model for ShapeLists<'s> {
    ghost use Rattle.lay_cells.specs.declared.cell_id.CellId.TheVariants.{Symbol};
    ghost use Rattle.lay_flat.specs.Lists.{AreListsOf, LayerOf, coded_layer_of, shape_rings};

    ghost Value = { LayerOf };

    ghost coded = { coded_layer_of };

    ghost view = { λ l. record { layout = l.snapshot.now; layer = l.layer } };

    ghost invariant = { λ l. AreListsOf
        (λ n. shape_rings (record { layout = l.snapshot.now; layer = l.layer }) (Symbol n)) l.symbols.entries };
}

impl<'s> ShapeLists<'s> {
    /// Returns no lists.
    pub(crate) fn new(alloc: Global, snapshot: &'s Snapshot, layer: &LayerName) -> ShapeLists<'s>
        ensures { result ≡ record { layout = snapshot.now; layer = layer.now } }
    {
        let symbols = BTreeMap::new(alloc);
        ShapeLists {
            snapshot,
            layer: *layer,
            symbols,
        }
    }

    /// Returns the shapes on the layer that stand in a cell, in order of their ids. The list of a symbol is
    /// kept. No call calls the top cell, so its list isn't.
    pub(crate) fn of(&mut self, alloc: Global, cell: CellId) -> Result<Shared<Shape<'s>>, NoMemory>
        ensures list { IfOk result (λ list. list ≡ shape_rings self.old cell) }
        ensures same { OnOk result (self.new ≡ self.old) }
    {
        match cell {
            CellId::Top => listed(alloc, self.snapshot, &self.layer, CellId::Top),
            CellId::Symbol(number) => self.of_symbol(alloc, number),
        }
    }

    /// Returns the shapes on the layer that stand in a symbol, in order of their ids, and keeps the list.
    fn of_symbol(&mut self, alloc: Global, number: u32) -> Result<Shared<Shape<'s>>, NoMemory>
        ensures list { IfOk result (λ list. list ≡ shape_rings self.old (Symbol number)) }
        ensures same { OnOk result (self.new ≡ self.old) }
    {
        if let Some(list) = self.symbols.get(&number) {
            return list.share();
        }
        let list = listed(alloc, self.snapshot, &self.layer, CellId::Symbol(number))?;
        let kept = list.share()?;
        self.symbols.insert(number, kept)?;
        Ok(list)
    }
}

/// Returns a list of the shapes on a layer that stand in a cell, in order of their ids.
fn listed<'s>(
    alloc: Global,
    snapshot: &'s Snapshot,
    layer: &LayerName,
    cell: CellId,
) -> Result<Shared<Shape<'s>>, NoMemory>
    ensures { IfOk result (λ list. list
        ≡ shape_rings (record { layout = snapshot.now; layer = layer.now }) cell) }
{
    let mut list = Vec::new(alloc);
    for (_, rings) in snapshot.shapes(cell, layer) {
        push(&mut list, Shape { rings })?;
    }
    Shared::of(alloc, list)
}

/// Appends a shape.
fn push<'s>(list: &mut Vec<Shape<'s>>, shape: Shape<'s>) -> Result<(), NoMemory>
    ensures { OnOk result (list.new.items ≡ list.old.items ++ shape.entry ∷ []) }
{
    list.push(shape)?;
    Ok(())
}
