//! The command that replaces shapes by those of an operation on two layers.
ghost use Rattle.std.specs.Prelude.{◌≡◌, ◌+◌, ◌<◌, ◌≤◌, [], ◌∷◌, ◌++◌, IfOk, OnOk, flat_map, length, map};
ghost use Rattle.lay_layouts.specs.declared.item.Item.TheVariants.{Shape};
ghost use Rattle.lay_point.specs.Memory.{IsAnswer};
ghost use Rattle.txn_commands.specs.declared.command.Command.TheVariants as command;
ghost use Rattle.txn_commands.specs.Acts.{bool_act, cell_elements, id_after, item_elements};
ghost use Rattle.txn_commands.specs.Acts.{made_from, new_shapes, operands, removals};
ghost use Rattle.txn_commands.specs.declared.element.Element.TheVariants.{Layer};
ghost use Rattle.txn_commands.specs.Plans.{combination_in, fault_of_flat, plan, shape_ids};
ghost use Rattle.lay_flat.specs.declared.fault.FlatFault.TheVariants as flat_fault;
ghost use Rattle.bool_rules.specs.Booleans.{bool_shapes};
ghost use Rattle.txn_plans.specs.Shaping.{command_result, fault_of_op, lists_in, points_of};

use crate::act::{Act, Written};
use crate::calls::cells_from;
use crate::layout_view::LayoutView;
use band_workers::Bands;
use face_rows::Op;
use lay_cells::CellId;
use lay_flat::{FlatFault, Walks};
use lay_items::Snapshot;
use lay_layouts::{Item, ItemId, Rings};
use lay_point::{LayerName, NoMemory, Ring};
use layer_ops::{OpFault, combine};
use std::alloc::Global;
use std::thread::Threads;
use txn_commands::{CmdFault, Done, Element};

/// What a Boolean is asked: the operation, the cell, the layers of both inputs, and that of the shapes.
#[derive(Clone, Copy)]
pub(crate) struct BoolArgs {
    pub(crate) op: Op,
    pub(crate) cell: CellId,
    pub(crate) a: LayerName,
    pub(crate) b: LayerName,
    pub(crate) out: LayerName,
}

impl BoolArgs {
    /// Returns what this operation of the first two layers below the cell is asked, for the last layer.
    pub(crate) fn new(op: Op, cell: CellId, a: LayerName, b: LayerName, out: LayerName) -> BoolArgs
        ensures { result ≡ record { op = op; cell = cell; a = a; b = b; out = out } }
    {
        BoolArgs {
            op,
            cell,
            a,
            b,
            out,
        }
    }
}

/// Plans that the shapes of a cell on a layer give way to those of an operation.
#[tactic(auto, unfolding(txn_commands::specs::Plans::plan))]
pub(crate) fn plan_bool(
    rt: &(impl Threads + Sync),
    alloc: Global,
    bands: &impl Bands,
    seen: &LayoutView<'_>,
    new: ItemId,
    asked: BoolArgs,
) -> Result<Act, CmdFault>
    ensures { IsAnswer CmdFault.NoMemory result
        (plan new (command.Bool asked.op asked.cell asked.a asked.b asked.out) seen.now) }
{
    let layout = seen.whole(alloc)?;
    let shapes = shapes(rt, alloc, bands, &layout, asked)?;
    Ok(replace_act(alloc, &layout, new, asked, shapes)?)
}

/// Returns the shapes of the operation, each the list of its rings.
fn shapes(
    rt: &(impl Threads + Sync),
    alloc: Global,
    bands: &impl Bands,
    layout: &Snapshot,
    asked: BoolArgs,
) -> Result<Vec<Vec<Ring>>, CmdFault>
    ensures { IsAnswer CmdFault.NoMemory (lists_in result)
        (command_result (bool_shapes layout.now asked.op asked.cell asked.a asked.b)) }
{
    match operation(rt, alloc, bands, layout, asked) {
        Ok(shapes) => Ok(shapes),
        Err(fault) => Err(fault_of_flat(fault)),
    }
}

/// Returns the shapes of the operation, or why there are none.
fn operation(
    rt: &(impl Threads + Sync),
    alloc: Global,
    bands: &impl Bands,
    layout: &Snapshot,
    asked: BoolArgs,
) -> Result<Vec<Vec<Ring>>, FlatFault>
    ensures { IsAnswer flat_fault.NoMemory (lists_in result)
        (bool_shapes layout.now asked.op asked.cell asked.a asked.b) }
{
    let walks = Walks::from(alloc, layout, asked.cell)?;
    let first = walks.layer(alloc, &asked.a)?;
    let second = walks.layer(alloc, &asked.b)?;
    match combine(rt, alloc, asked.op, &first, &second, bands) {
        Ok(shapes) => Ok(shapes),
        Err(fault) => Err(fault_of_op(fault)),
    }
}

/// Returns the refusal of a command whose layer can't be flattened.
fn fault_of_flat(fault: FlatFault) -> CmdFault
    ensures { result ≡ fault_of_flat fault }
{
    match fault {
        FlatFault::NoCell => CmdFault::NoCell,
        FlatFault::TooDeep => CmdFault::TooDeep,
        FlatFault::TooMany => CmdFault::TooMany,
        FlatFault::OutOfRange => CmdFault::OutOfRange,
        FlatFault::NoMemory => CmdFault::NoMemory,
    }
}

/// Returns the refusal of two flattenings whose operation has no shapes.
fn fault_of_op(fault: OpFault) -> FlatFault
    ensures { result ≡ fault_of_op fault }
{
    match fault {
        OpFault::TooMany => FlatFault::TooMany,
        OpFault::NoMemory => FlatFault::NoMemory,
    }
}

/// The shapes of a cell on a layer give way to these.
fn replace_act(
    alloc: Global,
    layout: &Snapshot,
    new: ItemId,
    asked: BoolArgs,
    shapes: Vec<Vec<Ring>>,
) -> Result<Act, NoMemory>
    ensures { IfOk result (λ act. act ≡ bool_act new
        (combination_in layout.now asked.cell asked.a asked.b asked.out) (points_of shapes.items)) }
{
    let made = count(new, &shapes)?;
    let cells = cells_from(alloc, layout, asked.cell)?;
    let mut items = removals(alloc, layout, asked.cell, &asked.out)?;
    push_shapes(alloc, &mut items, new, asked.cell, asked.out, shapes)?;
    let mut elements = Vec::new(alloc);
    push_items(&mut elements, &items)?;
    push_cell(&mut elements, asked)?;
    push_operands(&mut elements, asked.a, asked.b, &cells)?;
    Ok(Act {
        done: made_from(new, made),
        elements,
        written: Written::Items(items),
        made,
    })
}

/// Returns the number of the shapes. There are ids from this one on for all: more than that don't fit into
/// memory.
fn count(new: ItemId, shapes: &[Vec<Ring>]) -> Result<u32, NoMemory>
    ensures { IfOk result (λ count. (count ≡ length shapes.now) × (new.seq + count ≤ 4294967295)) }
{
    let Ok(count) = u32::try_from(shapes.len()) else {
        return Err(NoMemory {});
    };
    match new.seq.checked_add(count) {
        Some(_) => Ok(count),
        None => Err(NoMemory {}),
    }
}

/// Returns the writes by which the shapes of a cell on a layer go.
fn removals(
    alloc: Global,
    layout: &Snapshot,
    cell: CellId,
    layer: &LayerName,
) -> Result<Vec<(ItemId, Option<Item>)>, NoMemory>
    ensures { IfOk result (λ items. items.items ≡ removals (shape_ids layout.now cell layer.now)) }
{
    let mut items = Vec::new(alloc);
    for (id, _) in layout.shapes(cell, layer) {
        items.push((id, None))?;
    }
    Ok(items)
}

/// Pushes the writes by which shapes come, under ids from this one on.
fn push_shapes(
    alloc: Global,
    items: &mut Vec<(ItemId, Option<Item>)>,
    new: ItemId,
    cell: CellId,
    layer: LayerName,
    shapes: Vec<Vec<Ring>>,
) -> Result<(), NoMemory>
    requires { new.seq + length shapes.items ≤ 4294967295 }
    ensures { OnOk result (items.new.items
        ≡ items.old.items ++ new_shapes new cell layer (points_of shapes.items)) }
{
    let mut id = new;
    for rings in shapes {
        let shape = shape(alloc, cell, layer, rings)?;
        items.push((id, Some(shape)))?;
        id = id_after(id);
    }
    Ok(())
}

/// Returns the shape of these rings.
fn shape(alloc: Global, cell: CellId, layer: LayerName, rings: Vec<Ring>) -> Result<Item, NoMemory>
    ensures { IfOk result (λ shape. shape ≡ Shape cell layer rings.items) }
{
    let rings = Rings::new(alloc, rings)?;
    Ok(Item::Shape { cell, layer, rings })
}

/// Returns the id behind this one.
fn id_after(id: ItemId) -> ItemId
    requires { id.seq < 4294967295 }
    ensures { result ≡ id_after id }
{
    ItemId {
        session: id.session,
        txn: id.txn,
        seq: id.seq + 1,
    }
}

/// Pushes the elements of the ids that are written.
fn push_items(elements: &mut Vec<Element>, items: &[(ItemId, Option<Item>)]) -> Result<(), NoMemory>
    ensures { OnOk result (elements.new.items ≡ elements.old.items ++ item_elements items.now) }
{
    for (id, _) in items {
        elements.push(Element::Item(*id))?;
    }
    Ok(())
}

/// Pushes the element of the cell, and that of its shapes on the layer on which they are replaced.
fn push_cell(elements: &mut Vec<Element>, asked: BoolArgs) -> Result<(), NoMemory>
    ensures { OnOk result (elements.new.items
        ≡ elements.old.items ++ (cell_elements asked.cell ++ Layer asked.cell asked.out ∷ [])) }
{
    if let CellId::Symbol(number) = asked.cell {
        elements.push(Element::Cell(number))?;
    }
    Ok(elements.push(Element::Layer(asked.cell, asked.out))?)
}

/// Pushes what an operation on two layers reads in each of these cells.
fn push_operands(
    elements: &mut Vec<Element>,
    a: LayerName,
    b: LayerName,
    cells: &[CellId],
) -> Result<(), NoMemory>
    ensures { OnOk result (elements.new.items ≡ elements.old.items ++ flat_map (operands a b) cells.now) }
{
    for cell in cells {
        push_read(elements, a, b, *cell)?;
    }
    Ok(())
}

/// Pushes what it reads in a cell.
fn push_read(
    elements: &mut Vec<Element>,
    a: LayerName,
    b: LayerName,
    cell: CellId,
) -> Result<(), NoMemory>
    ensures { OnOk result (elements.new.items ≡ elements.old.items ++ operands a b cell) }
{
    elements.push(Element::Calls(cell))?;
    elements.push(Element::Layer(cell, a))?;
    Ok(elements.push(Element::Layer(cell, b))?)
}

/// Returns the answer where so many items are made, from this id on.
fn made_from(new: ItemId, count: u32) -> Done
    ensures { result ≡ made_from new count }
{
    match count {
        0 => Done::Empty,
        1 => Done::Made(new),
        _ => Done::Several { first: new, count },
    }
}
