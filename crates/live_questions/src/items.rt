//! The items of a cell, and an item alone.
ghost use Rattle.std.specs.List.{flat_map};
ghost use Rattle.byte_io.specs.Buffered.{Buffered};
ghost use Rattle.lay_layouts.specs.Layout.{item_at};
ghost use Rattle.live_questions.specs.Answers.{item_line, items_text, looked_text};

use crate::comments::put_refusal_line;
use byte_io::{Out, OutBuffer};
use job_text::{put_found, put_item_id};
use lay_cells::CellId;
use lay_items::{Items, Snapshot};
use lay_layouts::{Item, ItemId};
use session_steps::StepFault;
use txn_commands::CmdFault;

/// Puts the lines of the cell's items, or that there is no such cell.
#[tactic(auto, unfolding(crate::specs::Answers::items_text))]
pub(crate) fn put_items<O: Out>(
    out: &mut O,
    buffer: &mut OutBuffer,
    layout: &Snapshot,
    cell: CellId,
)
    ensures { Buffered O.written O.failures out.old buffer.old out.new buffer.new
        (items_text layout.now cell) }
{
    if layout.version().is_cell(cell) {
        put_each(out, buffer, layout.items(cell));
    } else {
        put_refusal_line(out, buffer, StepFault::Command(CmdFault::NoCell));
    }
}

/// Puts the lines of the items.
fn put_each<O: Out>(out: &mut O, buffer: &mut OutBuffer, items: Items<'_>)
    ensures { Buffered O.written O.failures out.old buffer.old out.new buffer.new
        (flat_map item_line items.entry) }
{
    for (id, item) in items {
        put_item(out, buffer, id, item);
    }
}

/// Puts the line of the item of this id, or that there is none.
pub(crate) fn put_look<O: Out>(out: &mut O, buffer: &mut OutBuffer, layout: &Snapshot, id: ItemId)
    ensures { Buffered O.written O.failures out.old buffer.old out.new buffer.new
        (looked_text id (item_at layout.now id)) }
{
    match layout.item(id) {
        Some(item) => put_item(out, buffer, id, item),
        None => put_refusal_line(out, buffer, StepFault::Command(CmdFault::NoItem)),
    }
}

/// Puts the line of an item.
fn put_item<O: Out>(out: &mut O, buffer: &mut OutBuffer, id: ItemId, item: &Item)
    ensures { Buffered O.written O.failures out.old buffer.old out.new buffer.new
        (item_line (id, item.now)) }
{
    buffer.put_byte(out, b'(');
    put_item_id(out, buffer, id);
    buffer.put_byte(out, b' ');
    put_found(out, buffer, item);
    buffer.put(out, b");\n");
}
