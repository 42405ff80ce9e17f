//! The text of a layout, line by line. Each call puts its lines to the device through the buffer, and
//! takes no memory.
ghost use Rattle.std.specs.Prelude.{◌≡◌, None, map};
ghost use Rattle.byte_io.specs.Buffered.{Buffered};
ghost use Rattle.cif_write.specs.Boxes.{line_text_as, lines_text_as, text_as};
ghost use Rattle.cif_write.specs.Lines.{Call, OnLayer, Path, Start, line_text};
ghost use Rattle.cif_write.specs.Text.{
  definition_lines,
  definitions_lines,
  item_lines,
  items_lines,
};
ghost use Rattle.cif_write.specs.Text.{layer_after, path_lines};
ghost use Rattle.cif_write.specs.Wrap.{entry_item, least_unused, own_definitions, wrapping};
ghost use Rattle.lay_layouts.specs.SlotOrder.{in_slot_order};
ghost use Rattle.lay_point.specs.Bridges.{bridged};

use crate::boxes::{Rectangles, box_as, put_box};
use crate::points::put_bridged;
use crate::turns::put_turn;
use crate::wrap::plain_target;
use byte_io::{Out, OutBuffer};
use lay_cells::CellId;
use lay_items::{Items, Snapshot};
use lay_layouts::{Item, Rings};
use lay_point::{LayerName, Turn};

/// Puts the text of the layout, of whose symbols none has the number `unused`, with boxes where they are asked for.
pub(crate) fn put_text<O: Out>(
    out: &mut O,
    buffer: &mut OutBuffer,
    rectangles: Rectangles,
    snapshot: &Snapshot,
    unused: u32,
)
    requires { unused ≡ least_unused (in_slot_order snapshot.now.symbols) }
    ensures { Buffered O.written O.failures out.old buffer.old out.new buffer.new
        (text_as rectangles snapshot.now) }
{
    put_definitions(out, buffer, rectangles, snapshot);
    let called = put_wrapping(out, buffer, rectangles, snapshot, unused);
    put_call(out, buffer, called, Turn::unturned());
    buffer.put(out, b"E\n");
}

/// Puts the lines of the symbol that the top cell's items are wrapped in, unless they are one plain
/// call. Returns the number of the symbol that the top cell is to call.
fn put_wrapping<O: Out>(
    out: &mut O,
    buffer: &mut OutBuffer,
    rectangles: Rectangles,
    snapshot: &Snapshot,
    unused: u32,
) -> u32
    requires { unused ≡ least_unused (in_slot_order snapshot.now.symbols) }
    ensures lines { Buffered O.written O.failures out.old buffer.old out.new buffer.new
        (lines_text_as rectangles (definitions_lines (wrapping snapshot.now).definitions)) }
    ensures called { result ≡ (wrapping snapshot.now).called }
{
    if let Some(target) = plain_target(snapshot.items(CellId::Top)) {
        return target;
    }
    put_definition(out, buffer, rectangles, unused, snapshot.items(CellId::Top));
    unused
}

/// Puts the lines of the symbols, in the order of their slots.
fn put_definitions<O: Out>(
    out: &mut O,
    buffer: &mut OutBuffer,
    rectangles: Rectangles,
    snapshot: &Snapshot,
)
    ensures { Buffered O.written O.failures out.old buffer.old out.new buffer.new
        (lines_text_as rectangles (definitions_lines (own_definitions snapshot.now))) }
{
    let cells = snapshot.cells();
    for position in 0..cells.len() {
        if buffer.has_failed() {
            return;
        }
        let number = cells.at(position).unwrap();
        let items = snapshot.items(CellId::Symbol(number));
        put_definition(out, buffer, rectangles, number, items);
    }
}

/// Puts the lines of a symbol.
fn put_definition<O: Out>(
    out: &mut O,
    buffer: &mut OutBuffer,
    rectangles: Rectangles,
    number: u32,
    items: Items<'_>,
)
    ensures { Buffered O.written O.failures out.old buffer.old out.new buffer.new
        (lines_text_as rectangles (definition_lines (record {
          number = number;
          items = map entry_item items.entry;
        }))) }
{
    put_start(out, buffer, number);
    put_items(out, buffer, rectangles, items);
    buffer.put(out, b"DF;\n");
}

/// Puts the line that begins a definition.
fn put_start<O: Out>(out: &mut O, buffer: &mut OutBuffer, number: u32)
    ensures { Buffered O.written O.failures out.old buffer.old out.new buffer.new
        (line_text (Start number)) }
{
    buffer.put(out, b"DS ");
    buffer.put_unsigned(out, u64::from(number));
    buffer.put(out, b" 1 2;\n");
}

/// Puts the lines of a symbol's items.
fn put_items<O: Out>(out: &mut O, buffer: &mut OutBuffer, rectangles: Rectangles, items: Items<'_>)
    ensures { Buffered O.written O.failures out.old buffer.old out.new buffer.new
        (lines_text_as rectangles (items_lines None (map entry_item items.entry))) }
{
    let mut set = None;
    for (_, item) in items {
        if buffer.has_failed() {
            return;
        }
        set = put_item(out, buffer, rectangles, set, item);
    }
}

/// Puts the lines of an item, where `set` is the layer that is set. Returns the layer that is set
/// after it.
fn put_item<O: Out>(
    out: &mut O,
    buffer: &mut OutBuffer,
    rectangles: Rectangles,
    set: Option<LayerName>,
    item: &Item,
) -> Option<LayerName>
    ensures lines { Buffered O.written O.failures out.old buffer.old out.new buffer.new
        (lines_text_as rectangles (item_lines set item.now)) }
    ensures set { result ≡ layer_after set item.now }
{
    match item {
        Item::Shape { layer, rings, .. } => {
            put_shape(out, buffer, rectangles, set, *layer, rings);
            Some(*layer)
        }
        Item::Placed { target, turn, .. } => {
            put_call(out, buffer, *target, *turn);
            set
        }
    }
}

/// Puts the lines of a shape, where `set` is the layer that is set.
fn put_shape<O: Out>(
    out: &mut O,
    buffer: &mut OutBuffer,
    rectangles: Rectangles,
    set: Option<LayerName>,
    layer: LayerName,
    rings: &Rings,
)
    ensures { Buffered O.written O.failures out.old buffer.old out.new buffer.new
        (lines_text_as rectangles (path_lines set layer (bridged rings.now))) }
{
    if set != Some(layer) {
        put_layer(out, buffer, layer);
    }
    put_figure(out, buffer, rectangles, rings);
}

/// Puts the line that sets a layer.
fn put_layer<O: Out>(out: &mut O, buffer: &mut OutBuffer, layer: LayerName)
    ensures { Buffered O.written O.failures out.old buffer.old out.new buffer.new
        (line_text (OnLayer layer)) }
{
    buffer.put(out, b"L ");
    buffer.put(out, layer.as_bytes());
    buffer.put(out, b";\n");
}

/// Puts the line that draws a shape: the one path of its rings, or the box that it is written as.
fn put_figure<O: Out>(out: &mut O, buffer: &mut OutBuffer, rectangles: Rectangles, rings: &Rings)
    ensures { Buffered O.written O.failures out.old buffer.old out.new buffer.new
        (line_text_as rectangles (Path (bridged rings.now))) }
{
    match box_as(rectangles, rings.as_slice()) {
        Some(figure) => put_box(out, buffer, figure),
        None => put_path(out, buffer, rings),
    }
}

/// Puts the line that draws the one path of a shape's rings.
fn put_path<O: Out>(out: &mut O, buffer: &mut OutBuffer, rings: &Rings)
    ensures { Buffered O.written O.failures out.old buffer.old out.new buffer.new
        (line_text (Path (bridged rings.now))) }
{
    buffer.put_byte(out, b'P');
    put_bridged(out, buffer, rings.as_slice());
    buffer.put(out, b";\n");
}

/// Puts the line that calls a symbol.
pub(crate) fn put_call<O: Out>(out: &mut O, buffer: &mut OutBuffer, number: u32, turn: Turn)
    ensures { Buffered O.written O.failures out.old buffer.old out.new buffer.new
        (line_text (Call number turn)) }
{
    buffer.put(out, b"C ");
    buffer.put_unsigned(out, u64::from(number));
    put_turn(out, buffer, turn);
    buffer.put(out, b";\n");
}
