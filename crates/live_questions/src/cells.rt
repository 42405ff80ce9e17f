//! The cells of a layout, how many items each has, and its name.
ghost use Rattle.std.specs.Prelude.{◌≡◌, IfOk, OnOk, length, map};
ghost use Rattle.std.specs.FinMap as finite;
ghost use Rattle.std.specs.List.{flat_map};
ghost use Rattle.byte_io.specs.Buffered.{Buffered};
ghost use Rattle.lay_cells.specs.declared.cell_id.CellId.TheVariants.{Symbol};
ghost use Rattle.lay_layouts.specs.Items.{items_in};
ghost use Rattle.cif_names.specs.Entries.{word_text};
ghost use Rattle.cif_names.specs.Titles.{title_at};
ghost use Rattle.live_questions.specs.Answers.{cell_line, cells_text, title_text};

use byte_io::{Out, OutBuffer};
use cif_names::{Names, Titles};
use job_text::put_cell;
use lay_cells::CellId;
use lay_items::Snapshot;
use lay_point::NoMemory;
use std::alloc::Global;
use std::collections::BTreeSet;

/// Puts the lines of the cells: the top cell, then the symbols by number.
pub(crate) fn put_cells<O: Out>(
    alloc: Global,
    out: &mut O,
    buffer: &mut OutBuffer,
    names: &Option<Names>,
    layout: &Snapshot,
) -> Result<(), NoMemory>
    ensures { OnOk result (Buffered O.written O.failures out.old buffer.old out.new buffer.new
        (cells_text names.now layout.now)) }
{
    let titles = Titles::of(alloc, names)?;
    let numbers = numbers_of(alloc, layout)?;
    put_cell_line(out, buffer, &titles, layout, CellId::Top);
    put_symbols(out, buffer, &titles, layout, &numbers);
    Ok(())
}

/// Puts the lines of the symbols of these numbers.
fn put_symbols<O: Out>(
    out: &mut O,
    buffer: &mut OutBuffer,
    titles: &Titles,
    layout: &Snapshot,
    numbers: &BTreeSet<u32>,
)
    ensures { Buffered O.written O.failures out.old buffer.old out.new buffer.new
        (flat_map (cell_line (title_at titles.now) layout.now) (map Symbol numbers.now.keys)) }
{
    for number in numbers {
        put_cell_line(out, buffer, titles, layout, CellId::Symbol(*number));
    }
}

/// Returns the numbers of the symbols, in order.
fn numbers_of(alloc: Global, layout: &Snapshot) -> Result<BTreeSet<u32>, NoMemory>
    ensures { IfOk result (λ numbers. numbers.keys ≡ finite.keys layout.now.symbols) }
{
    let cells = layout.cells();
    let mut numbers = BTreeSet::new(alloc);
    for position in 0..cells.len() {
        numbers.insert(cells.at(position).unwrap())?;
    }
    Ok(numbers)
}

/// Puts the line of a cell, with its name.
fn put_cell_line<O: Out>(
    out: &mut O,
    buffer: &mut OutBuffer,
    titles: &Titles,
    layout: &Snapshot,
    cell: CellId,
)
    ensures { Buffered O.written O.failures out.old buffer.old out.new buffer.new
        (cell_line (title_at titles.now) layout.now cell) }
{
    buffer.put(out, b"(cell ");
    put_cell(out, buffer, cell);
    buffer.put_byte(out, b' ');
    buffer.put_unsigned(out, count_of(layout, cell) as u64);
    put_title(out, buffer, titles, cell);
    buffer.put(out, b");\n");
}

/// Puts the name of the cell behind a space, if it has one.
fn put_title<O: Out>(out: &mut O, buffer: &mut OutBuffer, titles: &Titles, cell: CellId)
    ensures { Buffered O.written O.failures out.old buffer.old out.new buffer.new
        (title_text (title_at titles.now) cell) }
{
    match cell {
        CellId::Top => {}
        CellId::Symbol(number) => put_word(out, buffer, titles.of_symbol(number)),
    }
}

/// Puts the word behind a space, if it has a byte.
fn put_word<O: Out>(out: &mut O, buffer: &mut OutBuffer, word: &[u8])
    ensures { Buffered O.written O.failures out.old buffer.old out.new buffer.new (word_text word.now) }
{
    if !word.is_empty() {
        buffer.put_byte(out, b' ');
        buffer.put(out, word);
    }
}

/// Returns the number of the cell's items.
fn count_of(layout: &Snapshot, cell: CellId) -> usize
    ensures { result ≡ length (items_in layout.now cell) }
{
    // for the proof: a cell has no more items than the layout, whose number fits a `usize`
    let _size = layout.size();
    layout.items(cell).count()
}
