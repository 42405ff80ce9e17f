//! The answer to a question.
ghost use Rattle.std.specs.Prelude.{◌≡◌, IfOk, OnOk};
ghost use Rattle.byte_io.specs.Buffered.{Buffered};
ghost use Rattle.live_questions.specs.Answers.{told_text, told_lines};

use crate::cells::put_cells;
use crate::history::{put_changes, put_history};
use crate::items::{put_items, put_look};
use byte_io::{Out, OutBuffer};
use cif_names::Names;
use job_text::{Question, TextOut};
use lay_point::NoMemory;
use std::alloc::Global;
use undo_book::Book;

/// Returns the comments that answer the question, where the book is this. To `Cells` a symbol is listed with its name, if these
/// have one for it.
///
/// # Errors
///
/// `NoMemory`, if an allocation fails.
///
/// # Cost
///
/// Of `Cells` a sort of the symbols and of the names, and a pass over all items; of `Items` one over the cell's items and their
/// points; of `Look` that of `Snapshot::item`; of `History` and `Changes` a pass over the transactions, and of
/// `Changes` one over what the transaction wrote.
#[tactic(auto, unfolding(crate::specs::Answers::told_text))]
pub fn answer(
    alloc: Global,
    names: &Option<Names>,
    question: Question,
    book: &Book,
) -> Result<Vec<u8>, NoMemory>
    ensures { IfOk result (λ text. text.items ≡ told_text names.now question book.now) }
{
    let mut out = TextOut::new(alloc);
    let mut buffer = OutBuffer::new();
    put_lines(alloc, &mut out, &mut buffer, names, question, book)?;
    buffer.put(&mut out, b"(end);\n");
    buffer.flush(&mut out).map_err(|_| NoMemory)?;
    Ok(out.into_bytes())
}

/// Puts the lines in front of the last.
fn put_lines<O: Out>(
    alloc: Global,
    out: &mut O,
    buffer: &mut OutBuffer,
    names: &Option<Names>,
    question: Question,
    book: &Book,
) -> Result<(), NoMemory>
    ensures { OnOk result (Buffered O.written O.failures out.old buffer.old out.new buffer.new
        (told_lines names.now question book.now)) }
{
    match question {
        Question::Cells => put_cells(alloc, out, buffer, names, book.snapshot())?,
        Question::Items(cell) => put_items(out, buffer, book.snapshot(), cell),
        Question::Look(id) => put_look(out, buffer, book.snapshot(), id),
        Question::History => put_history(out, buffer, book.entries()),
        Question::Changes(txn) => put_changes(out, buffer, book.entries(), txn),
    }
    Ok(())
}
