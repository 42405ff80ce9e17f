//! The committed transactions, and what each wrote.
ghost use Rattle.std.specs.Prelude.{◌≡◌, map, option_copied};
ghost use Rattle.std.specs.List.{flat_map};
ghost use Rattle.byte_io.specs.Buffered.{Buffered};
ghost use Rattle.txn_commands.specs.Records.{cell_record_of, record_of};
ghost use Rattle.undo_rules.specs.Books.{entry_of};
ghost use Rattle.live_questions.specs.Answers.{
  change_text,
  entry_line,
  history_text,
  mark_text,
  record_line,
  records_text,
  symbol_line,
  written_text,
};

use crate::comments::put_refusal_line;
use byte_io::{Out, OutBuffer};
use job_text::{put_item_id, put_txn};
use lay_layouts::ItemId;
use session_steps::StepFault;
use txn_commands::TxnId;
use txn_marks::{CellChange, ItemChange, Records};
use undo_book::Entry;
use undo_rules::BookFault;

/// Puts the lines of the transactions.
pub(crate) fn put_history<O: Out>(out: &mut O, buffer: &mut OutBuffer, entries: &[Entry])
    ensures { Buffered O.written O.failures out.old buffer.old out.new buffer.new
        (history_text entries.now) }
{
    for entry in entries {
        put_entry(out, buffer, entry);
    }
}

/// Puts the line of a transaction.
fn put_entry<O: Out>(out: &mut O, buffer: &mut OutBuffer, entry: &Entry)
    ensures { Buffered O.written O.failures out.old buffer.old out.new buffer.new
        (entry_line entry.now) }
{
    buffer.put_byte(out, b'(');
    put_txn(out, buffer, entry.txn());
    buffer.put_byte(out, b' ');
    put_mark(out, buffer, entry.is_live());
    buffer.put(out, b");\n");
}

/// Puts whether a transaction is live, or undone.
fn put_mark<O: Out>(out: &mut O, buffer: &mut OutBuffer, live: bool)
    ensures { Buffered O.written O.failures out.old buffer.old out.new buffer.new (mark_text live) }
{
    if live {
        buffer.put(out, b"live");
    } else {
        buffer.put(out, b"undone");
    }
}

/// Puts the lines of what the transaction's commit did, or that there is no such transaction.
pub(crate) fn put_changes<O: Out>(
    out: &mut O,
    buffer: &mut OutBuffer,
    entries: &[Entry],
    txn: TxnId,
)
    ensures { Buffered O.written O.failures out.old buffer.old out.new buffer.new
        (written_text (entry_of txn entries.now)) }
{
    match entry_of(entries, txn) {
        Some(entry) => put_records(out, buffer, entry.writes()),
        None => put_refusal_line(out, buffer, StepFault::Book(BookFault::NoTxn)),
    }
}

/// Returns the transaction of this name.
fn entry_of(entries: &[Entry], txn: TxnId) -> Option<&Entry>
    ensures { option_copied result ≡ entry_of txn entries.now }
{
    for entry in entries {
        if entry.txn() == txn {
            return Some(entry);
        }
    }
    None
}

/// Puts the lines of what was done to items, then to symbols.
fn put_records<O: Out>(out: &mut O, buffer: &mut OutBuffer, writes: &Records)
    ensures { Buffered O.written O.failures out.old buffer.old out.new buffer.new
        (records_text writes.now) }
{
    put_item_changes(out, buffer, writes.items());
    put_symbol_changes(out, buffer, writes.symbols());
}

/// Puts the lines of what was done to items.
fn put_item_changes<O: Out>(out: &mut O, buffer: &mut OutBuffer, changes: &[(ItemId, ItemChange)])
    ensures { Buffered O.written O.failures out.old buffer.old out.new buffer.new
        (flat_map record_line (map record_of changes.now)) }
{
    for (id, change) in changes {
        put_item_change(out, buffer, *id, change);
    }
}

/// Puts the line of what was done to an item.
fn put_item_change<O: Out>(out: &mut O, buffer: &mut OutBuffer, id: ItemId, change: &ItemChange)
    ensures { Buffered O.written O.failures out.old buffer.old out.new buffer.new
        (record_line (record_of (id, change.now))) }
{
    buffer.put_byte(out, b'(');
    put_item_id(out, buffer, id);
    buffer.put_byte(out, b' ');
    put_change(
        out,
        buffer,
        change.before().is_some(),
        change.after().is_some(),
    );
    buffer.put(out, b");\n");
}

/// Puts the lines of what was done to symbols.
fn put_symbol_changes<O: Out>(out: &mut O, buffer: &mut OutBuffer, changes: &[(u32, CellChange)])
    ensures { Buffered O.written O.failures out.old buffer.old out.new buffer.new
        (flat_map symbol_line (map cell_record_of changes.now)) }
{
    for (number, change) in changes {
        put_symbol_change(out, buffer, *number, *change);
    }
}

/// Puts the line of what was done to a symbol.
fn put_symbol_change<O: Out>(out: &mut O, buffer: &mut OutBuffer, number: u32, change: CellChange)
    ensures { Buffered O.written O.failures out.old buffer.old out.new buffer.new
        (symbol_line (cell_record_of (number, change))) }
{
    buffer.put(out, b"(symbol ");
    buffer.put_unsigned(out, u64::from(number));
    buffer.put_byte(out, b' ');
    put_change(
        out,
        buffer,
        change.before().is_some(),
        change.after().is_some(),
    );
    buffer.put(out, b");\n");
}

/// Puts what was done, by whether something was there before and after.
fn put_change<O: Out>(out: &mut O, buffer: &mut OutBuffer, before: bool, after: bool)
    ensures { Buffered O.written O.failures out.old buffer.old out.new buffer.new
        (change_text before after) }
{
    let words: &[u8] = match (before, after) {
        (true, true) => b"changed",
        (false, true) => b"made",
        (_, false) => b"gone",
    };
    buffer.put(out, words);
}
