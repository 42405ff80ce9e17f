//! Replies as comments of a CIF text. Each call puts its text to the device through the buffer, and takes
//! no memory.
ghost use Rattle.std.specs.Prelude.{◌++◌, codes, decimal, if◌then◌else◌};
ghost use Rattle.byte_io.specs.Buffered.{Buffered};
ghost use Rattle.lay_layouts.specs.IdText.{item_text};
ghost use Rattle.lay_layouts.specs.declared.item.Item.TheVariants.{Placed, Shape};
ghost use Rattle.txn_commands.specs.Refusals.{txn_text};
ghost use Rattle.job_text.specs.Replies.{
  answer_text,
  bar_text,
  cell_text,
  fault_text,
  found_text,
  named_text,
  spaced_point,
};
ghost use Rattle.job_text.specs.Replies.{
  degrees_text,
  points_text,
  replies_text,
  reply_text,
  rings_text,
  session_text,
};
ghost use Rattle.job_text.specs.Replies.{several_text, turning_text};

use byte_io::{Out, OutBuffer};
use lay_cells::CellId;
use lay_layouts::{Item, ItemId};
use lay_point::{LayerName, Point, Quarter, Ring, Sequence, Turn};
use session_steps::{Reply, StepFault};
use txn_commands::{Done, TxnId};
use undo_rules::BookFault;

/// Puts the lines of the replies to the steps of all sessions, of which the first is session 1.
///
/// # Cost
///
/// A pass over the replies, and over the points of the shapes that they show.
pub(crate) fn put_replies<O: Out>(out: &mut O, buffer: &mut OutBuffer, sessions: &[Sequence<Reply>])
    ensures { Buffered O.written O.failures out.old buffer.old out.new buffer.new
        (replies_text sessions.now) }
{
    let mut session: u64 = 1;
    for replies in sessions {
        put_session(out, buffer, session, replies.as_slice());
        session += 1;
    }
}

/// Puts the lines of the replies to the steps of a session, of which the first is step 1.
fn put_session<O: Out>(out: &mut O, buffer: &mut OutBuffer, session: u64, replies: &[Reply])
    ensures { Buffered O.written O.failures out.old buffer.old out.new buffer.new
        (session_text session 1 replies.now) }
{
    let mut step: u64 = 1;
    for reply in replies {
        put_reply(out, buffer, session, step, reply);
        step += 1;
    }
}

/// Puts the line of a reply to a step of a session.
///
/// # Cost
///
/// Of a look a pass over the shape's points.
pub(crate) fn put_reply<O: Out>(
    out: &mut O,
    buffer: &mut OutBuffer,
    session: u64,
    step: u64,
    reply: &Reply,
)
    ensures { Buffered O.written O.failures out.old buffer.old out.new buffer.new
        (reply_text session step reply.now) }
{
    buffer.put_byte(out, b'(');
    buffer.put_unsigned(out, session);
    buffer.put_byte(out, b' ');
    buffer.put_unsigned(out, step);
    buffer.put_byte(out, b' ');
    put_answer(out, buffer, reply);
    buffer.put(out, b");\n");
}

/// Puts the words of an answer.
#[tactic(auto, unfolding(crate::specs::Replies::answer_text))]
fn put_answer<O: Out>(out: &mut O, buffer: &mut OutBuffer, reply: &Reply)
    ensures { Buffered O.written O.failures out.old buffer.old out.new buffer.new
        (answer_text reply.now) }
{
    match reply {
        Reply::Done(Done::Found(item)) => put_found(out, buffer, item),
        Reply::Opened(txn) => put_opened(out, buffer, *txn),
        Reply::Done(Done::Made(id)) => put_made(out, buffer, *id),
        Reply::Done(Done::Several { first, count }) => put_several(out, buffer, *first, *count),
        Reply::Done(Done::Empty) => buffer.put(out, b"empty"),
        Reply::Done(Done::Plain) => buffer.put(out, b"done"),
        Reply::Committed(_) => buffer.put(out, b"committed"),
        Reply::Cancelled => buffer.put(out, b"cancelled"),
        Reply::Undone => buffer.put(out, b"undone"),
        Reply::Redone => buffer.put(out, b"redone"),
        Reply::Fault(fault) => put_refusal(out, buffer, *fault),
    }
}

/// Puts the words of a new transaction of this number.
fn put_opened<O: Out>(out: &mut O, buffer: &mut OutBuffer, txn: u16)
    ensures { Buffered O.written O.failures out.old buffer.old out.new buffer.new
        (codes "opened " ++ decimal txn) }
{
    buffer.put(out, b"opened ");
    buffer.put_unsigned(out, u64::from(txn));
}

/// Puts the words of a new item.
fn put_made<O: Out>(out: &mut O, buffer: &mut OutBuffer, id: ItemId)
    ensures { Buffered O.written O.failures out.old buffer.old out.new buffer.new
        (codes "made " ++ item_text id) }
{
    buffer.put(out, b"made ");
    put_item_id(out, buffer, id);
}

/// Puts the words of new items, so many from this id on. No sum overflows 64 bits.
fn put_several<O: Out>(out: &mut O, buffer: &mut OutBuffer, first: ItemId, count: u32)
    ensures { Buffered O.written O.failures out.old buffer.old out.new buffer.new
        (several_text first count) }
{
    let last = u64::from(first.seq) + u64::from(count.saturating_sub(1));
    put_made(out, buffer, first);
    buffer.put(out, b" to ");
    put_id(out, buffer, first.session, first.txn, last);
}

/// Puts the name of an item.
pub fn put_item_id<O: Out>(out: &mut O, buffer: &mut OutBuffer, id: ItemId)
    ensures { Buffered O.written O.failures out.old buffer.old out.new buffer.new (item_text id) }
{
    put_id(out, buffer, id.session, id.txn, u64::from(id.seq));
}

/// Puts the name of the item of this number of a transaction.
fn put_id<O: Out>(out: &mut O, buffer: &mut OutBuffer, session: u8, txn: u16, seq: u64)
    ensures { Buffered O.written O.failures out.old buffer.old out.new buffer.new
        (item_text (record { session = session; txn = txn; seq = seq })) }
{
    put_txn(out, buffer, TxnId { session, txn });
    buffer.put_byte(out, b'.');
    buffer.put_unsigned(out, seq);
}

/// Puts the name of a transaction.
pub fn put_txn<O: Out>(out: &mut O, buffer: &mut OutBuffer, txn: TxnId)
    ensures { Buffered O.written O.failures out.old buffer.old out.new buffer.new (txn_text txn) }
{
    buffer.put_unsigned(out, u64::from(txn.session));
    buffer.put_byte(out, b'.');
    buffer.put_unsigned(out, u64::from(txn.txn));
}

/// Puts the words of an item that was looked at.
///
/// # Cost
///
/// A pass over the points of a shape.
pub fn put_found<O: Out>(out: &mut O, buffer: &mut OutBuffer, item: &Item)
    ensures { Buffered O.written O.failures out.old buffer.old out.new buffer.new
        (found_text item.now) }
{
    match item {
        Item::Shape { cell, layer, rings } => {
            put_shape(out, buffer, *cell, *layer, rings.as_slice());
        }
        Item::Placed { cell, target, turn } => put_placed(out, buffer, *cell, *target, *turn),
    }
}

/// Puts the words of a shape.
fn put_shape<O: Out>(
    out: &mut O,
    buffer: &mut OutBuffer,
    cell: CellId,
    layer: LayerName,
    rings: &[Ring],
)
    ensures { Buffered O.written O.failures out.old buffer.old out.new buffer.new
        (found_text (Shape cell layer rings.now)) }
{
    buffer.put(out, b"shape ");
    put_cell(out, buffer, cell);
    buffer.put_byte(out, b' ');
    buffer.put(out, layer.as_bytes());
    put_rings(out, buffer, rings);
}

/// Puts the words of a placed symbol.
fn put_placed<O: Out>(out: &mut O, buffer: &mut OutBuffer, cell: CellId, target: u32, turn: Turn)
    ensures { Buffered O.written O.failures out.old buffer.old out.new buffer.new
        (found_text (Placed cell target turn)) }
{
    buffer.put(out, b"placed ");
    put_cell(out, buffer, cell);
    buffer.put_byte(out, b' ');
    buffer.put_unsigned(out, u64::from(target));
    buffer.put_byte(out, b' ');
    put_turning(out, buffer, turn);
    put_point(out, buffer, turn.shift);
}

/// Puts the points of the rings, with ` / ` between two rings.
fn put_rings<O: Out>(out: &mut O, buffer: &mut OutBuffer, rings: &[Ring])
    ensures { Buffered O.written O.failures out.old buffer.old out.new buffer.new
        (rings_text rings.now) }
{
    let mut rest = rings;
    while let Some((ring, behind)) = rest.split_first() {
        put_points(out, buffer, ring.points());
        put_bar(out, buffer, behind);
        rest = behind;
    }
}

/// Puts what stands between a ring and those behind it.
fn put_bar<O: Out>(out: &mut O, buffer: &mut OutBuffer, behind: &[Ring])
    ensures { Buffered O.written O.failures out.old buffer.old out.new buffer.new
        (bar_text behind.now) }
{
    if !behind.is_empty() {
        buffer.put(out, b" /");
    }
}

/// Puts the points, each behind a space.
fn put_points<O: Out>(out: &mut O, buffer: &mut OutBuffer, points: &[Point])
    ensures { Buffered O.written O.failures out.old buffer.old out.new buffer.new
        (points_text points.now) }
{
    for point in points {
        put_point(out, buffer, *point);
    }
}

/// Puts a point's coordinates, each after a space.
#[tactic(auto, unfolding(crate::specs::Replies::spaced_point))]
fn put_point<O: Out>(out: &mut O, buffer: &mut OutBuffer, point: Point)
    ensures { Buffered O.written O.failures out.old buffer.old out.new buffer.new
        (spaced_point point) }
{
    buffer.put_pair(out, point.x, point.y);
}

/// Puts a cell, as jobs name it.
pub fn put_cell<O: Out>(out: &mut O, buffer: &mut OutBuffer, cell: CellId)
    ensures { Buffered O.written O.failures out.old buffer.old out.new buffer.new (cell_text cell) }
{
    match cell {
        CellId::Top => buffer.put(out, b"top"),
        CellId::Symbol(number) => buffer.put_unsigned(out, u64::from(number)),
    }
}

/// Puts a turn without its shift, as jobs name it.
fn put_turning<O: Out>(out: &mut O, buffer: &mut OutBuffer, turn: Turn)
    ensures { Buffered O.written O.failures out.old buffer.old out.new buffer.new
        (turning_text turn) }
{
    put_mirror(out, buffer, turn.mirror);
    put_quarter(out, buffer, turn.quarter);
}

/// Puts whether a turn mirrors.
fn put_mirror<O: Out>(out: &mut O, buffer: &mut OutBuffer, mirror: bool)
    ensures { Buffered O.written O.failures out.old buffer.old out.new buffer.new
        (if mirror then codes "m" else codes "r") }
{
    if mirror {
        buffer.put(out, b"m");
    } else {
        buffer.put(out, b"r");
    }
}

/// Puts the degrees of quarter turns.
fn put_quarter<O: Out>(out: &mut O, buffer: &mut OutBuffer, quarter: Quarter)
    ensures { Buffered O.written O.failures out.old buffer.old out.new buffer.new
        (degrees_text quarter) }
{
    let degrees: &[u8] = match quarter {
        Quarter::R0 => b"0",
        Quarter::R90 => b"90",
        Quarter::R180 => b"180",
        Quarter::R270 => b"270",
    };
    buffer.put(out, degrees);
}

/// Puts the words of a refusal: its number, its name, and the transaction that it names.
pub fn put_refusal<O: Out>(out: &mut O, buffer: &mut OutBuffer, fault: StepFault)
    ensures { Buffered O.written O.failures out.old buffer.old out.new buffer.new
        (fault_text fault) }
{
    let (number, name) = fault.code();
    buffer.put(out, b"fault ");
    buffer.put_unsigned(out, u64::from(number));
    buffer.put_byte(out, b' ');
    buffer.put(out, name.as_bytes());
    put_named(out, buffer, fault);
}

/// Puts the transaction that a refusal names, behind a space.
fn put_named<O: Out>(out: &mut O, buffer: &mut OutBuffer, fault: StepFault)
    ensures { Buffered O.written O.failures out.old buffer.old out.new buffer.new
        (named_text fault) }
{
    match fault {
        StepFault::Book(BookFault::Depends(txn) | BookFault::Moved(txn) | BookFault::Stale(txn)) =>
            put_spaced(out, buffer, txn),
        _ => {}
    }
}

/// Puts the name of a transaction, behind a space.
fn put_spaced<O: Out>(out: &mut O, buffer: &mut OutBuffer, txn: TxnId)
    ensures { Buffered O.written O.failures out.old buffer.old out.new buffer.new
        (codes " " ++ txn_text txn) }
{
    buffer.put_byte(out, b' ');
    put_txn(out, buffer, txn);
}
