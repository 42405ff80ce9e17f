//! Commands and their answers.
ghost use Rattle.std.specs.Prelude.{◌≡◌, IfOk, Ok};
ghost use Rattle.lay_point.specs.Memory.{IsAnswer};

use face_rows::Op;
use lay_cells::CellId;
use lay_layouts::{Item, ItemId};
use lay_point::{LayerName, NoMemory, Point, Sequence, Turn};
use std::alloc::Global;
use std::fmt;

/// The most accepted commands of a transaction, and the most items that it may make.
pub const MAX_COMMANDS: usize = 65_535;

const _: () = prove!(MAX_COMMANDS == 65_535);

/// The name of a transaction: its session, and its number among the accepted opens of that session. Names are in the
/// order of their sessions, and those of a session in that of their numbers.
#[derive(Clone, Copy, Debug, PartialEq, Eq, PartialOrd, Ord)]
pub struct TxnId {
    /// The session: 1 to 64 of a transaction that was opened.
    pub session: u8,
    /// The transaction of that session: 1 or more of one that was opened.
    pub txn: u16,
}

impl fmt::Display for TxnId {
    ghost use Rattle.std.specs.Prelude.{Some};
    ghost use Rattle.txn_commands.specs.Refusals.{txn_text};

    ghost output = { λ txn. Some (txn_text txn) };

    fn fmt<W: fmt::Write>(&self, f: &mut fmt::Formatter<W>) -> fmt::Result {
        let TxnId { session, txn } = *self;
        write!(f, "{session}.{txn}")
    }
}

/// What a session asks of its transaction.
#[derive(Debug, Drop, PartialEq, Eq)]
pub enum Command {
    /// A new shape of one ring, the upright rectangle with these opposite corners.
    Box {
        /// The cell in which the shape is to stand.
        cell: CellId,
        /// The layer on which it is to be drawn.
        layer: LayerName,
        /// A corner, in database units.
        a: Point,
        /// The opposite corner, in database units.
        b: Point,
    },
    /// A new shape of one ring, the closed path through these points.
    Poly {
        /// The cell in which the shape is to stand.
        cell: CellId,
        /// The layer on which it is to be drawn.
        layer: LayerName,
        /// The points, in database units. One that equals the one before it counts once.
        points: Sequence<Point>,
    },
    /// The item of this id goes.
    Delete(ItemId),
    /// All points of a shape move, or the shift of a call.
    Move {
        /// The item to move.
        id: ItemId,
        /// How far to the right, in database units.
        dx: i32,
        /// How far up, in database units.
        dy: i32,
    },
    /// A shape comes to another layer.
    SetLayer {
        /// The shape.
        id: ItemId,
        /// The layer on which it is to be drawn.
        layer: LayerName,
    },
    /// A new call of a symbol.
    Place {
        /// The cell in which the call is to stand.
        cell: CellId,
        /// The number of the symbol to call.
        target: u32,
        /// What is done to all points of the symbol.
        turn: Turn,
    },
    /// The item of this id is read.
    Look(ItemId),
    /// The shapes of a cell on a layer give way to those of an operation on two layers below the cell.
    Bool {
        /// What is asked of a place, by whether the two layers hold there.
        op: Op,
        /// The cell.
        cell: CellId,
        /// The layer of the first input.
        a: LayerName,
        /// The layer of the second input.
        b: LayerName,
        /// The layer on which the new shapes are drawn.
        out: LayerName,
    },
    /// A new symbol of this number.
    MakeCell(u32),
    /// The symbol of this number goes, which holds nothing and isn't called.
    DropCell(u32),
}

impl Command {
    /// Returns an equal command.
    ///
    /// # Errors
    ///
    /// `NoMemory`, if an allocation fails.
    pub fn copy(&self, alloc: Global) -> Result<Command, NoMemory>
        ensures { IsAnswer (record {}) result (Ok self.now) }
    {
        Ok(match *self {
            Command::Box { cell, layer, a, b } => Command::Box { cell, layer, a, b },
            Command::Poly {
                cell,
                layer,
                ref points,
            } => Command::Poly {
                cell,
                layer,
                points: copied(alloc, points)?,
            },
            Command::Delete(id) => Command::Delete(id),
            Command::Move { id, dx, dy } => Command::Move { id, dx, dy },
            Command::SetLayer { id, layer } => Command::SetLayer { id, layer },
            Command::Place { cell, target, turn } => Command::Place { cell, target, turn },
            Command::Look(id) => Command::Look(id),
            Command::Bool {
                op,
                cell,
                a,
                b,
                out,
            } => Command::Bool {
                op,
                cell,
                a,
                b,
                out,
            },
            Command::MakeCell(number) => Command::MakeCell(number),
            Command::DropCell(number) => Command::DropCell(number),
        })
    }
}

/// Returns the same points.
fn copied(alloc: Global, points: &Sequence<Point>) -> Result<Sequence<Point>, NoMemory>
    ensures { IfOk result (λ copy. copy ≡ points.now) }
{
    let points = Vec::from_slice(alloc, points.as_slice())?;
    Ok(Sequence::from_vec(points))
}

/// What an accepted command answers.
#[derive(Debug, Drop, PartialEq, Eq)]
pub enum Done {
    /// A new item stands under this id.
    Made(ItemId),
    /// New items stand under this id and those behind it, two or more.
    Several {
        /// The first of their ids. The others have its session and transaction, and the next numbers.
        first: ItemId,
        /// How many they are.
        count: u32,
    },
    /// No shape was to be made.
    Empty,
    /// It is done.
    Plain,
    /// The item that was read.
    Found(Item),
}
