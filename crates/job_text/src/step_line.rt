//! Step lines.
ghost use Rattle.std.specs.Prelude.{◌≡◌, Ok, [], ◌++◌, OnOk};
ghost use Rattle.lay_point.specs.Memory.{IsAnswer};
ghost use Rattle.job_text.specs.Steps.{
  bool_command,
  box_command,
  command_named,
  layer_command,
  move_command,
  op_of,
  parsed_points,
  place_command,
  poly_command,
  short_command,
  step_named,
  step_of,
};
ghost use Rattle.job_text.specs.Words.{words};

use crate::fields::{
    cell_at, ended, item_alone, item_at, point_at, point_of, symbol_alone, symbol_at, turning_at,
    txn_alone,
};
use crate::words::split_word;
use face_rows::Op;
use lay_point::{LayerName, NoMemory, Point, Sequence, Turn};
use session_steps::Step;
use std::alloc::Global;
use txn_commands::Command;

/// The step that the words of a line say, `None` where they say none.
#[tactic(auto, unfolding(crate::specs::Steps::step_of))]
pub(crate) fn step_of(alloc: Global, line: &[u8]) -> Result<Option<Step>, NoMemory>
    ensures { IsAnswer (record {}) result (Ok (step_of (words line.now))) }
{
    match split_word(line) {
        Some((name, behind)) => step_named(alloc, name, behind),
        None => Ok(None),
    }
}

/// The step of this name, with the words behind that.
#[tactic(auto, unfolding(crate::specs::Steps::step_named))]
fn step_named(alloc: Global, name: &[u8], line: &[u8]) -> Result<Option<Step>, NoMemory>
    ensures { IsAnswer (record {}) result (Ok (step_named name.now (words line.now))) }
{
    if name == "open".as_bytes() {
        return Ok(ended(line, Step::Open));
    }
    if name == "commit".as_bytes() {
        return Ok(ended(line, Step::Commit));
    }
    if name == "cancel".as_bytes() {
        return Ok(ended(line, Step::Cancel));
    }
    if name == "undo".as_bytes() {
        return Ok(txn_alone(line).map(Step::Undo));
    }
    if name == "redo".as_bytes() {
        return Ok(txn_alone(line).map(Step::Redo));
    }
    Ok(command_of(alloc, name, line)?.map(Step::Do))
}

/// The command of this name, with the words behind that.
#[tactic(auto, unfolding(crate::specs::Steps::command_named))]
fn command_of(alloc: Global, name: &[u8], line: &[u8]) -> Result<Option<Command>, NoMemory>
    ensures { IsAnswer (record {}) result (Ok (command_named name.now (words line.now))) }
{
    if name == "box".as_bytes() {
        return Ok(box_of(line));
    }
    if name == "poly".as_bytes() {
        return poly_of(alloc, line);
    }
    Ok(short_command(name, line))
}

/// The command of this name, other than `box` and `poly`, with the words behind that.
#[tactic(auto, unfolding(crate::specs::Steps::short_command))]
fn short_command(name: &[u8], line: &[u8]) -> Option<Command>
    ensures { result ≡ short_command name.now (words line.now) }
{
    if name == "delete".as_bytes() {
        return item_alone(line).map(Command::Delete);
    }
    if name == "look".as_bytes() {
        return item_alone(line).map(Command::Look);
    }
    if name == "move".as_bytes() {
        return move_of(line);
    }
    if name == "layer".as_bytes() {
        return layer_of(line);
    }
    if name == "place".as_bytes() {
        return place_command(line);
    }
    if name == "mkcell".as_bytes() {
        return symbol_alone(line).map(Command::MakeCell);
    }
    if name == "rmcell".as_bytes() {
        return symbol_alone(line).map(Command::DropCell);
    }
    let op = op_of(name)?;
    bool_of(op, line)
}

/// The command `box`: the cell, the layer and two opposite corners.
#[tactic(auto, unfolding(crate::specs::Steps::box_command))]
fn box_of(line: &[u8]) -> Option<Command>
    ensures { result ≡ box_command (words line.now) }
{
    let (cell, behind) = cell_at(line)?;
    let (word, behind) = split_word(behind)?;
    let layer = LayerName::new(word)?;
    let (a, behind) = point_at(behind)?;
    let (b, behind) = point_at(behind)?;
    ended(behind, Command::Box { cell, layer, a, b })
}

/// The command `poly`: the cell, the layer and the points.
#[tactic(auto, unfolding(crate::specs::Steps::poly_command))]
fn poly_of(alloc: Global, line: &[u8]) -> Result<Option<Command>, NoMemory>
    ensures { IsAnswer (record {}) result (Ok (poly_command (words line.now))) }
{
    let Some((cell, behind)) = cell_at(line) else {
        return Ok(None);
    };
    let Some((word, behind)) = split_word(behind) else {
        return Ok(None);
    };
    let Some(layer) = LayerName::new(word) else {
        return Ok(None);
    };
    let points = points_of(alloc, behind)?;
    Ok(points.map(|points| Command::Poly {
        cell,
        layer,
        points,
    }))
}

/// The points that the words spell, two words a point.
fn points_of(alloc: Global, line: &[u8]) -> Result<Option<Sequence<Point>>, NoMemory>
    ensures { IsAnswer (record {}) result (Ok (parsed_points [] (words line.now))) }
{
    let mut points = Vec::new(alloc);
    let mut rest = line;
    while let Some((x, behind)) = split_word(rest) {
        let Some((y, behind)) = split_word(behind) else {
            return Ok(None);
        };
        let Some(point) = point_of(x, y) else {
            return Ok(None);
        };
        points.push(point)?;
        rest = behind;
    }
    Ok(Some(Sequence::from_vec(points)))
}

/// The command `move`: the item, and how far to the right and up.
#[tactic(auto, unfolding(crate::specs::Steps::move_command))]
fn move_of(line: &[u8]) -> Option<Command>
    ensures { result ≡ move_command (words line.now) }
{
    let (id, behind) = item_at(line)?;
    let (Point { x: dx, y: dy }, behind) = point_at(behind)?;
    ended(behind, Command::Move { id, dx, dy })
}

/// The command `layer`: the item and the layer.
#[tactic(auto, unfolding(crate::specs::Steps::layer_command))]
fn layer_of(line: &[u8]) -> Option<Command>
    ensures { result ≡ layer_command (words line.now) }
{
    let (id, behind) = item_at(line)?;
    let (word, behind) = split_word(behind)?;
    let layer = LayerName::new(word)?;
    ended(behind, Command::SetLayer { id, layer })
}

/// The command `place`: the cell, the symbol to call, the turn without its shift, and the shift.
#[tactic(auto, unfolding(crate::specs::Steps::place_command))]
fn place_command(line: &[u8]) -> Option<Command>
    ensures { result ≡ place_command (words line.now) }
{
    let (cell, behind) = cell_at(line)?;
    let (target, behind) = symbol_at(behind)?;
    let ((mirror, quarter), behind) = turning_at(behind)?;
    let (shift, behind) = point_at(behind)?;
    let turn = Turn {
        mirror,
        quarter,
        shift,
    };
    ended(behind, Command::Place { cell, target, turn })
}

/// The operation on layers of this name.
#[tactic(auto, unfolding(crate::specs::Steps::op_of))]
fn op_of(name: &[u8]) -> Option<Op>
    ensures { result ≡ op_of name.now }
{
    match name {
        b"and" => Some(Op::And),
        b"or" => Some(Op::Or),
        b"not" => Some(Op::Not),
        b"xor" => Some(Op::Xor),
        _ => None,
    }
}

/// An operation on layers: the cell, the layers of both inputs, and that of the new shapes.
#[tactic(auto, unfolding(crate::specs::Steps::bool_command))]
fn bool_of(op: Op, line: &[u8]) -> Option<Command>
    ensures { result ≡ bool_command op (words line.now) }
{
    let (cell, behind) = cell_at(line)?;
    let (word, behind) = split_word(behind)?;
    let a = LayerName::new(word)?;
    let (word, behind) = split_word(behind)?;
    let b = LayerName::new(word)?;
    let (word, behind) = split_word(behind)?;
    let out = LayerName::new(word)?;
    ended(
        behind,
        Command::Bool {
            op,
            cell,
            a,
            b,
            out,
        },
    )
}
