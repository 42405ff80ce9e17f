//! What the sweep knows of each edge before it begins.
ghost use Rattle.std.specs.Prelude.{◌≡◌, ◌∷◌, [], ℕ, Contains, IfOk, None, OnOk, true};
ghost use Rattle.std.specs.List.Sorted.{IsStrictlyIncreasing};
ghost use Rattle.snap_chains.specs.declared.owner.Owner.{Owner};
ghost use Rattle.snap_chains.specs.Rounded.{is_owner_listed};
ghost use Rattle.face_sweep.specs.Reaches.{ArePut, AreTurns, IsTurnOf, extent_of, key_of, told_by, turn_told, turn_traced};

use crate::boxes::Boxes;
use crate::extent::told_by;
use crate::traced::{hint_of, index_of, put_untold};
use lay_point::Edge;
use snap_chains::{CleanEdges, Input, Owner};
use std::alloc::{AllocError, Global};

/// Indexes below this have room in a turn.
const MANY: usize = 65_536;

/// Which shape an edge turns, if it has one owner alone, and where to look whether that holds right of it.
#[derive(Clone, Copy, Debug)]
pub(crate) enum Turn {
    /// Its owners have to be looked at.
    Sought,
    /// A shape of the input, which isn't traced; its box tells whether it holds right of the edge.
    Told { input: Input, holds: bool },
    /// A shape of the input, which is traced: the list of this index has its edges.
    Traced { input: Input, index: u16 },
}

/// Returns what is known of each edge, in order, if no shape is traced, and appends the keys of the owners whose boxes don't
/// tell of an edge of theirs.
pub(crate) fn told_turns(
    alloc: Global,
    edges: &CleanEdges,
    boxes: &Boxes,
    keys: &mut Vec<u64>,
) -> Result<Vec<Turn>, AllocError>
    ensures turns { IfOk result (λ turns. AreTurns edges.now boxes.now [] turns.items) }
    ensures untold { OnOk result (ArePut edges.now boxes.now keys.new.items) }
{
    let mut turns = Vec::with_capacity(alloc, edges.edges().len())?;
    for number in 0..edges.edges().len() {
        let edge = edges.edges()[number];
        turns.push(told_turn(edges.owners(number), edge, boxes, keys)?)?;
    }
    Ok(turns)
}

/// Returns what is known of an edge that has these owners, if no shape is traced, and appends the keys of those whose boxes
/// don't tell of it.
fn told_turn(
    owners: &[Owner],
    edge: Edge,
    boxes: &Boxes,
    keys: &mut Vec<u64>,
) -> Result<Turn, AllocError>
    ensures turn { IfOk result (IsTurnOf owners.now edge boxes.now []) }
    ensures kept { OnOk result ((k : ℕ) → Contains keys.old.items k → Contains keys.new.items k) }
    ensures untold { OnOk result ((o : Owner) → is_owner_listed o owners.now ≡ true
        → told_by (extent_of boxes.now o) edge ≡ None → Contains keys.new.items (key_of o)) }
{
    let turn = turn_of(owners, edge, boxes, &[], &[]);
    if let Turn::Told { .. } = turn {
        return Ok(turn);
    }
    put_untold(owners, edge, boxes, keys)?;
    Ok(turn)
}

/// Returns what is known of each edge, in order. The keys are those of the shapes that are traced, and the hints
/// those of `hints_of`, or any others.
pub(crate) fn turns_of(
    alloc: Global,
    edges: &CleanEdges,
    boxes: &Boxes,
    keys: &[u64],
    hints: &[u32],
) -> Result<Vec<Turn>, AllocError>
    requires { IsStrictlyIncreasing keys.now }
    ensures { IfOk result (λ turns. AreTurns edges.now boxes.now keys.now turns.items) }
{
    let mut turns = Vec::with_capacity(alloc, edges.edges().len())?;
    for number in 0..edges.edges().len() {
        let edge = edges.edges()[number];
        turns.push(turn_of(edges.owners(number), edge, boxes, keys, hints))?;
    }
    Ok(turns)
}

/// Returns what is known of an edge that has these owners.
fn turn_of(owners: &[Owner], edge: Edge, boxes: &Boxes, keys: &[u64], hints: &[u32]) -> Turn
    requires { IsStrictlyIncreasing keys.now }
    ensures { IsTurnOf owners.now edge boxes.now keys.now result }
{
    if owners.len() != 1 {
        return Turn::Sought;
    }
    turn_by(owners[0], edge, boxes, keys, hints)
}

/// Returns what is known of an edge that has this owner alone.
fn turn_by(owner: Owner, edge: Edge, boxes: &Boxes, keys: &[u64], hints: &[u32]) -> Turn
    requires { IsStrictlyIncreasing keys.now }
    ensures { IsTurnOf (owner ∷ []) edge boxes.now keys.now result }
{
    match index_of(keys, hint_of(hints, owner), owner) {
        None => told(owner.input, told_by(boxes.extent(owner), edge)),
        Some(index) => traced(owner.input, index),
    }
}

/// Returns that the only owner is a shape of the input whose box tells so, if it tells.
fn told(input: Input, holds: Option<bool>) -> Turn
    ensures { result ≡ turn_told input holds }
{
    match holds {
        Some(holds) => Turn::Told { input, holds },
        None => Turn::Sought,
    }
}

/// Returns that the only owner is a shape of the input whose list has this index, if a number of 16 bits can say it.
fn traced(input: Input, index: usize) -> Turn
    ensures { result ≡ turn_traced input index }
{
    if index < MANY {
        return Turn::Traced {
            input,
            index: index as u16,
        };
    }
    Turn::Sought
}
