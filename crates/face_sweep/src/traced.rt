//! The shapes whose edges the sweep traces: those of some edge of which the shape's box doesn't tell.
ghost use Rattle.std.specs.Prelude.{◌≡◌, ◌≢◌, ◌<◌, ℕ, Contains, MatchOption, None, OnOk, length, slice_index, true};
ghost use Rattle.std.specs.List.Sorted.{IsStrictlyIncreasing};
ghost use Rattle.snap_chains.specs.declared.owner.Owner.{Owner};
ghost use Rattle.snap_chains.specs.Rounded.{is_owner_listed};
ghost use Rattle.face_sweep.specs.Reaches.{extent_of, key_of, told_by};

use crate::boxes::Boxes;
use crate::extent::told_by;
use lay_point::Edge;
use snap_chains::{Input, Owner};
use snap_pixels::partition_from;
use std::alloc::{AllocError, Global};

/// Appends the keys of those owners of the edge whose boxes don't tell of it.
pub(crate) fn put_untold(
    owners: &[Owner],
    edge: Edge,
    boxes: &Boxes,
    keys: &mut Vec<u64>,
) -> Result<(), AllocError>
    ensures kept { OnOk result ((k : ℕ) → Contains keys.old.items k → Contains keys.new.items k) }
    ensures untold { OnOk result ((o : Owner) → is_owner_listed o owners.now ≡ true
        → told_by (extent_of boxes.now o) edge ≡ None → Contains keys.new.items (key_of o)) }
{
    for owner in owners {
        put_if_untold(*owner, edge, boxes, keys)?;
    }
    Ok(())
}

/// Appends the key of the owner, if its box doesn't tell of the edge.
fn put_if_untold(
    owner: Owner,
    edge: Edge,
    boxes: &Boxes,
    keys: &mut Vec<u64>,
) -> Result<(), AllocError>
    ensures kept { OnOk result ((k : ℕ) → Contains keys.old.items k → Contains keys.new.items k) }
    ensures untold { OnOk result (told_by (extent_of boxes.now owner) edge ≡ None
        → Contains keys.new.items (key_of owner)) }
{
    if told_by(boxes.extent(owner), edge).is_none() {
        keys.push(key_of(owner))?;
    }
    Ok(())
}

/// Returns for each number below `count` how many of the keys, which are in order, are less. There the search for a key
/// begins; any index would do.
pub(crate) fn hints_of(alloc: Global, keys: &[u64], count: usize) -> Result<Vec<u32>, AllocError> {
    let mut hints = Vec::with_capacity(alloc, count)?;
    let mut less = 0;
    for number in 0..count {
        if less < keys.len() && keys[less] < number as u64 {
            less += 1;
        }
        hints.push(u32::try_from(less).unwrap_or(u32::MAX))?;
    }
    Ok(hints)
}

/// Returns where the search for the shape's key begins.
pub(crate) fn hint_of(hints: &[u32], owner: Owner) -> usize {
    hints
        .get(key_of(owner) as usize)
        .map_or(0, |less: &u32| *less as usize)
}

/// Returns the index of the shape's key, if it is one of these, which are in order. The search begins at the index `near`;
/// any will do.
pub(crate) fn index_of(keys: &[u64], near: usize, owner: Owner) -> Option<usize>
    requires { IsStrictlyIncreasing keys.now }
    ensures { MatchOption result ((i : ℕ) → i < length keys.now → slice_index keys.now i ≢ key_of owner)
        (λ i. (i < length keys.now) × (slice_index keys.now i ≡ key_of owner)) }
{
    let key = key_of(owner);
    let found = partition_from(keys.len(), near, |index| keys[index] < key);
    if found >= keys.len() {
        return None;
    }
    if keys[found] != key {
        return None;
    }
    Some(found)
}

/// Returns the key of the shape. The shapes of the two inputs take turns.
fn key_of(owner: Owner) -> u64
    ensures { result ≡ key_of owner }
{
    match owner.input {
        Input::First => 2 * u64::from(owner.shape),
        Input::Second => 2 * u64::from(owner.shape) + 1,
    }
}
