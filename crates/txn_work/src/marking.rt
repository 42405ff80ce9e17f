//! What an act leaves in the footprint and in the writes, or nothing where an allocation fails.
ghost use Rattle.std.specs.Prelude.{◌≡◌, ◌∷◌, [], IfOk, OnErr, OnOk};
ghost use Rattle.lay_layouts.specs.Layout.{Layout};
ghost use Rattle.txn_commands.specs.Elements.{with_elements};
ghost use Rattle.txn_commands.specs.Records.{records_between};
ghost use Rattle.txn_commands.specs.Writing.{rewritten};
ghost use Rattle.txn_plans.specs.Acting.{item_writes, symbols_in};
ghost use Rattle.txn_work.specs.Marking.{HasNone, missing_in, without_elements};

use lay_items::Snapshot;
use lay_layouts::{Item, ItemId};
use lay_point::NoMemory;
use std::alloc::Global;
use txn_commands::Element;
use txn_marks::{Footprint, Writes};
use txn_plans::Written;

/// Adds the elements to the footprint, and writes what is written over the snapshot. Where an allocation
/// fails both stay as they were.
pub(crate) fn mark(
    alloc: Global,
    snapshot: &Snapshot,
    writes: &mut Writes,
    footprint: &mut Footprint,
    elements: &[Element],
    written: Written,
) -> Result<(), NoMemory>
    ensures footprint { OnOk result (footprint.new ≡ with_elements footprint.old elements.now) }
    ensures writes { OnOk result ((m : Layout) → writes.old ≡ records_between snapshot.now m
        → writes.new ≡ records_between snapshot.now (rewritten m (item_writes written) (symbols_in written))) }
    ensures err { OnErr result ((footprint.new ≡ footprint.old) × (writes.new ≡ writes.old)) }
{
    let fresh = missing(alloc, footprint, elements)?;
    add_all(footprint, &fresh)?;
    match write(alloc, snapshot, writes, written) {
        Ok(()) => Ok(()),
        Err(failed) => {
            remove_all(footprint, &fresh);
            Err(failed)
        }
    }
}

/// Returns those of these elements that the footprint hasn't.
fn missing(
    alloc: Global,
    footprint: &Footprint,
    elements: &[Element],
) -> Result<Vec<Element>, NoMemory>
    ensures { IfOk result (λ fresh. fresh.items ≡ missing_in footprint.now elements.now) }
{
    let mut fresh = Vec::with_capacity(alloc, elements.len())?;
    for element in elements {
        if !footprint.contains(*element) {
            fresh.push(*element)?;
        }
    }
    Ok(fresh)
}

/// Adds elements that the footprint hasn't.
fn add_all(footprint: &mut Footprint, fresh: &[Element]) -> Result<(), NoMemory>
    requires { HasNone footprint.old fresh.now }
    ensures ok { OnOk result (footprint.new ≡ with_elements footprint.old fresh.now) }
    ensures err { OnErr result (footprint.new ≡ footprint.old) }
{
    for element in fresh {
        if footprint.insert(*element).is_err() {
            remove_all(footprint, fresh);
            return Err(NoMemory {});
        }
    }
    Ok(())
}

/// Removes these elements.
fn remove_all(footprint: &mut Footprint, elements: &[Element])
    ensures { footprint.new ≡ without_elements footprint.old elements.now }
{
    for element in elements {
        footprint.remove(*element);
    }
}

/// Writes what an act writes over a snapshot.
fn write(
    alloc: Global,
    snapshot: &Snapshot,
    writes: &mut Writes,
    written: Written,
) -> Result<(), NoMemory>
    ensures ok { OnOk result ((m : Layout) → writes.old ≡ records_between snapshot.now m
        → writes.new ≡ records_between snapshot.now (rewritten m (item_writes written) (symbols_in written))) }
    ensures err { OnErr result (writes.new ≡ writes.old) }
{
    match written {
        Written::Nothing => Ok(()),
        Written::Item(id, after) => write_item(alloc, snapshot, writes, id, after),
        Written::Items(items) => {
            // Some writes may fail behind others, so they are made in a copy.
            let mut next = writes.copy()?;
            write_items(alloc, snapshot, &mut next, items)?;
            *writes = next;
            Ok(())
        }
        Written::Symbol(number, after) => writes.set_symbol(number, snapshot.slot(number), after),
    }
}

/// Writes an item over a snapshot.
fn write_item(
    alloc: Global,
    snapshot: &Snapshot,
    writes: &mut Writes,
    id: ItemId,
    after: Option<Item>,
) -> Result<(), NoMemory>
    ensures ok { OnOk result ((m : Layout) → writes.old ≡ records_between snapshot.now m
        → writes.new ≡ records_between snapshot.now (rewritten m ((id, after) ∷ []) [])) }
    ensures err { OnErr result (writes.new ≡ writes.old) }
{
    let before = match snapshot.item(id) {
        Some(item) => Some(item.copy(alloc)?),
        None => None,
    };
    writes.set_item(id, before, after)
}

/// Writes items over a snapshot, one behind the other.
fn write_items(
    alloc: Global,
    snapshot: &Snapshot,
    writes: &mut Writes,
    items: Vec<(ItemId, Option<Item>)>,
) -> Result<(), NoMemory>
    ensures { OnOk result ((m : Layout) → writes.old ≡ records_between snapshot.now m
        → writes.new ≡ records_between snapshot.now (rewritten m items.items [])) }
{
    for (id, after) in items {
        write_item(alloc, snapshot, writes, id, after)?;
    }
    Ok(())
}
