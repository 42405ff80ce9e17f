//! The lines of each symbol, by its number.
ghost use Rattle.std.specs.Prelude.{◌≡◌, ◌++◌, ◌==◌, [], ℕ, IfOk, OnOk, if◌then◌else◌};
ghost use Rattle.cif_names.specs.Maps.{bytes_at, bytes_or_none};
ghost use Rattle.cif_names.specs.Woven.{heading, line_in, lines_in, symbol_or};

use crate::names::Entry;
use lay_point::{NoMemory, Sequence};
use std::alloc::Global;
use std::collections::BTreeMap;

/// Returns the lines of each symbol, those that set no layer before those that set one, where this symbol is called last.
pub(crate) fn headings(
    alloc: Global,
    entries: &[Entry],
    called: Option<u32>,
) -> Result<BTreeMap<u32, Sequence<u8>>, NoMemory>
    ensures { IfOk result (λ map. (n : ℕ) → bytes_at map.entries n ≡ heading called entries.now n) }
{
    let mut map = BTreeMap::new(alloc);
    add_entries(alloc, &mut map, entries, called, false)?;
    add_entries(alloc, &mut map, entries, called, true)?;
    Ok(map)
}

/// Adds the lines that set a layer, or those that don't, to those of their symbols.
fn add_entries(
    alloc: Global,
    map: &mut BTreeMap<u32, Sequence<u8>>,
    entries: &[Entry],
    called: Option<u32>,
    layered: bool,
) -> Result<(), NoMemory>
    ensures { OnOk result ((n : ℕ) → bytes_at map.new.entries n
        ≡ bytes_at map.old.entries n ++ lines_in layered called n entries.now) }
{
    for entry in entries {
        add_entry(alloc, map, entry, called, layered)?;
    }
    Ok(())
}

/// Adds the entry's line to those of its symbol, if it sets a layer or doesn't, as is asked for.
fn add_entry(
    alloc: Global,
    map: &mut BTreeMap<u32, Sequence<u8>>,
    entry: &Entry,
    called: Option<u32>,
    layered: bool,
) -> Result<(), NoMemory>
    ensures { OnOk result ((n : ℕ) → bytes_at map.new.entries n
        ≡ bytes_at map.old.entries n ++ line_in layered called n entry.now) }
{
    if entry.sets_layer() != layered {
        return Ok(());
    }
    match symbol_or(called, entry.symbol) {
        None => Ok(()),
        Some(symbol) => add_line(alloc, map, symbol, entry.line.as_slice()),
    }
}

/// Adds the line to those of the symbol.
fn add_line(
    alloc: Global,
    map: &mut BTreeMap<u32, Sequence<u8>>,
    symbol: u32,
    line: &[u8],
) -> Result<(), NoMemory>
    ensures { OnOk result ((n : ℕ) → bytes_at map.new.entries n
        ≡ bytes_at map.old.entries n ++ (if symbol == n then line.now else [])) }
{
    let mut bytes = taken(alloc, map.remove(&symbol));
    bytes.extend_from_slice(line)?;
    map.insert(symbol, Sequence::from_vec(bytes))?;
    Ok(())
}

/// Returns the bytes, or none.
fn taken(alloc: Global, bytes: Option<Sequence<u8>>) -> Vec<u8>
    ensures { result.items ≡ bytes_or_none bytes }
{
    match bytes {
        None => Vec::new(alloc),
        Some(bytes) => bytes.into_vec(),
    }
}

/// Returns the bytes of a symbol.
pub(crate) fn bytes_at(map: &BTreeMap<u32, Sequence<u8>>, symbol: u32) -> &[u8]
    ensures { result.now ≡ bytes_at map.now.entries symbol }
{
    match map.get(&symbol) {
        None => &[],
        Some(bytes) => bytes.as_slice(),
    }
}

/// Returns the symbol, or where there is none, the other.
pub(crate) fn symbol_or(other: Option<u32>, symbol: Option<u32>) -> Option<u32>
    ensures { result ≡ symbol_or other symbol }
{
    match symbol {
        None => other,
        Some(symbol) => Some(symbol),
    }
}
