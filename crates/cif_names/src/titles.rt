//! The names of symbols, by their numbers.
ghost use Rattle.std.specs.Prelude.{◌≡◌, ◌==◌, [], ℕ, IfOk, OnOk, if◌then◌else◌};
ghost use Rattle.cif_names.specs.Maps.{bytes_at};
ghost use Rattle.cif_names.specs.Titles.{first_name, is_name, name_said_by, named_or, title_at, title_in};

use crate::maps::bytes_at;
use crate::names::{Entry, Names};
use lay_point::{NoMemory, Sequence};
use std::alloc::Global;
use std::collections::BTreeMap;

/// The names of symbols: of each the first that stands in its definition.
#[derive(Debug, Drop)]
pub struct Titles {
    names: BTreeMap<u32, Sequence<u8>>,
}

impl Titles {
    /// Returns the names of symbols among these names and labels; where there are none, of no symbol.
    ///
    /// # Errors
    ///
    /// `NoMemory`, if an allocation fails.
    ///
    /// # Cost
    ///
    /// A pass over the names and labels, and a look-up in a sorted map for each name.
    pub fn of(alloc: Global, names: &Option<Names>) -> Result<Titles, NoMemory>
        ensures { IfOk result (λ titles. (n : ℕ) → title_at titles n ≡ title_in names.now n) }
    {
        match names {
            Some(names) => titles_of(alloc, names.entries()),
            None => Ok(Titles {
                names: BTreeMap::new(alloc),
            }),
        }
    }

    /// Returns the name of the symbol; no bytes where it has none.
    pub fn of_symbol(&self, symbol: u32) -> &[u8]
        ensures { result.now ≡ title_at self.now symbol }
    {
        bytes_at(&self.names, symbol)
    }
}

/// Returns the names of symbols among these lines, of which the last are taken first.
fn titles_of(alloc: Global, entries: &[Entry]) -> Result<Titles, NoMemory>
    ensures { IfOk result (λ titles. (n : ℕ) → title_at titles n ≡ first_name [] n entries.now) }
{
    let mut names = BTreeMap::new(alloc);
    let mut left = entries;
    while let Some((entry, front)) = left.split_last() {
        add_name(alloc, &mut names, entry)?;
        left = front;
    }
    Ok(Titles { names })
}

/// Sets the name of the entry's symbol, if its line is a name.
fn add_name(
    alloc: Global,
    names: &mut BTreeMap<u32, Sequence<u8>>,
    entry: &Entry,
) -> Result<(), NoMemory>
    ensures { OnOk result ((n : ℕ) → bytes_at names.new.entries n ≡ named_or (bytes_at names.old.entries n) n entry.now) }
{
    let line = entry.line.as_slice();
    match entry.symbol {
        Some(symbol) if is_name(line) => set_name(alloc, names, symbol, name_said_by(line)),
        _ => Ok(()),
    }
}

/// Sets the name of the symbol.
fn set_name(
    alloc: Global,
    names: &mut BTreeMap<u32, Sequence<u8>>,
    symbol: u32,
    name: &[u8],
) -> Result<(), NoMemory>
    ensures { OnOk result ((n : ℕ) → bytes_at names.new.entries n
        ≡ (if symbol == n then name.now else bytes_at names.old.entries n)) }
{
    let name = Vec::from_slice(alloc, name)?;
    names.insert(symbol, Sequence::from_vec(name))?;
    Ok(())
}

/// Returns whether the line is that of a name.
fn is_name(line: &[u8]) -> bool
    ensures { result ≡ is_name line.now }
{
    line.starts_with(b"9 ")
}

/// Returns what the line of a name says.
fn name_said_by(line: &[u8]) -> &[u8]
    ensures { result.now ≡ name_said_by line.now }
{
    if line.len() < 4 {
        return &[];
    }
    let behind = &line[2..];
    &behind[..line.len() - 4]
}
