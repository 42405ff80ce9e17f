//! The symbols of a layout, by number.
ghost use Rattle.std.specs.Prelude.{◌≡◌, [], IfOk, OnErr, OnOk, is_some, length, nat_eq};
ghost use Rattle.std.specs.Prelude.{not, position, slice_get};
ghost use Rattle.std.specs.List.{IsDistinct};
ghost use Rattle.lay_cells.specs.Symbols.{has_symbol, with_symbol};

use indexmap::IndexSet;
use lay_point::NoMemory;
use std::alloc::{AllocError, Global};
use std::marker::Model;

/// The greatest number of a symbol.
pub const MAX_SYMBOL: u32 = 999_999_999;

const _: () = prove!(MAX_SYMBOL == 999_999_999);

/// The numbers of symbols, each once, in the order in which they were added. Contracts see the list of the
/// numbers.
#[derive(Debug, Drop)]
pub struct Cells {
    numbers: IndexSet<u32>,
}

impl Model for Cells {
    ghost use Rattle.std.specs.Prelude.{ℕ, List, nat_eq};
    ghost use Rattle.std.specs.List.{IsDistinct};

    ghost Value = { List ℕ };

    ghost view = { λ c. c.numbers.keys };

    ghost invariant = { λ c. IsDistinct nat_eq c.numbers.keys };
}

impl Cells {
    /// Returns no symbols. It doesn't allocate.
    pub fn new(alloc: Global) -> Cells
        ensures { result ≡ [] }
    {
        Cells {
            numbers: IndexSet::new(alloc),
        }
    }

    /// Adds the symbol of this number behind the others, and returns whether it was new.
    ///
    /// # Errors
    ///
    /// `NoMemory`, if an allocation fails; nothing is changed then.
    ///
    /// # Cost
    ///
    /// That of an insertion in a hash table.
    pub fn add(&mut self, number: u32) -> Result<bool, NoMemory>
        ensures answer { IfOk result (λ added. added ≡ not (has_symbol self.old number)) }
        ensures ok { OnOk result (self.new ≡ with_symbol self.old number) }
        ensures err { OnErr result (self.new ≡ self.old) }
    {
        Ok(self.numbers.insert(number)?)
    }

    /// Returns the position of the symbol of this number.
    ///
    /// # Cost
    ///
    /// That of a look-up in a hash table.
    pub fn position(&self, number: u32) -> Option<usize>
        ensures value { result ≡ position (nat_eq number) self.now }
        ensures found { is_some result ≡ has_symbol self.now number }
    {
        self.numbers.get_index_of(&number)
    }

    /// Returns the number of symbols.
    pub fn len(&self) -> usize
        ensures value { result ≡ length self.now }
        ensures distinct { IsDistinct nat_eq self.now }
    {
        self.numbers.len()
    }

    /// Returns the number of the symbol at this position.
    pub fn at(&self, position: usize) -> Option<u32>
        ensures { result ≡ slice_get self.now position }
    {
        self.numbers.get_index(position).copied()
    }
}

impl Clone for Cells {
    ghost use Rattle.std.specs.Prelude.{◌≡◌};

    ghost is_clone = { λ cells copy. copy ≡ cells };

    fn clone(&self) -> Result<Cells, AllocError> {
        Ok(Cells {
            numbers: self.numbers.clone()?,
        })
    }
}
