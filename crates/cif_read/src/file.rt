//! What a text is read as.
ghost use Rattle.std.specs.Prelude.{◌≡◌};

use crate::element::Element;
use lay_cells::Cells;
use lay_point::Sequence;
use std::marker::Model;

/// The longest text that is read, in bytes.
pub const MAX_TEXT: usize = 16_777_216;

const _: () = prove!(MAX_TEXT == 16_777_216);

/// The most symbols that a text may define.
pub const MAX_SYMBOLS: usize = 4_096;

const _: () = prove!(MAX_SYMBOLS == 4_096);

/// The meaning of a text: a sound layout. Each called symbol is defined, and none contains itself.
/// Contracts see the record of its contents.
#[derive(Debug, Drop)]
pub struct CifFile {
    /// The numbers of the symbols, in the order of the text.
    pub symbols: Cells,
    /// The elements, in the order of the text.
    pub elements: Sequence<Element>,
    /// How many user extensions were passed over.
    pub extensions: u32,
    /// How many polygons and boxes were dropped, since they have no area left.
    pub dropped: u32,
}

impl Model for CifFile {
    ghost use Rattle.cif_read.specs.Contents.{Contents, IsSoundFile};

    ghost Value = { Contents };

    ghost view = { λ f. record {
      symbols = f.symbols;
      elements = f.elements;
      extensions = f.extensions;
      dropped = f.dropped;
    } };

    ghost invariant = { λ f. IsSoundFile (record {
      symbols = f.symbols;
      elements = f.elements;
      extensions = f.extensions;
      dropped = f.dropped;
    }) };
}

impl CifFile {
    ghost use Rattle.cif_read.specs.Contents.{IsSoundFile};

    /// Returns the numbers of the symbols, in the order of their definitions.
    pub fn symbols(&self) -> &Cells
        ensures value { result.now ≡ self.now.symbols }
        ensures sound { IsSoundFile self.now }
    {
        &self.symbols
    }

    /// Returns the kept elements, in text order: the first is number 1.
    pub fn elements(&self) -> &[Element]
        ensures value { result.now ≡ self.now.elements }
        ensures sound { IsSoundFile self.now }
    {
        self.elements.as_slice()
    }

    /// Returns how many extensions there are.
    pub fn extensions(&self) -> u32
        ensures { result ≡ self.now.extensions }
    {
        self.extensions
    }

    /// Returns how many elements were checked and not kept: boxes with a zero side, and polygons of which
    /// fewer than three points remain without repeats.
    pub fn dropped(&self) -> u32
        ensures { result ≡ self.now.dropped }
    {
        self.dropped
    }

    /// Returns the symbols and the elements, by value.
    pub fn into_parts(self) -> (Cells, Vec<Element>)
        ensures symbols { result.0 ≡ self.symbols }
        ensures elements { result.1.items ≡ self.elements }
        ensures sound { IsSoundFile self }
    {
        let CifFile {
            symbols,
            elements,
            ..
        } = self;
        (symbols, elements.into_vec())
    }
}
