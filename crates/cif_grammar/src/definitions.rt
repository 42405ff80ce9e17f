//! The beginnings of definitions as a text writes them.
ghost use Rattle.std.specs.Prelude.{◌≡◌};
ghost use Rattle.cif_grammar.specs.Definitions.{definition_of, scale_of, written_scale_of};

use crate::blanks::are_blanks;
use crate::number::{behind_separator, integer};

/// A scale of distances: the quotient of its two numbers.
#[derive(Clone, Copy, Debug, PartialEq, Eq)]
pub struct Scale {
    /// The first number of a definition's scale.
    pub numerator: u32,
    /// The second number of a definition's scale.
    pub denominator: u32,
}

/// The beginning of a definition.
#[derive(Clone, Copy, Debug, PartialEq, Eq)]
pub struct Definition {
    /// The symbol's number.
    pub symbol: u32,
    /// The scale of the distances in the definition; 1/1 where none is written.
    pub scale: Scale,
}

/// Reads the definition behind a `D`, blanks and an `S`, up to the end of the bytes. Returns `None` where
/// they are none.
#[tactic(auto, unfolding(crate::specs::Definitions::definition_of))]
pub fn read_definition(bytes: &[u8]) -> Option<Definition>
    ensures { result ≡ definition_of bytes.now }
{
    let (symbol, rest) = integer(bytes)?;
    let scale = read_scale(rest)?;
    Some(Definition { symbol, scale })
}

/// Reads a scale or none, up to the end of the bytes.
fn read_scale(bytes: &[u8]) -> Option<Scale>
    ensures { result ≡ scale_of bytes.now }
{
    if are_blanks(bytes) {
        return Some(Scale {
            numerator: 1,
            denominator: 1,
        });
    }
    read_written_scale(bytes)
}

/// Reads a scale, up to the end of the bytes.
#[tactic(auto, unfolding(crate::specs::Definitions::written_scale_of))]
fn read_written_scale(bytes: &[u8]) -> Option<Scale>
    ensures { result ≡ written_scale_of bytes.now }
{
    let (numerator, rest) = integer(behind_separator(bytes)?)?;
    let (denominator, rest) = integer(behind_separator(rest)?)?;
    if !are_blanks(rest) {
        return None;
    }
    Some(Scale {
        numerator,
        denominator,
    })
}
