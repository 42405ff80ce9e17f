//! Boxes as a text writes them.
ghost use Rattle.std.specs.Prelude.{◌≡◌};
ghost use Rattle.cif_grammar.specs.Boxes.{box_of, direction_of};

use crate::blanks::are_blanks;
use crate::number::{behind_separator, integer};
use crate::paths::{Vertex, read_next_vertex};

/// The numbers of a box.
#[derive(Clone, Copy, Debug, PartialEq, Eq)]
pub struct BoxNumbers {
    /// The side along its direction.
    pub length: u32,
    /// The side across its direction.
    pub width: u32,
    /// The centre.
    pub centre: Vertex,
    /// The direction, where one is written; else it is that of the x axis.
    pub direction: Option<Vertex>,
}

/// Reads the box behind a `B`, up to the end of the bytes. Returns `None` where they are none.
#[tactic(auto, unfolding(crate::specs::Boxes::box_of))]
pub fn read_box(bytes: &[u8]) -> Option<BoxNumbers>
    ensures { result ≡ box_of bytes.now }
{
    let (length, rest) = integer(bytes)?;
    let (width, rest) = integer(behind_separator(rest)?)?;
    let (centre, rest) = read_next_vertex(rest)?;
    let direction = read_direction(rest)?;
    Some(BoxNumbers {
        length,
        width,
        centre,
        direction,
    })
}

/// Reads a direction or none, up to the end of the bytes.
#[tactic(auto, unfolding(crate::specs::Boxes::direction_of))]
fn read_direction(bytes: &[u8]) -> Option<Option<Vertex>>
    ensures { result ≡ direction_of bytes.now }
{
    if are_blanks(bytes) {
        return Some(None);
    }
    let (direction, rest) = read_next_vertex(bytes)?;
    if !are_blanks(rest) {
        return None;
    }
    Some(Some(direction))
}
