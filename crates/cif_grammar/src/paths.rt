//! Paths as a text writes them.
ghost use Rattle.std.specs.Prelude.{◌≡◌, ◌<◌, IfOk, IfSome, length};
ghost use Rattle.cif_grammar.specs.Paths.{next_vertex_at, path_of, vertex_at};
ghost use Rattle.cif_grammar.specs.Views.{Gives};

use crate::blanks::are_blanks;
use crate::number::{Number, behind_separator, signed};
use lay_point::{NoMemory, Sequence};
use std::alloc::Global;

/// A point as a text writes it: two numbers.
#[derive(Clone, Copy, Debug, PartialEq, Eq)]
pub struct Vertex {
    /// The first number.
    pub x: Number,
    /// The second number.
    pub y: Number,
}

/// Reads the path behind a `P`, up to the end of the bytes. Returns `None` where they are none.
///
/// # Errors
///
/// `NoMemory`, if an allocation fails.
pub fn read_path(alloc: Global, bytes: &[u8]) -> Result<Option<Sequence<Vertex>>, NoMemory>
    ensures { IfOk result (λ vertices. vertices ≡ path_of bytes.now) }
{
    let mut vertices = Vec::new(alloc);
    let Some((first, mut rest)) = read_vertex(bytes) else {
        return Ok(None);
    };
    vertices.push(first)?;
    while !are_blanks(rest) {
        let Some((next, behind)) = read_next_vertex(rest) else {
            return Ok(None);
        };
        vertices.push(next)?;
        rest = behind;
    }
    Ok(Some(Sequence::from_vec(vertices)))
}

/// Reads a point. Returns it and what stands behind it.
#[tactic(auto, unfolding(crate::specs::Paths::vertex_at))]
pub(crate) fn read_vertex(bytes: &[u8]) -> Option<(Vertex, &[u8])>
    ensures { Gives (λ f. (f.0, f.1.now)) result (vertex_at bytes.now) }
{
    let (x, rest) = signed(bytes)?;
    let (y, rest) = signed(behind_separator(rest)?)?;
    Some((Vertex { x, y }, rest))
}

/// Reads a separator and a point. Returns the point and what stands behind it.
#[tactic(auto, unfolding(crate::specs::Paths::next_vertex_at))]
pub(crate) fn read_next_vertex(bytes: &[u8]) -> Option<(Vertex, &[u8])>
    ensures { Gives (λ f. (f.0, f.1.now)) result (next_vertex_at bytes.now) }
{
    read_vertex(behind_separator(bytes)?)
}
