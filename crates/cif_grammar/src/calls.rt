//! Calls as a text writes them.
ghost use Rattle.std.specs.Prelude.{◌≡◌, IfOk, option_map};
ghost use Rattle.cif_grammar.specs.Calls.{axis_at, change_at, changes_of};
ghost use Rattle.cif_grammar.specs.Reading.{call_of};
ghost use Rattle.cif_grammar.specs.Commands as commands;
ghost use Rattle.cif_grammar.specs.Views.{Gives};

use crate::bytes::{Class, skip};
use crate::number::integer;
use crate::paths::{Vertex, read_vertex};
use lay_point::{NoMemory, Sequence};
use std::alloc::Global;

/// A change of what a call draws.
#[derive(Clone, Copy, Debug, PartialEq, Eq)]
pub enum Change {
    /// It is moved by these distances.
    Shift(Vertex),
    /// Its x coordinates change their sign.
    MirrorX,
    /// Its y coordinates change their sign.
    MirrorY,
    /// It is turned, so that what went along the x axis goes in this direction.
    Direction(Vertex),
}

/// A call of a symbol.
#[derive(Debug, Drop, PartialEq, Eq)]
pub struct Call {
    /// The symbol's number.
    pub symbol: u32,
    /// The changes, the first that is made first.
    pub changes: Sequence<Change>,
}

/// Reads the call behind a `C`, up to the end of the bytes. Returns `None` where they are none.
///
/// # Errors
///
/// `NoMemory`, if an allocation fails.
#[tactic(auto, unfolding(crate::specs::Reading::call_of))]
pub fn read_call(alloc: Global, bytes: &[u8]) -> Result<Option<Call>, NoMemory>
    ensures { IfOk result (λ call. option_map (λ c. commands.Call c.symbol c.changes) call ≡ call_of bytes.now) }
{
    let Some((symbol, rest)) = integer(bytes) else {
        return Ok(None);
    };
    match read_changes(alloc, rest)? {
        Some(changes) => Ok(Some(Call { symbol, changes })),
        None => Ok(None),
    }
}

/// Reads changes up to the end of the bytes.
fn read_changes(alloc: Global, bytes: &[u8]) -> Result<Option<Sequence<Change>>, NoMemory>
    ensures { IfOk result (λ changes. changes ≡ changes_of bytes.now) }
{
    let mut changes = Vec::new(alloc);
    let mut rest = skip(bytes, Class::Blank);
    while !rest.is_empty() {
        let Some((next, behind)) = read_change(rest) else {
            return Ok(None);
        };
        changes.push(next)?;
        rest = skip(behind, Class::Blank);
    }
    Ok(Some(Sequence::from_vec(changes)))
}

/// Reads a change. Returns it and what stands behind it.
#[tactic(auto, unfolding(crate::specs::Calls::change_at))]
fn read_change(bytes: &[u8]) -> Option<(Change, &[u8])>
    ensures { Gives (λ f. (f.0, f.1.now)) result (change_at bytes.now) }
{
    match bytes {
        [b'T', behind @ ..] => {
            let (point, rest) = read_vertex(behind)?;
            Some((Change::Shift(point), rest))
        }
        [b'M', behind @ ..] => read_axis(skip(behind, Class::Blank)),
        [b'R', behind @ ..] => {
            let (point, rest) = read_vertex(behind)?;
            Some((Change::Direction(point), rest))
        }
        _ => None,
    }
}

/// Reads the axis behind an `M`.
fn read_axis(bytes: &[u8]) -> Option<(Change, &[u8])>
    ensures { Gives (λ f. (f.0, f.1.now)) result (axis_at bytes.now) }
{
    match bytes {
        [b'X', rest @ ..] => Some((Change::MirrorX, rest)),
        [b'Y', rest @ ..] => Some((Change::MirrorY, rest)),
        _ => None,
    }
}
