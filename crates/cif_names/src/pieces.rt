//! The commands of a text, one at a time.
ghost use Rattle.std.specs.Prelude.{◌≡◌, MatchOption};
ghost use Rattle.cif_names.specs.Pieces.{HasNoCommand, IsFirstPiece};

use cif_grammar::{Class, command_len, skip};
use cif_read::begins_with_end;

/// Returns the command at the start of a rest of a text, without its semicolon, and what stands behind that and gaps.
/// `None` where the text ends or breaks off.
pub(crate) fn split_piece(rest: &[u8]) -> Option<(&[u8], &[u8])>
    ensures { MatchOption result (HasNoCommand rest.now) (λ p. IsFirstPiece rest.now p.0.now p.1.now) }
{
    if begins_with_end(rest) {
        return None;
    }
    let len = command_len(rest)?;
    Some((&rest[..len], skip(&rest[len + 1..], Class::Gap)))
}
