//! Blanks at the end of a command.
ghost use Rattle.std.specs.Prelude.{◌≡◌};
ghost use Rattle.std.specs.List.{list_all};
ghost use Rattle.cif_grammar.specs.Bytes.{is_blank};

use crate::bytes::Class;

/// Returns whether all bytes are blanks.
pub fn are_blanks(bytes: &[u8]) -> bool
    ensures { result ≡ list_all is_blank bytes.now }
{
    bytes.iter().all(|b| Class::Blank.contains(*b))
}
