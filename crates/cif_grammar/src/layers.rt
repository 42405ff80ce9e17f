//! Layers as a text writes them.
ghost use Rattle.cif_grammar.specs.Layers.{layer_of};
ghost use Rattle.cif_grammar.specs.Views.{Gives};

use crate::blanks::are_blanks;
use crate::bytes::{Class, run_len, skip};

/// Reads the name behind an `L`, of any length, up to the end of the bytes. Returns `None` where they are
/// none.
#[tactic(auto, unfolding(crate::specs::Layers::layer_of))]
pub fn read_layer(bytes: &[u8]) -> Option<&[u8]>
    ensures { Gives (λ name. name.now) result (layer_of bytes.now) }
{
    let rest = skip(bytes, Class::Blank);
    let (name, behind) = rest.split_at(run_len(rest, Class::Name));
    if name.is_empty() || !are_blanks(behind) {
        return None;
    }
    Some(name)
}
