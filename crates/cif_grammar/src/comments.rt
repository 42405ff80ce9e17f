//! Comments as a text writes them.
ghost use Rattle.std.specs.Prelude.{◌≡◌};
ghost use Rattle.cif_grammar.specs.Comments.{behind_closing, is_comment};
ghost use Rattle.cif_grammar.specs.Views.{Gives};

use crate::blanks::are_blanks;

/// Returns whether the bytes behind a `(` are a comment, up to their end.
pub fn is_comment(bytes: &[u8]) -> bool
    ensures { result ≡ is_comment bytes.now }
{
    match behind_closing(bytes) {
        Some(behind) => are_blanks(behind),
        None => false,
    }
}

/// Returns what stands behind the parenthesis that closes the one before the bytes.
#[tactic(auto, unfolding(crate::specs::Comments::behind_closing))]
fn behind_closing(bytes: &[u8]) -> Option<&[u8]>
    ensures { Gives (λ rest. rest.now) result (behind_closing 0 bytes.now) }
{
    let mut depth: usize = 0;
    let mut rest = bytes;
    while let Some((byte, behind)) = rest.split_first() {
        match (*byte, depth) {
            (b')', 0) => return Some(behind),
            (b')', _) => depth -= 1,
            (b'(', _) => depth += 1,
            _ => {}
        }
        rest = behind;
    }
    None
}
