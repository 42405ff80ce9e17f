//! The lesser one of two places.
ghost use Rattle.std.specs.Prelude.{◌≡◌};
ghost use Rattle.undo_index.specs.First.{lesser};

/// Returns the lesser one of two places, of which either may be missing.
pub fn lesser(one: Option<usize>, other: Option<usize>) -> Option<usize>
    ensures { result ≡ lesser one other }
{
    match (one, other) {
        (None, _) => other,
        (_, None) => one,
        (Some(a), Some(b)) => { if b < a { Some(b) } else { Some(a) } }
    }
}
