//! Places that one of two lists has alone.
ghost use Rattle.std.specs.Prelude.{◌≡◌};
ghost use Rattle.undo_index.specs.First.{IsFirst, first_of, has_place, is_apart};

use crate::least::lesser;
use crate::places::Places;

/// Returns the least place that one of the two has and the other hasn't.
///
/// # Cost
///
/// As many steps as the two have places in common before that one.
pub fn first_apart(one: &Places, other: &Places) -> Option<usize>
    ensures { IsFirst (λ p. is_apart (has_place one.now p) (has_place other.now p)) 0 result }
{
    let mut left = other.as_slice();
    for place in one.as_slice() {
        match left.split_first() {
            Some((next, behind)) if *next == *place => left = behind,
            _ => return lesser(Some(*place), first_of(left)),
        }
    }
    first_of(left)
}

/// Returns the first one of these places, if there is one.
fn first_of(places: &[usize]) -> Option<usize>
    ensures { result ≡ first_of places.now }
{
    Some(*places.first()?)
}
