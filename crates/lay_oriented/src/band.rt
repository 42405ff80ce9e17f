//! Bands of heights in which no slant begins or ends.
ghost use Rattle.std.specs.Prelude.{◌≡◌, true, int_le, ◌&&◌};
ghost use Rattle.lay_oriented.specs.Slants.{are_by_height, begin_from, leads, take_turns};

use crate::slant::Slant;

/// Returns whether the slants, from right to left, span the heights from `low` to `high`, none of them
/// left of the next, and go upward and downward by turns, the first one upward.
pub(crate) fn take_turns(slants: &[Slant], low: i32, high: i32) -> bool
    ensures { result ≡ take_turns low high true slants.now }
{
    let mut up = true;
    let mut left = slants;
    while let Some((slant, behind)) = left.split_first() {
        if !slant.spans(low, high) || slant.up != up || !leads(*slant, behind) {
            return false;
        }
        up = !up;
        left = behind;
    }
    true
}

/// Returns whether the slant isn't left of the first of these, if there is one.
fn leads(slant: Slant, behind: &[Slant]) -> bool
    ensures { result ≡ leads slant behind.now }
{
    match behind.first() {
        None => true,
        Some(next) => slant.is_not_left(*next),
    }
}

/// Returns whether the slants are in order of the heights at which they begin.
pub(crate) fn are_by_height(slants: &[Slant]) -> bool
    ensures { result ≡ are_by_height slants.now }
{
    let mut left = slants;
    while let Some((slant, behind)) = left.split_first() {
        if !begin_from(behind, slant.low.y) {
            return false;
        }
        left = behind;
    }
    true
}

/// Returns whether the first of the slants, if there is one, begins at this height or above it.
pub(crate) fn begin_from(slants: &[Slant], height: i32) -> bool
    ensures { result ≡ begin_from height slants.now }
{
    match slants.first() {
        None => true,
        Some(slant) => height <= slant.low.y,
    }
}
