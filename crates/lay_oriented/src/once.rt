//! Whether rings go round each place at most once.
ghost use Rattle.std.specs.Prelude.{◌≡◌, IfOk, true};
ghost use Rattle.lay_oriented.specs.Once.{WindOnce};

use crate::directed_net::directed_net;
use crate::slant::{Slant, slants_of};
use crate::sweep::are_once;
use lay_point::{NoMemory, Ring};
use std::alloc::Global;

/// Returns whether the rings were found to go round each place once or not at all. Ways that they go both
/// out and back don't count.
pub(crate) fn wind_once(alloc: Global, rings: &[Ring]) -> Result<bool, NoMemory>
    ensures { IfOk result (λ found. found ≡ true → WindOnce rings.now) }
{
    let edges = directed_net(alloc, rings)?;
    let mut slants = slants_of(alloc, edges.as_slice())?;
    slants.sort_unstable_by_key(|slant: &Slant| slant.low.y);
    let found = are_once(alloc, slants.as_slice())?;
    Ok(found)
}
