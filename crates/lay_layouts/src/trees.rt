//! Pages compared entry by entry.
ghost use Rattle.std.specs.Prelude.{◌≡◌};
ghost use Rattle.std.specs.FinMap as map;
ghost use Rattle.std.specs.List.Sorted.{IsStrictlySortedBy};
ghost use Rattle.std.specs.Map.{keys_of};
ghost use Rattle.lay_layouts.specs.SameMap.{map_eq};

use lay_pages::{PageKey, PageValue, Pages};

/// Returns whether two lists in order, in pages, have the same values under the same keys.
///
/// # Cost
///
/// That of `Pages::is_same`.
pub fn are_same_pages<K: PageKey, V: PageValue + PartialEq>(
    pages: &Pages<K, V>,
    others: &Pages<K, V>,
) -> bool
    requires one { IsStrictlySortedBy K.cmp (keys_of pages.now) }
    requires other { IsStrictlySortedBy K.cmp (keys_of others.now) }
    ensures { result ≡ map_eq {R = K.cmp} K.eq V.eq
        (map.from_entries pages.now) (map.from_entries others.now) }
{
    pages.is_same(others)
}
