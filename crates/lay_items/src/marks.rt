//! Marks of the items that begin runs.
//!
//! A mark is a group and an id, not an index, so a write moves no other mark. One that no longer
//! begins a run may stay: to remove it would take one more search and one more write.
ghost use Rattle.std.specs.Prelude.{◌≡◌, IfOk, None, Some, option_copied};
ghost use Rattle.std.specs.FinMap.{find};
ghost use Rattle.lay_pages.specs.Written.{
  after_write,
  first_entry,
  higher,
  last_entry,
  lent_entry,
  lower,
};
ghost use Rattle.lay_items.specs.Runs.{
  entry_under,
  group_of,
  mark_cmp,
  with_mark_of,
  marks_after,
  without_mark_of,
};
ghost use Rattle.lay_layouts.specs.Ids.{id_cmp};

use crate::group::{By, Group, begins};
use lay_layouts::{Item, ItemId};
use lay_pages::{PageKey, Pages};
use lay_point::NoMemory;
use std::alloc::Global;

/// Marks an item that begins a run of its group. Marks are ordered by group, then by id.
#[derive(Clone, Copy, Debug, PartialEq, Eq, PartialOrd, Ord)]
pub struct Mark {
    pub(crate) group: Group,
    pub(crate) id: ItemId,
}

impl PageKey for Mark {
    ghost use Rattle.lay_items.specs.Runs.{marks_exact};

    ghost exact = { marks_exact };
}

/// The marks of all runs.
pub type Marks = Pages<Mark, ()>;

/// Where a write falls: the item before it, the one that it takes the place of, and the one after it.
#[derive(Clone, Copy)]
pub(crate) struct Site<'a> {
    before: Option<(ItemId, &'a Item)>,
    old: Option<&'a Item>,
    after: Option<(ItemId, &'a Item)>,
}

/// Returns where a write under this id falls, of writes whose ids rise: behind what those before it left, which is
/// as it is after all of them, and before what none of those has written.
///
/// # Cost
///
/// Three searches by halving.
pub(crate) fn site_of<'a>(
    old: &'a Pages<ItemId, Item>,
    new: &'a Pages<ItemId, Item>,
    id: ItemId,
) -> Site<'a>
    ensures before { lent_entry result.before ≡ last_entry (lower id_cmp id new.now) }
    ensures old { option_copied result.old ≡ find id_cmp id old.now }
    ensures after { lent_entry result.after ≡ first_entry (higher id_cmp id old.now) }
{
    Site {
        before: new.below(id),
        old: old.get(id),
        after: old.above(id),
    }
}

/// Returns the marks after a write under this id. Where no run begins or ends by it, all pages are shared.
///
/// # Cost
///
/// A few comparisons; where runs begin or end, that of `Pages::with` once to three times.
pub(crate) fn written(
    alloc: Global,
    marks: &Marks,
    by: By,
    site: &Site<'_>,
    id: ItemId,
    item: Option<&Item>,
) -> Result<Marks, NoMemory>
    ensures { IfOk result (λ new. new ≡ marks_after by (record {
      before = lent_entry site.now.before;
      id = id;
      old = option_copied site.now.old;
      new = option_copied item.entry;
      after = lent_entry site.now.after;
    }) marks.now) }
{
    let kept = without_mark_of(alloc, marks, by, id, site.old)?;
    let before = group_of(by, site.before);
    let new = entry_under(id, item);
    let begun = with_mark_of(alloc, kept, by, before, new)?;
    with_mark_of(alloc, begun, by, group_of(by, new).or(before), site.after)
}

/// Returns the group of an item, where there is one.
fn group_of(by: By, entry: Option<(ItemId, &Item)>) -> Option<Group>
    ensures { result ≡ group_of by (lent_entry entry.entry) }
{
    let (_, item) = entry?;
    Some(by.group(item))
}

/// Returns the item under its id, where there is one.
fn entry_under(id: ItemId, item: Option<&Item>) -> Option<(ItemId, &Item)>
    ensures { lent_entry result ≡ entry_under id (option_copied item.entry) }
{
    Some((id, item?))
}

/// Returns the marks without that of an item that goes.
fn without_mark_of(
    alloc: Global,
    marks: &Marks,
    by: By,
    id: ItemId,
    item: Option<&Item>,
) -> Result<Marks, NoMemory>
    ensures { IfOk result (λ new. new ≡ without_mark_of by id (option_copied item.entry) marks.now) }
{
    let new = match item {
        Some(item) => without(
            alloc,
            marks,
            Mark {
                group: by.group(item),
                id,
            },
        )?,
        None => marks.share(alloc)?,
    };
    Ok(new)
}

/// Returns the marks without this one.
fn without(alloc: Global, marks: &Marks, mark: Mark) -> Result<Marks, NoMemory>
    ensures { IfOk result (λ new. new ≡ after_write mark_cmp mark None marks.now) }
{
    let new = if marks.get(mark).is_some() {
        marks.with(alloc, mark, None)?
    } else {
        marks.share(alloc)?
    };
    Ok(new)
}

/// Returns the marks with that of an item behind one of this group, where it begins a run.
fn with_mark_of(
    alloc: Global,
    marks: Marks,
    by: By,
    before: Option<Group>,
    entry: Option<(ItemId, &Item)>,
) -> Result<Marks, NoMemory>
    ensures { IfOk result (λ new. new ≡ with_mark_of by before (lent_entry entry.entry) marks) }
{
    let Some((id, item)) = entry else {
        return Ok(marks);
    };
    let group = by.group(item);
    if begins(before, group) {
        return with(alloc, marks, Mark { group, id });
    }
    Ok(marks)
}

/// Returns the marks with this one.
fn with(alloc: Global, marks: Marks, mark: Mark) -> Result<Marks, NoMemory>
    ensures { IfOk result (λ new. new ≡ after_write mark_cmp mark (Some tt) marks) }
{
    if marks.get(mark).is_some() {
        return Ok(marks);
    }
    let new = marks.with(alloc, mark, Some(()))?;
    Ok(new)
}
