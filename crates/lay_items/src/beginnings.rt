//! The marks of items that come one after another.
ghost use Rattle.std.specs.Prelude.{◌≡◌, ◌++◌, [], ◌∷◌, IfOk, List, None, OnOk, map};
ghost use Rattle.std.specs.List.Sorted.{IsStrictlySortedBy};
ghost use Rattle.std.specs.Map.{keys_of};
ghost use Rattle.lay_items.specs.declared.group.By.{By};
ghost use Rattle.lay_items.specs.Runs.{AreRuns, HeldItem, beginnings, mark_cmp, with_none};
ghost use Rattle.lay_layouts.specs.Ids.{id_cmp};

use crate::group::{By, Group, begins};
use crate::marks::{Mark, Marks};
use lay_layouts::{Item, ItemId};
use lay_pages::PagesBuilder;
use lay_point::{NoMemory, ShrinkingIntoIter};
use std::alloc::Global;

/// Takes items in order of their ids, and keeps the marks of those that begin runs.
#[derive(Drop)]
pub(crate) struct Beginnings {
    /// The group of the last item.
    before: Option<Group>,
    marks: Vec<Mark>,
}

impl Beginnings {
    /// Returns no marks.
    pub(crate) fn new(alloc: Global) -> Beginnings
        ensures before { result.before ≡ None }
        ensures marks { result.marks.items ≡ [] }
    {
        Beginnings {
            before: None,
            marks: Vec::new(alloc),
        }
    }

    /// Takes an item behind those before. With the marks of any that are left they are the same marks.
    // Inlined, so that what the items are grouped by is known there.
    #[inline(always)]
    pub(crate) fn take(&mut self, by: By, id: ItemId, item: &Item) -> Result<(), NoMemory>
        ensures { OnOk result ((rest : List HeldItem) → self.new.marks.items ++ beginnings by self.new.before rest
            ≡ self.old.marks.items ++ beginnings by self.old.before ((id, item.now) ∷ rest)) }
    {
        let group = by.group(item);
        if begins(self.before, group) {
            self.marks.push(Mark { group, id })?;
            self.before = Some(group);
        }
        Ok(())
    }

    /// Returns the marks in order: those of the runs of the items.
    ///
    /// # Cost
    ///
    /// A sort of the marks.
    pub(crate) fn end(self, alloc: Global) -> Result<Marks, NoMemory>
        ensures { IfOk result (λ new. (by : By) (es : List HeldItem) → IsStrictlySortedBy id_cmp (keys_of es)
            → self.marks.items ≡ beginnings by None es → AreRuns by es new) }
    {
        let Beginnings { mut marks, .. } = self;
        marks.sort_unstable();
        marks.dedup();
        let marks = paged(alloc, marks)?;
        Ok(marks)
    }
}

/// Returns the pages of marks in order.
fn paged(alloc: Global, marks: Vec<Mark>) -> Result<Marks, NoMemory>
    requires { IsStrictlySortedBy mark_cmp marks.items }
    ensures { IfOk result (λ pages. pages ≡ map with_none marks.items) }
{
    let mut pages = PagesBuilder::new(alloc);
    for mark in ShrinkingIntoIter::of(marks) {
        pages.push(alloc, mark, ())?;
    }
    let pages = pages.build(alloc)?;
    Ok(pages)
}
