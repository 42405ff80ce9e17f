//! Pages made of entries that come in order of their keys.
ghost use Rattle.std.specs.Prelude.{◌≡◌, ◌++◌, [], ◌∷◌, IfOk, OnOk};
ghost use Rattle.std.specs.List.{AllByRecursion};
ghost use Rattle.std.specs.List.Sorted.{IsStrictlySortedBy};
ghost use Rattle.std.specs.Map.{keys_of};
ghost use Rattle.lay_pages.specs.Shared.{AreSized, entries_in, items_of, joined, pages_in};

use crate::keys::{PageKey, PageValue};
use crate::lists::Lists;
use crate::page::{Book, Page};
use crate::pages::Pages;
use std::alloc::{AllocError, Global};
use std::marker::Model;

/// Takes entries one after another and makes full pages of them. Contracts see the list of the entries.
#[derive(Drop)]
pub struct PagesBuilder<K: PageKey, V: PageValue> {
    entries: Lists<(K, V)>,
    len: usize,
}

impl<K: PageKey, V: PageValue> Model for PagesBuilder<K, V> {
    ghost use Rattle.std.specs.Prelude.{List};
    ghost use Rattle.lay_pages.specs.Shared.{AreTaken, filled, items_of};

    ghost Value = { List (K × V) };

    ghost view = { λ b. filled (items_of b.entries.lists.items) b.entries.last.items };

    ghost invariant = { λ b. AreTaken (items_of b.entries.lists.items) b.entries.last.items b.len };
}

impl<K: PageKey, V: PageValue> PagesBuilder<K, V> {
    /// Returns no entries.
    pub fn new(alloc: Global) -> PagesBuilder<K, V>
        ensures { result ≡ [] }
    {
        PagesBuilder {
            entries: Lists::new(alloc),
            len: 0,
        }
    }

    /// Puts an entry after them. Where that runs out of memory, entries may be lost.
    ///
    /// # Errors
    ///
    /// `AllocError`, if an allocation fails.
    pub fn push(&mut self, alloc: Global, key: K, value: V) -> Result<(), AllocError>
        ensures { OnOk result (self.new ≡ self.old ++ ((key, value) ∷ [])) }
    {
        let len = self.len.checked_add(1).ok_or(AllocError)?;
        match self.entries.push(alloc, (key, value)) {
            Ok(()) => {
                self.len = len;
                Ok(())
            }
            Err(error) => {
                *self = PagesBuilder::new(alloc);
                Err(error)
            }
        }
    }

    /// Returns the map of the entries, in full pages and books but for the last.
    ///
    /// # Errors
    ///
    /// `AllocError`, if an allocation fails.
    pub fn build(self, alloc: Global) -> Result<Pages<K, V>, AllocError>
        requires { IsStrictlySortedBy K.cmp (keys_of self) }
        ensures { IfOk result (λ pages. pages ≡ self) }
    {
        let PagesBuilder { entries, len } = self;
        let books = books_of(alloc, entries.end(alloc)?)?;
        Pages::of(alloc, books, len)
    }
}

/// Returns the pages in full books but for the last.
fn books_of<K: PageKey, V: PageValue>(
    alloc: Global,
    pages: Vec<Page<K, V>>,
) -> Result<Vec<Book<K, V>>, AllocError>
    requires { AreSized (items_of pages.items) }
    ensures entries { IfOk result (λ books. entries_in (pages_in books.items) ≡ joined (items_of pages.items)) }
    ensures books { IfOk result (λ books. AreSized (pages_in books.items)) }
    ensures pages { IfOk result (λ books. AllByRecursion AreSized (pages_in books.items)) }
{
    let mut lists = Lists::new(alloc);
    for page in pages {
        lists.push(alloc, page)?;
    }
    let books = lists.end(alloc)?;
    Ok(books)
}
