//! The map as a list of books of pages.
ghost use Rattle.std.specs.Prelude.{◌≡◌, ◌<◌, ◌*◌, ◌≤◌, [], IfOk, length, option_copied, take};
ghost use Rattle.std.specs.Cmp.Lexicographic.{pointwise};
ghost use Rattle.std.specs.FinMap.{find};
ghost use Rattle.std.specs.List.Sorted.{IsStrictlySortedBy};
ghost use Rattle.std.specs.Map.{keys_of};
ghost use Rattle.lay_pages.specs.Shared.{AreBooks, AreCountedBooks, entries_in, pages_in};
ghost use Rattle.lay_pages.specs.Written.{
  after_write,
  are_equal,
  first_entry,
  from_key,
  higher,
  last_entry,
  lent_entry,
  lower,
  written_all,
};

use crate::beside::below;
use crate::entries::{Entries, are_same};
use crate::keys::{PageKey, PageValue};
use crate::look::{count_pages, find};
use crate::page;
use crate::page::Book;
use crate::place::entries_at;
use crate::update::{books_with, first_books, group_of, is_after, len_with};
use std::alloc::{AllocError, Global};
use std::marker::Model;
use std::sync::Arc;

/// Entries in order of their keys, in pages of 1 to 64 entries and books of 1 to 64 pages, which maps
/// share. Contracts see the list of the entries.
#[derive(Drop)]
pub struct Pages<K: PageKey, V: PageValue> {
    /// The books. Maps share the list of them too, so the same entries once more take none.
    books: Option<Arc<Vec<Book<K, V>>>>,
    len: usize,
}

impl<K: PageKey, V: PageValue> Model for Pages<K, V> {
    ghost use Rattle.std.specs.Prelude.{List};
    ghost use Rattle.lay_pages.specs.Shared.{AreCountedBooks, entries_in};
    ghost use Rattle.lay_pages.specs.Tops.{books_in};

    ghost Value = { List (K × V) };

    ghost view = { λ p. entries_in (books_in p.books) };

    ghost invariant = { λ p. AreCountedBooks K.cmp (books_in p.books) p.len };
}

impl<K: PageKey, V: PageValue> Pages<K, V> {
    /// Returns no entries.
    pub fn new(_alloc: Global) -> Pages<K, V>
        ensures { result ≡ [] }
    {
        Pages {
            books: None,
            len: 0,
        }
    }

    /// Returns the map of the entries of the books.
    pub(crate) fn of(
        alloc: Global,
        books: Vec<Book<K, V>>,
        len: usize,
    ) -> Result<Pages<K, V>, AllocError>
        requires { AreCountedBooks K.cmp (pages_in books.items) len }
        ensures { IfOk result (λ pages. pages ≡ entries_in (pages_in books.items)) }
    {
        let books = Some(Arc::new(alloc, books)?);
        Ok(Pages { books, len })
    }

    /// Lends the books.
    fn books(&self) -> &[Book<K, V>]
        ensures entries { entries_in (pages_in result.now) ≡ self.now }
        ensures books { AreBooks K.cmp (pages_in result.now) }
    {
        match &self.books {
            Some(books) => books,
            None => &[],
        }
    }

    /// Lends the entries, in order of their keys.
    pub fn iter(&self) -> Entries<'_, K, V>
        ensures entries { result ≡ self.now }
        ensures sorted { IsStrictlySortedBy K.cmp (keys_of self.now) }
    {
        Entries::all(self.books())
    }

    /// Lends the entries from a key on, in order of their keys.
    ///
    /// # Cost
    ///
    /// Comparisons in proportion to the logarithm of the number of entries, before the first is lent.
    pub fn from(&self, key: K) -> Entries<'_, K, V>
        ensures entries { result ≡ from_key K.cmp key self.now }
        ensures sorted { IsStrictlySortedBy K.cmp (keys_of result) }
    {
        Entries::from(self.books(), key)
    }

    /// Returns whether others are the same values under the same keys.
    ///
    /// # Cost
    ///
    /// Compares entry by entry up to the first that differs.
    pub fn is_same(&self, other: &Pages<K, V>) -> bool
    where
        V: PartialEq,
        ensures { result ≡ pointwise (are_equal K.eq V.eq) self.now other.now }
    {
        are_same(self.iter(), other.iter())
    }

    /// Returns the value under the key.
    ///
    /// # Cost
    ///
    /// Comparisons in proportion to the logarithm of the number of entries.
    pub fn get(&self, key: K) -> Option<&V>
        ensures { option_copied result ≡ find K.cmp key self.now }
    {
        find(self.books(), key)
    }

    /// Lends the entry before a key, with its key.
    ///
    /// # Cost
    ///
    /// That of `get`.
    pub fn below(&self, key: K) -> Option<(K, &V)>
        ensures { lent_entry result ≡ last_entry (lower K.cmp key self.now) }
    {
        below(self.books(), key)
    }

    /// Lends the entry after a key, with its key.
    ///
    /// # Cost
    ///
    /// That of `get`.
    pub fn above(&self, key: K) -> Option<(K, &V)>
        ensures { lent_entry result ≡ first_entry (higher K.cmp key self.now) }
    {
        let mut entries = self.from(key);
        let (first, value) = entries.next()?;
        if first == key {
            return entries.next();
        }
        Some((first, value))
    }

    /// Returns the number of entries.
    pub fn len(&self) -> usize
        ensures count { result ≡ length self.now }
        ensures sorted { IsStrictlySortedBy K.cmp (keys_of self.now) }
    {
        self.len
    }

    /// Returns the number of pages.
    ///
    /// # Cost
    ///
    /// Goes over the books, of which there are few where most pages and books are full.
    pub fn pages(&self) -> usize
        ensures few { result ≤ length self.now }
        ensures full { length self.now ≤ 64 * result }
    {
        count_pages(self.books(), self.len)
    }

    /// Returns the entries after a write: under the key is this value from then on, or none.
    ///
    /// # Errors
    ///
    /// `AllocError`, if an allocation fails.
    ///
    /// # Cost
    ///
    /// Makes a page, a book and the list of the books anew, of up to 64 entries, 64 pages and a book for
    /// some 2,000 to 4,096 entries. The others are shared.
    pub fn with(&self, alloc: Global, key: K, value: Option<V>) -> Result<Pages<K, V>, AllocError>
        ensures entries { IfOk result (λ new. new ≡ after_write K.cmp key value self.now) }
        ensures sorted { IfOk result (λ new. IsStrictlySortedBy K.cmp (keys_of new)) }
    {
        let mut write = Vec::with_capacity(alloc, 1)?;
        write.push((key, value))?;
        let (new, _) = self.with_group(alloc, &write)?;
        Ok(new)
    }

    /// Returns the entries after these writes, whose keys rise.
    ///
    /// # Errors
    ///
    /// `AllocError`, if an allocation fails.
    ///
    /// # Cost
    ///
    /// For each 64 writes or fewer that fall into the same page, that of `with` once, and for each write that of
    /// `get`.
    pub fn with_rising(
        &self,
        alloc: Global,
        writes: &[(K, Option<V>)],
    ) -> Result<Pages<K, V>, AllocError>
        requires { IsStrictlySortedBy K.cmp (keys_of writes.now) }
        ensures entries { IfOk result (λ new. new ≡ written_all K.cmp self.now writes.now) }
        ensures sorted { IfOk result (λ new. IsStrictlySortedBy K.cmp (keys_of new)) }
    {
        let mut new = self.share(alloc)?;
        let mut rest = writes;
        while !rest.is_empty() {
            let (next, count) = new.with_group(alloc, rest)?;
            new = next;
            rest = &rest[count..];
        }
        Ok(new)
    }

    /// Returns the entries after the first of the writes and those after it that fall into the same page, up to 64,
    /// and how many writes these are.
    fn with_group(
        &self,
        alloc: Global,
        writes: &[(K, Option<V>)],
    ) -> Result<(Pages<K, V>, usize), AllocError>
        requires some { 0 < length writes.now }
        requires rising { IsStrictlySortedBy K.cmp (keys_of writes.now) }
        ensures entries { IfOk result (λ new. new.0 ≡ written_all K.cmp self.now (take new.1 writes.now)) }
        ensures some { IfOk result (λ new. 0 < new.1) }
        ensures within { IfOk result (λ new. new.1 ≤ length writes.now) }
    {
        let books = self.books();
        if books.is_empty() {
            let count = writes.len().min(64);
            return Ok((Pages::first(alloc, &writes[..count])?, count));
        }
        let (place, count) = group_of(books, writes);
        let page = entries_at(books, place);
        let entries = page::with_all(alloc, page, &writes[..count])?;
        let len = len_with(self.len, page.len(), entries.len())?;
        let books = books_with(alloc, books, place, entries, is_after(page, writes[0].0))?;
        Ok((Pages::of(alloc, books, len)?, count))
    }

    /// Returns the entries that up to 64 writes, whose keys rise, leave of none.
    fn first(alloc: Global, writes: &[(K, Option<V>)]) -> Result<Pages<K, V>, AllocError>
        requires rising { IsStrictlySortedBy K.cmp (keys_of writes.now) }
        requires few { length writes.now ≤ 64 }
        ensures { IfOk result (λ new. new ≡ written_all K.cmp [] writes.now) }
    {
        let none = Vec::new(alloc);
        let entries = page::with_all(alloc, &none, writes)?;
        let len = entries.len();
        let books = first_books(alloc, entries)?;
        Pages::of(alloc, books, len)
    }

    /// Returns the entries after these writes, the first of them first.
    ///
    /// # Errors
    ///
    /// `AllocError`, if an allocation fails.
    ///
    /// # Cost
    ///
    /// That of each write.
    pub fn with_all(
        &self,
        alloc: Global,
        writes: &[(K, Option<V>)],
    ) -> Result<Pages<K, V>, AllocError>
        ensures entries { IfOk result (λ new. new ≡ written_all K.cmp self.now writes.now) }
        ensures sorted { IfOk result (λ new. IsStrictlySortedBy K.cmp (keys_of new)) }
    {
        let mut new = self.share(alloc)?;
        for (key, value) in writes {
            let kept = copied(value)?;
            new = new.with(alloc, *key, kept)?;
        }
        Ok(new)
    }

    /// Returns the same entries once more. The allocator is not used.
    ///
    /// # Errors
    ///
    /// `AllocError`, if an allocation fails.
    pub fn share(&self, _alloc: Global) -> Result<Pages<K, V>, AllocError>
        ensures entries { IfOk result (λ new. new ≡ self.now) }
        ensures sorted { IfOk result (λ new. IsStrictlySortedBy K.cmp (keys_of new)) }
    {
        let books = match &self.books {
            Some(books) => Some(Arc::try_clone(books)?),
            None => None,
        };
        Ok(Pages {
            books,
            len: self.len,
        })
    }
}

/// Returns a copy of the value, where there is one.
fn copied<V: PageValue>(value: &Option<V>) -> Result<Option<V>, AllocError>
    ensures { IfOk result (λ copy. copy ≡ value.now) }
{
    match value {
        Some(value) => Ok(Some(value.clone()?)),
        None => Ok(None),
    }
}
