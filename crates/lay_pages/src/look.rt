//! What is found under a key, and how many pages there are.
ghost use Rattle.std.specs.Prelude.{◌≡◌, ◌≤◌, ◌*◌, length, option_copied};
ghost use Rattle.std.specs.FinMap.{find};
ghost use Rattle.lay_pages.specs.Shared.{AreBooks, entries_in, pages_in};

use crate::keys::{PageKey, PageValue};
use crate::page;
use crate::page::Book;
use crate::place::{entries_at, place_of};

/// Returns the value under the key.
pub(crate) fn find<K: PageKey, V: PageValue>(books: &[Book<K, V>], key: K) -> Option<&V>
    requires { AreBooks K.cmp (pages_in books.now) }
    ensures { option_copied result ≡ find K.cmp key (entries_in (pages_in books.now)) }
{
    if books.is_empty() {
        return None;
    }
    page::find(entries_at(books, place_of(books, key)), key)
}

/// Returns the number of pages of books with this many entries.
pub(crate) fn count_pages<K: PageKey, V: PageValue>(books: &[Book<K, V>], len: usize) -> usize
    requires books { AreBooks K.cmp (pages_in books.now) }
    requires count { len ≡ length (entries_in (pages_in books.now)) }
    ensures few { result ≤ length (entries_in (pages_in books.now)) }
    ensures full { length (entries_in (pages_in books.now)) ≤ 64 * result }
{
    if len == 0 {
        return 0;
    }
    let mut pages = 0;
    for book in books {
        pages += book.len();
    }
    pages
}
