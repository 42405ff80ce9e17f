//! Tests of what no clause says: that calls succeed with ample memory, and that definitions mean what they
//! should.

use crate::drawn::{a_box, empty};
use band_workers::OneBand;
use std::alloc::Global;
use std::test::*;
use std::thread::Threads;
use txn_commands::TxnId;
use txn_work::Work;
use undo_book::{Book, MAX_CALLS};
use undo_rules::BookFault;

/// Returns a book on the layout without items, of which this many calls are logged at most.
fn book_of(alloc: Global, limit: u32) -> Result<Book, Fail> {
    let base = empty(alloc)?;
    if limit == 0 || limit > MAX_CALLS {
        return Ok(Book::new(alloc, base)?);
    }
    Ok(Book::with_log(alloc, base, limit)?)
}

/// Runs a box of this side in the work.
fn draw(rt: &(impl Threads + Sync), alloc: Global, work: &mut Work, side: i32) -> Result<(), Fail> {
    work.run(rt, alloc, a_box(side)?, &OneBand)?;
    Ok(())
}

/// Commits a transaction of session 1 with a box of this side.
fn commit_box(
    rt: &(impl Threads + Sync),
    alloc: Global,
    book: &mut Book,
    side: i32,
) -> Result<TxnId, Fail> {
    let mut work = book.open(alloc, 1)?;
    draw(rt, alloc, &mut work, side)?;
    match book.commit(alloc, work) {
        Ok(txn) => Ok(txn),
        Err(refusal) => Err(refusal.fault.into()),
    }
}

// Could catch a limit that isn't the book's own, or is met one call late.
#[test]
fn a_log_of_two_calls_is_full_after_a_commit(rt: HostRuntime) -> Result<(), Fail> {
    let alloc = rt.alloc();
    let mut book = book_of(alloc, 2)?;
    let txn = commit_box(&rt, alloc, &mut book, 10)?;
    assert_eq!(rt; book.undo(alloc, 1, txn), Err(BookFault::LogFull));
    assert_eq!(rt; book.log().len(), 2);
    Ok(())
}

// Could catch definitions by which a work of another book is one of this book's own, and a work that is lost.
#[test]
fn a_work_of_another_book_is_handed_back(rt: HostRuntime) -> Result<(), Fail> {
    let alloc = rt.alloc();
    let mut other = book_of(alloc, 0)?;
    let mut work = other.open(alloc, 1)?;
    draw(&rt, alloc, &mut work, 10)?;
    let mut book = book_of(alloc, 0)?;
    match book.commit(alloc, work) {
        Ok(_) => Err("a foreign work is accepted".into()),
        Err(refusal) => {
            assert_eq!(rt; refusal.fault, BookFault::Foreign);
            assert!(rt; refusal.work.is_some());
            Ok(())
        }
    }
}
