//! Tests of what no clause says of a desk's calls: that they succeed with ample memory, and that on a desk of
//! two sessions a write is read back.
ghost use Rattle.std.specs.Prelude.{◌≡◌};

use crate::drawn::a_box;
use band_workers::OneBand;
use cif_layout::FromCif;
use lay_items::Snapshot;
use lay_layouts::ItemId;
use lay_point::Point;
use locked_desk::{CloseRefusal, Desk, DeskFault, Seat};
use std::alloc::Global;
use std::marker::Brand;
use std::sync::Wait;
use std::sync::ledger::{Blank, Ledger};
use std::test::*;
use std::thread::Threads;
use txn_commands::Command;
use txn_work::Work;
use undo_rules::BookFault;

/// The box of a layout of one.
const BASE: ItemId = ItemId {
    session: 0,
    txn: 0,
    seq: 1,
};

/// Returns a layout of one box.
fn one_box(alloc: Global) -> Result<Snapshot, Fail> {
    let file = cif_read::read(alloc, b"L M; B 4 2 0 0; E")?;
    Ok(Snapshot::from_cif(alloc, file)?)
}

/// Opens a work of the session and draws a box in it.
fn drawn<L: Ledger, R: Threads + Wait + Sync>(
    rt: &R,
    alloc: Global,
    desk: &Desk<L>,
    seat: &mut Seat<L>,
) -> Result<Work, Fail> {
    let mut work = desk.open(rt, alloc, seat)?;
    work.run(rt, alloc, a_box(5)?, &OneBand)?;
    Ok(work)
}

/// Returns whether the desk closes with these seats and a log of so many calls.
fn closes<L: Ledger>(desk: Desk<L>, seats: Vec<Seat<L>>, calls: usize) -> bool {
    match desk.close(seats) {
        Ok(closed) => closed.book.log().len() == calls,
        Err(_) => false,
    }
}

/// Returns whether what session 1 commits is in its snapshot and in its next work, and the desk closes.
fn reads_back<L: Ledger, R: Threads + Wait + Sync>(
    rt: &R,
    alloc: Global,
    blank: Blank,
) -> Result<bool, Fail>
    requires { (blank.name ≡ L.name) × (blank.parts ≡ L.parts) × (blank.parts ≡ 2) }
{
    let (desk, mut seats) = Desk::<L>::new(alloc, one_box(alloc)?, 2, blank)?;
    let Some(seat) = seats.first_mut() else {
        return Ok(false);
    };
    let work = drawn(rt, alloc, &desk, seat)?;
    if desk.commit(rt, alloc, seat, work).is_err() {
        return Ok(false);
    }
    let id = ItemId {
        session: 1,
        txn: 1,
        seq: 1,
    };
    let shown = desk.snapshot(rt, alloc, seat)?.item(id).is_some();
    let begun = desk.open(rt, alloc, seat)?.item(id).is_some();
    Ok(shown && begun && closes(desk, seats, 3))
}

// Could catch a desk that is always out of memory, that always differs, that has its log full from the start, and a snapshot or a
// work on a desk of two sessions that is that of the base.
#[test]
fn a_write_is_read_back(rt: HostRuntime) -> Result<(), Fail> {
    let read = reads_back::<Brand, HostRuntime>(&rt, rt.alloc(), Blank::new(2))?;
    assert!(rt; read);
    Ok(())
}

/// Returns whether a commit is refused as the log has room for the open alone, with the work handed back.
fn fills<L: Ledger, R: Threads + Wait + Sync>(
    rt: &R,
    alloc: Global,
    blank: Blank,
) -> Result<bool, Fail>
    requires { (blank.name ≡ L.name) × (blank.parts ≡ L.parts) × (blank.parts ≡ 1) }
{
    let (desk, mut seats) = Desk::<L>::with_log(alloc, one_box(alloc)?, 1, 1, blank)?;
    let Some(seat) = seats.first_mut() else {
        return Ok(false);
    };
    let work = drawn(rt, alloc, &desk, seat)?;
    let full = match desk.commit(rt, alloc, seat, work) {
        Ok(_) => false,
        Err(refused) => {
            refused.fault == DeskFault::Book(BookFault::LogFull) && refused.work.is_some()
        }
    };
    Ok(full && closes(desk, seats, 1))
}

// Could catch a limit that is another than the desk was given.
#[test]
fn a_log_of_one_call_is_full_at_the_commit(rt: HostRuntime) -> Result<(), Fail> {
    let full = fills::<Brand, HostRuntime>(&rt, rt.alloc(), Blank::new(1))?;
    assert!(rt; full);
    Ok(())
}

/// Returns the session that is missed where a desk of two is closed with the seat of session 1 alone.
fn missed<L: Ledger>(alloc: Global, blank: Blank) -> Result<Option<u8>, Fail>
    requires { (blank.name ≡ L.name) × (blank.parts ≡ L.parts) × (blank.parts ≡ 2) }
{
    let (desk, mut seats) = Desk::<L>::new(alloc, one_box(alloc)?, 2, blank)?;
    let Some(second) = seats.pop() else {
        return Ok(None);
    };
    match desk.close(seats) {
        Err(
            CloseRefusal::MissingSeat {
                session,
                desk,
                seats,
            },
        ) => {
            let mut seats = seats;
            seats.push(second)?;
            Ok(closes(desk, seats, 0).then_some(session))
        }
        _ => Ok(None),
    }
}

// Could catch a desk that isn't closed with all its seats, also after it was refused.
#[test]
fn a_seat_is_missed_and_brought(rt: HostRuntime) -> Result<(), Fail> {
    let session = missed::<Brand>(rt.alloc(), Blank::new(2))?;
    assert!(rt; session == Some(2));
    Ok(())
}

/// Draws a box in a transaction of the session and commits it, and returns whether it was accepted.
fn commits<L: Ledger, R: Threads + Wait + Sync>(
    rt: &R,
    alloc: Global,
    desk: &Desk<L>,
    seat: &mut Seat<L>,
) -> Result<bool, Fail> {
    let mut work = drawn(rt, alloc, desk, seat)?;
    work.run(rt, alloc, Command::Delete(BASE), &OneBand)?;
    Ok(desk.commit(rt, alloc, seat, work).is_ok())
}

/// Returns whether the points that a snapshot of session 2 lends are the box's also after session 1 took the
/// box out.
fn keeps_points<L: Ledger, R: Threads + Wait + Sync>(
    rt: &R,
    alloc: Global,
    blank: Blank,
) -> Result<bool, Fail>
    requires { (blank.name ≡ L.name) × (blank.parts ≡ L.parts) × (blank.parts ≡ 2) }
{
    let (desk, mut seats) = Desk::<L>::new(alloc, one_box(alloc)?, 2, blank)?;
    let Some(reader) = seats.pop() else {
        return Ok(false);
    };
    let Some(mut writer) = seats.pop() else {
        return Ok(false);
    };
    let old = desk.snapshot(rt, alloc, &reader)?;
    let points = old.points(BASE, 0).ok_or("no points")?;
    let gone = commits(rt, alloc, &desk, &mut writer)?
        && desk.snapshot(rt, alloc, &reader)?.item(BASE).is_none();
    Ok(gone && points.len() == 4 && points.first() == Some(&Point { x: -4, y: -2 }))
}

// Could catch points that a later commit frees or writes over, which the built program alone could show, and a snapshot of a
// desk that is none of the layout now.
#[test]
fn a_slice_keeps_its_points(rt: HostRuntime) -> Result<(), Fail> {
    let kept = keeps_points::<Brand, HostRuntime>(&rt, rt.alloc(), Blank::new(2))?;
    assert!(rt; kept);
    Ok(())
}
