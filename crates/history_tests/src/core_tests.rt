//! Tests of what no clause says: that steps succeed with ample memory, and that definitions mean what they
//! should.

use crate::drawn::{a_box, empty};
use band_workers::OneBand;
use session_core::Machine;
use session_steps::{Reply, Step, StepFault};
use std::alloc::Global;
use std::test::*;
use std::thread::Threads;
use txn_commands::{Done, TxnId};
use undo_rules::BookFault;

/// Returns whether the book refused the step as its log was full.
fn is_log_full(reply: &Reply) -> bool {
    *reply == Reply::Fault(StepFault::Book(BookFault::LogFull))
}

// Could catch sessions that are counted from 0, and a step of a session that isn't there.
#[test]
fn two_sessions_have_no_third(rt: HostRuntime) -> Result<(), Fail> {
    let alloc = rt.alloc();
    let mut machine = Machine::new(alloc, empty(alloc)?, 2)?;
    assert!(rt;
        machine.step(&rt, alloc, 3, Step::Open, &OneBand) == Reply::Fault(StepFault::NoSession)
    );
    assert!(rt; machine.step(&rt, alloc, 2, Step::Open, &OneBand) == Reply::Opened(1));
    Ok(())
}

// Could catch a full log that ends the transaction that it doesn't let in, or lets one more call in.
#[test]
fn a_full_log_leaves_the_transaction_open(rt: HostRuntime) -> Result<(), Fail> {
    let alloc = rt.alloc();
    let mut machine = Machine::with_log(alloc, empty(alloc)?, 1, 1)?;
    assert!(rt; machine.step(&rt, alloc, 1, Step::Open, &OneBand) == Reply::Opened(1));
    assert!(rt; is_log_full(&machine.step(&rt, alloc, 1, Step::Commit, &OneBand)));
    assert!(rt; machine.step(&rt, alloc, 1, Step::Cancel, &OneBand) == Reply::Cancelled);
    Ok(())
}

/// Opens a transaction of the session, and draws a box in it.
fn begin(
    rt: &(impl Threads + Sync),
    alloc: Global,
    machine: &mut Machine,
    session: u8,
) -> Result<bool, Fail> {
    let opened = machine.step(rt, alloc, session, Step::Open, &OneBand);
    let drawn = machine.step(
        rt,
        alloc,
        session,
        Step::Do(a_box(i32::from(session))?),
        &OneBand,
    );
    Ok(opened == Reply::Opened(1) && matches!(drawn, Reply::Done(Done::Made(_))))
}

// Could catch a limit that is another than the machine was given, sessions that stand in each other's way
// though their transactions touch nothing of each other, and items that are lent in the order of commits.
#[test]
fn sixty_four_sessions_commit_into_a_log_of_128(rt: HostRuntime) -> Result<(), Fail> {
    let alloc = rt.alloc();
    let mut machine = Machine::with_log(alloc, empty(alloc)?, 64, 128)?;
    for session in 1..65 {
        assert!(rt; begin(&rt, alloc, &mut machine, session)?);
    }
    for before in 0..64 {
        let txn = TxnId {
            session: 64 - before,
            txn: 1,
        };
        assert!(rt;
            machine.step(&rt, alloc, 64 - before, Step::Commit, &OneBand) == Reply::Committed(txn)
        );
    }
    let txn = TxnId { session: 1, txn: 1 };
    assert!(rt; is_log_full(&machine.step(&rt, alloc, 1, Step::Undo(txn), &OneBand)));
    assert_eq!(rt; machine.book().log().len(), 128);
    let mut session = 0;
    for (id, _) in machine.book().snapshot().version().iter() {
        assert!(rt; id.session > session);
        session = id.session;
    }
    assert_eq!(rt; session, 64);
    Ok(())
}
