//! The examples of the root files, run. Each could catch an example that isn't true of the calls that it shows.

use crate::drawn::{a_box, empty};
use band_workers::OneBand;
use job_text::order_of;
use lay_point::Sequence;
use locked_desk::run_scripts;
use session_core::Machine;
use session_steps::{Reply, Step};
use std::alloc::Global;
use std::test::*;
use txn_commands::TxnId;
use undo_book::Book;

/// Returns one script, which draws a box in a transaction.
fn one_script(alloc: Global) -> Result<Sequence<Sequence<Step>>, Fail> {
    let mut steps = Vec::new(alloc);
    steps.push(Step::Open)?;
    steps.push(Step::Do(a_box(10)?))?;
    steps.push(Step::Commit)?;
    let mut scripts = Vec::new(alloc);
    scripts.push(Sequence::from_vec(steps))?;
    Ok(Sequence::from_vec(scripts))
}

#[test]
fn a_transaction_is_undone_and_redone(rt: HostRuntime) -> Result<(), Fail> {
    let alloc = rt.alloc();
    let (base, command) = (empty(alloc)?, a_box(10)?);
    let mut book = Book::new(alloc, base)?;
    let mut work = book.open(alloc, 1)?;
    work.run(&rt, alloc, command, &OneBand)?;
    let txn = book.commit(alloc, work).map_err(|refusal| refusal.fault)?;
    book.undo(alloc, 1, txn)?;
    book.redo(alloc, 1, txn)?;
    assert_eq!(rt; book.log().len(), 4);
    Ok(())
}

#[test]
fn a_session_takes_steps(rt: HostRuntime) -> Result<(), Fail> {
    let alloc = rt.alloc();
    let (base, command) = (empty(alloc)?, a_box(10)?);
    let steps = vec![in alloc; (1, Step::Open), (1, Step::Do(command)), (1, Step::Commit)]?;
    let (machine, replies) = Machine::run(&rt, alloc, base, 1, steps, &OneBand)?;
    let layout = machine.book().snapshot();
    let txn = TxnId { session: 1, txn: 1 };
    assert!(rt; replies.last() == Some(&Reply::Committed(txn)));
    for (id, _) in layout.version().iter() {
        assert_eq!(rt; id.session, 1);
    }
    Ok(())
}

#[test]
fn a_script_runs_in_a_thread(rt: HostRuntime) -> Result<(), Fail> {
    let alloc = rt.alloc();
    let (base, scripts) = (empty(alloc)?, one_script(alloc)?);
    let run = run_scripts(&rt, alloc, 1, base, scripts)?;
    if run.replies.as_slice().len() > 64 {
        return Err("there are more sessions than a desk has".into());
    }
    let order = order_of(alloc, run.closed.book.log(), run.replies.as_slice())?;
    assert_eq!(rt; order.as_slice(), [1, 1, 1].as_slice());
    Ok(())
}
