//! The steps of one session, one after another.
ghost use Rattle.std.specs.Prelude.{◌≡◌, IfOk, None, Some};
ghost use Rattle.locked_desk.specs.Runs.{RepliesTo, RunsCommand, RunsSo, StepsTo};

use crate::desk::Desk;
use crate::fault::{DeskFault, DeskRefusal, RunFault};
use crate::seat::Seat;
use band_workers::Bands;
use lay_point::Sequence;
use session_steps::{Reply, Step, StepFault};
use std::alloc::Global;
use std::sync::Wait;
use std::sync::ledger::Ledger;
use std::thread::Threads;
use txn_commands::Command;
use txn_work::Work;

/// Called before each step of a session, with its number from 0, outside the lock. It has no effect on
/// answers.
pub trait SessionGate {
    /// Returns when the session may go on.
    fn pass(&self, session: u8, step: usize);
}

/// A session's seat and its steps.
#[derive(Drop)]
pub(crate) struct Job<L: Ledger> {
    pub(crate) seat: Seat<L>,
    pub(crate) steps: Sequence<Step>,
}

/// A session's seat after its steps, and the replies to them.
#[derive(Drop)]
pub(crate) struct Outcome<L: Ledger> {
    pub(crate) seat: Seat<L>,
    pub(crate) replies: Sequence<Reply>,
}

/// Runs a session's steps.
pub(crate) fn run_job<L: Ledger, R: Threads + Wait + Sync, G: SessionGate, B: Bands>(
    rt: &R,
    alloc: Global,
    desk: &Desk<L>,
    job: Job<L>,
    gate: &G,
    bands: &B,
) -> Result<Outcome<L>, RunFault>
    ensures { IfOk result (λ r. RunsSo desk.now job.seat job.steps r.replies r.seat) }
{
    let Job { mut seat, steps } = job;
    let session = seat.session();
    let steps = steps.into_vec();
    let mut held = None;
    let mut replies = Vec::with_capacity(alloc, steps.len())?;
    for step in steps {
        gate.pass(session, replies.len());
        let (reply, next) = take_step(rt, alloc, desk, &mut seat, held, step, bands)?;
        held = next;
        replies.push(reply)?;
    }
    Ok(Outcome {
        seat,
        replies: Sequence::from_vec(replies),
    })
}

/// Takes a step of a session that has this work open. Returns the reply, and what the session then has open.
fn take_step<L: Ledger, R: Threads + Wait + Sync, B: Bands>(
    rt: &R,
    alloc: Global,
    desk: &Desk<L>,
    seat: &mut Seat<L>,
    held: Option<Work>,
    step: Step,
    bands: &B,
) -> Result<(Reply, Option<Work>), RunFault>
    ensures { IfOk result (λ r. StepsTo desk.now (record { seat = seat.old; work = held }) step r.0
        (record { seat = seat.new; work = r.1 })) }
{
    match step {
        Step::Open => match held {
            Some(work) => Ok((Reply::Fault(StepFault::AlreadyOpen), Some(work))),
            None => open(rt, alloc, desk, seat),
        },
        Step::Do(command) => match held {
            Some(work) => {
                let (reply, work) = run_command(rt, alloc, work, command, bands);
                Ok((reply, Some(work)))
            }
            None => Ok((Reply::Fault(StepFault::NotOpen), None)),
        },
        Step::Commit => match held {
            Some(work) => commit(rt, alloc, desk, seat, work),
            None => Ok((Reply::Fault(StepFault::NotOpen), None)),
        },
        Step::Cancel => match held {
            Some(_) => Ok((Reply::Cancelled, None)),
            None => Ok((Reply::Fault(StepFault::NotOpen), None)),
        },
        Step::Undo(txn) => {
            let answer = desk.undo(rt, alloc, seat, txn);
            Ok((reply_to(answer, Reply::Undone)?, held))
        }
        Step::Redo(txn) => {
            let answer = desk.redo(rt, alloc, seat, txn);
            Ok((reply_to(answer, Reply::Redone)?, held))
        }
    }
}

/// Opens a transaction of a session that has none open.
fn open<L: Ledger, R: Wait>(
    rt: &R,
    alloc: Global,
    desk: &Desk<L>,
    seat: &mut Seat<L>,
) -> Result<(Reply, Option<Work>), RunFault>
    ensures { IfOk result (λ r. StepsTo desk.now (record { seat = seat.old; work = None }) Step.Open r.0
        (record { seat = seat.new; work = r.1 })) }
{
    match desk.open(rt, alloc, seat) {
        Ok(work) => Ok((Reply::Opened(work.id().txn), Some(work))),
        Err(DeskFault::Book(fault)) => Ok((Reply::Fault(StepFault::Book(fault)), None)),
        Err(DeskFault::Differs { session, place }) => Err(RunFault::Differs { session, place }),
    }
}

/// Commits the work of a session.
fn commit<L: Ledger, R: Wait>(
    rt: &R,
    alloc: Global,
    desk: &Desk<L>,
    seat: &mut Seat<L>,
    work: Work,
) -> Result<(Reply, Option<Work>), RunFault>
    ensures { IfOk result (λ r. StepsTo desk.now (record { seat = seat.old; work = Some work }) Step.Commit r.0
        (record { seat = seat.new; work = r.1 })) }
{
    match desk.commit(rt, alloc, seat, work) {
        Ok(txn) => Ok((Reply::Committed(txn), None)),
        Err(refused) => {
            let DeskRefusal { fault, work } = refused;
            match fault {
                DeskFault::Book(fault) => Ok((Reply::Fault(StepFault::Book(fault)), work)),
                DeskFault::Differs { session, place } => Err(RunFault::Differs { session, place }),
            }
        }
    }
}

/// Runs a command in a session's work. Returns the reply and the work.
fn run_command<R: Threads + Sync, B: Bands>(
    rt: &R,
    alloc: Global,
    work: Work,
    command: Command,
    bands: &B,
) -> (Reply, Work)
    ensures { RunsCommand work command result.0 result.1 }
{
    let mut work = work;
    match work.run(rt, alloc, command, bands) {
        Ok(done) => (Reply::Done(done), work),
        Err(fault) => (Reply::Fault(StepFault::Command(fault)), work),
    }
}

/// Returns the reply to an undo or a redo, of which this is the reply where it is done.
fn reply_to(answer: Result<(), DeskFault>, done: Reply) -> Result<Reply, RunFault>
    ensures { IfOk result (λ reply. RepliesTo answer done reply) }
{
    match answer {
        Ok(()) => Ok(done),
        Err(DeskFault::Book(fault)) => Ok(Reply::Fault(StepFault::Book(fault))),
        Err(DeskFault::Differs { session, place }) => Err(RunFault::Differs { session, place }),
    }
}
