//! Sessions in threads, from their seats to the closed desk.
ghost use Rattle.std.specs.Prelude.{◌≡◌, ℕ, ◌<◌, ◌≤◌, IfOk, IfSome, length, slice_index_or, vec_len};
ghost use Rattle.std.specs.List.{Contains};
ghost use Rattle.locked_desk.specs.Jobs.{AllSucceeded, AreAmong, AreJobs};
ghost use Rattle.locked_desk.specs.Runs.{IsDeskRun, RunsSo};

use crate::close::{CloseRefusal, Closed};
use crate::desk::Desk;
use crate::fault::RunFault;
use crate::seat::Seat;
use crate::steps::{Job, Outcome, SessionGate, run_job};
use band_workers::Bands;
use lay_point::Sequence;
use session_steps::{Reply, Step};
use std::alloc::{AllocError, Global};
use std::sync::Wait;
use std::sync::ledger::Ledger;
use std::thread;
use std::thread::Threads;
use undo_rules::MAX_SESSIONS;

/// A run of sessions that has ended.
#[derive(Drop)]
pub struct Run {
    /// The closed desk.
    pub closed: Closed,
    /// The replies to each session's steps, session by session.
    pub replies: Sequence<Sequence<Reply>>,
}

/// Runs the steps of each session, each session in a thread of its own, joins them and closes the desk. The
/// n-th script is that of session n. Where a thread can't be started, its session runs on the calling thread.
/// `gate` is called before each step, outside the lock, and `bands` finds the edges of Booleans.
///
/// # Errors
///
/// `NoMemory`, if an allocation fails; `Differs` and `MissingSeat` as `close` answers them. When each comes no clause says.
pub fn run_sessions<L, R, G, B>(
    rt: &R,
    alloc: Global,
    desk: Desk<L>,
    seats: Vec<Seat<L>>,
    scripts: Sequence<Sequence<Step>>,
    gate: &G,
    bands: &B,
) -> Result<Run, RunFault>
where
    L: Ledger + Send + Sync,
    R: Threads + Wait + Sync,
    G: SessionGate + Sync,
    B: Bands + Sync,
    requires { length scripts ≡ desk.sessions }
    ensures { IfOk result (λ run. IsDeskRun desk seats.items scripts run.replies run.closed.book) }
{
    // for the proof: there are at most `MAX_SESSIONS`
    desk.sessions();
    let jobs = jobs_of(alloc, seats, scripts)?;
    let outcomes = run_jobs(rt, alloc, &desk, jobs, gate, bands)?;
    let (seats, replies) = ended(alloc, outcomes)?;
    match desk.close(seats) {
        Ok(closed) => Ok(Run { closed, replies }),
        Err(CloseRefusal::MissingSeat { session, .. }) => Err(RunFault::MissingSeat { session }),
        Err(CloseRefusal::Differs { session, place, .. }) => Err(RunFault::Differs {
            session,
            place,
        }),
    }
}

/// Runs the jobs, each in a thread of its own, and joins them.
fn run_jobs<L, R, G, B>(
    rt: &R,
    alloc: Global,
    desk: &Desk<L>,
    jobs: Vec<Job<L>>,
    gate: &G,
    bands: &B,
) -> Result<Vec<Result<Outcome<L>, RunFault>>, AllocError>
where
    L: Ledger + Send + Sync,
    R: Threads + Wait + Sync,
    G: SessionGate + Sync,
    B: Bands + Sync,
    ensures len { IfOk result (λ rs. vec_len rs ≡ vec_len jobs) }
    ensures each { IfOk result (λ rs. (i : ℕ) (d : _) (e : _) → i < vec_len jobs
        → IfOk (slice_index_or rs.items i d) (λ o. RunsSo desk.now (slice_index_or jobs.items i e).seat
        (slice_index_or jobs.items i e).steps o.replies o.seat)) }
{
    thread::map_vec(rt, jobs, &|job| run_job(rt, alloc, desk, job, gate, bands))
}

/// Returns the jobs of the sessions, in order: each session's seat with its script.
fn jobs_of<L: Ledger>(
    alloc: Global,
    seats: Vec<Seat<L>>,
    scripts: Sequence<Sequence<Step>>,
) -> Result<Vec<Job<L>>, RunFault>
    requires { length scripts ≤ MAX_SESSIONS }
    ensures { IfOk result (λ jobs. AreJobs seats.items 1 scripts jobs.items) }
{
    let mut seats = seats;
    let scripts = scripts.into_vec();
    let mut jobs = Vec::with_capacity(alloc, scripts.len())?;
    for steps in scripts {
        let session = jobs.len() + 1;
        let Some(seat) = take_seat(&mut seats, session) else {
            return Err(RunFault::MissingSeat {
                session: session.min(usize::from(MAX_SESSIONS)) as u8,
            });
        };
        jobs.push(Job { seat, steps })?;
    }
    Ok(jobs)
}

/// Takes the seat of the session out of the seats.
fn take_seat<L: Ledger>(seats: &mut Vec<Seat<L>>, session: usize) -> Option<Seat<L>>
    ensures seat { IfSome result (λ seat. (seat.session ≡ session) × Contains seats.old.items seat) }
    ensures rest { AreAmong seats.old.items seats.new.items }
{
    let place = index_of_seat(seats.as_slice(), session)?;
    Some(seats.remove(place))
}

/// Returns the place of the seat of the session among the seats.
fn index_of_seat<L: Ledger>(seats: &[Seat<L>], session: usize) -> Option<usize>
    ensures within { IfSome result (λ place. place < length seats.now) }
    ensures session { IfSome result (λ place. (d : _) → (slice_index_or seats.now place d).session ≡ session) }
{
    for (place, seat) in seats.iter().enumerate() {
        if usize::from(seat.session()) == session {
            return Some(place);
        }
    }
    None
}

/// Returns the seats at the end, and the replies, if no session failed.
fn ended<L: Ledger>(
    alloc: Global,
    outcomes: Vec<Result<Outcome<L>, RunFault>>,
) -> Result<(Vec<Seat<L>>, Sequence<Sequence<Reply>>), RunFault>
    ensures { IfOk result (λ r. AllSucceeded outcomes.items r.0.items r.1) }
{
    let mut seats = Vec::with_capacity(alloc, outcomes.len())?;
    let mut replies = Vec::with_capacity(alloc, outcomes.len())?;
    for outcome in outcomes {
        let Outcome {
            seat,
            replies: given,
        } = outcome?;
        seats.push(seat)?;
        replies.push(given)?;
    }
    Ok((seats, Sequence::from_vec(replies)))
}
