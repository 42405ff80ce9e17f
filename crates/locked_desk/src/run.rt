//! Scripts of steps that run in threads: a desk over a layout, and a session for each script.
//!
//! [`run_scripts`] makes the desk with its ledger, lets [`run_sessions`] run each script in a thread of its
//! own, and gives the closed desk and the replies. Nothing here keeps a session waiting before a step.
//!
//! ```text
//! let run = run_scripts(&rt, alloc, 1, base, scripts)?;
//! let order = order_of(alloc, run.closed.book.log(), run.replies.as_slice())?;
//! ```
ghost use Rattle.std.specs.Prelude.{◌≡◌, ◌≤◌, IfOk, length};
ghost use Rattle.locked_desk.specs.Scripts.{RunsScripts, desk_scripts, RunsOn};

use crate::desk::Desk;
use crate::fault::RunFault;
use crate::sessions::{Run, run_sessions};
use crate::steps::SessionGate;
use band_workers::{OneBand, ScopedBands, Workers};
use lay_items::Snapshot;
use lay_point::{NoMemory, Sequence};
use session_steps::Step;
use std::alloc::Global;
use std::marker::Brand;
use std::sync::Wait;
use std::sync::ledger::{Blank, Ledger};
use std::thread::Threads;
use undo_rules::{MAX_SESSIONS, SessionCount};

/// A gate that stands open.
struct OpenGate;

impl SessionGate for OpenGate {
    fn pass(&self, _session: u8, _step: usize) {}
}

/// Runs the scripts on the layout, each in a thread of its own, as that of the session of its number. Where
/// there is none, one session takes no step; those after the `MAX_SESSIONS`-th aren't run. A script for which no
/// thread can be started runs on the caller's. `workers` threads label the edges of a Boolean; 0 is taken as 1, and
/// more than `MAX_WORKERS` as `MAX_WORKERS`.
///
/// # Errors
///
/// `NoMemory` where an allocation fails; `Differs` and `MissingSeat` where the closed desk isn't as its sessions left it. When
/// each comes no clause says.
pub fn run_scripts<R: Threads + Wait + Sync>(
    rt: &R,
    alloc: Global,
    workers: u8,
    base: Snapshot,
    scripts: Sequence<Sequence<Step>>,
) -> Result<Run, RunFault>
    ensures { IfOk result (λ run. RunsScripts base scripts run.replies run.closed.book) }
{
    let scripts = desk_scripts(alloc, scripts)?;
    let sessions = SessionCount::new(scripts.as_slice().len() as u8).unwrap();
    let blank = Blank::new(u64::from(sessions.number()));
    let workers = Workers::nearest(workers);
    run_on::<Brand, R>(rt, alloc, workers, base, sessions, scripts, blank)
}

/// Returns the scripts of a desk: one without steps where there are none, and at most `MAX_SESSIONS`.
fn desk_scripts(
    alloc: Global,
    scripts: Sequence<Sequence<Step>>,
) -> Result<Sequence<Sequence<Step>>, NoMemory>
    ensures value { IfOk result (λ all. all ≡ desk_scripts scripts) }
    ensures range { IfOk result (λ all. (1 ≤ length all) × (length all ≤ MAX_SESSIONS)) }
{
    let mut scripts = scripts.into_vec();
    if scripts.is_empty() {
        scripts.push(Sequence::from_vec(Vec::new(alloc)))?;
    }
    scripts.truncate(usize::from(MAX_SESSIONS));
    Ok(Sequence::from_vec(scripts))
}

/// Runs the scripts on a desk with this ledger, which has a part for each session.
fn run_on<L: Ledger + Send + Sync, R: Threads + Wait + Sync>(
    rt: &R,
    alloc: Global,
    workers: Workers,
    base: Snapshot,
    sessions: SessionCount,
    scripts: Sequence<Sequence<Step>>,
    blank: Blank,
) -> Result<Run, RunFault>
    requires name { blank.name ≡ L.name }
    requires parts { blank.parts ≡ L.parts }
    requires one_each { blank.parts ≡ sessions }
    requires scripts { length scripts ≡ sessions }
    ensures { IfOk result (λ run. RunsOn base scripts run.replies run.closed.book) }
{
    let (desk, seats) = Desk::<L>::new(alloc, base, sessions.number(), blank)?;
    if workers.number() == 1 {
        return run_sessions(rt, alloc, desk, seats, scripts, &OpenGate, &OneBand);
    }
    let bands = ScopedBands::of(workers);
    run_sessions(rt, alloc, desk, seats, scripts, &OpenGate, &bands)
}
