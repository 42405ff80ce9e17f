//! What is said of refused steps.

use lay_point::{NoMemory, Sequence};
use session_steps::{Reply, StepFault};
use std::alloc::Global;
use std::io::Write;
use undo_rules::BookFault;

/// A refused step: its session and its number in it, both from 1, and why it was refused.
#[derive(Clone, Copy, Debug)]
struct Refusal {
    session: usize,
    step: usize,
    fault: StepFault,
}

/// What is reported to a person of the refused steps of a run whose sessions were answered so: how many they are, of how
/// many steps, and the first of them with its cause and what to do. Nothing, where no step was refused.
///
/// # Errors
///
/// `NoMemory`, if an allocation fails.
///
/// # Cost
///
/// A pass over the replies.
pub fn of_refusals(alloc: Global, sessions: &[Sequence<Reply>]) -> Result<Vec<u8>, NoMemory> {
    let mut lines = Vec::new(alloc);
    let Some(first) = first_refusal(sessions) else {
        return Ok(lines);
    };
    put_counts(&mut lines, sessions)?;
    put_refusal(&mut lines, first)?;
    Ok(lines)
}

/// Returns what a refusal of this number means, and what to do. `docs/FORMAT.md` has the same sentences.
pub fn sentence_of(number: u8) -> &'static str {
    match number {
        1..=13 => sentence_of_command(number),
        20..=28 | 33 => sentence_of_book(number),
        30 => "There is no such session: a run has those of its sections, a live run 1 to 64.",
        31 => "The session has a transaction open: commit or cancel it first.",
        32 => "The session has no transaction open: `open` one first.",
        _ => "",
    }
}

/// Returns the same of a refused command.
fn sentence_of_command(number: u8) -> &'static str {
    match number {
        1 => "The cell or the symbol isn't there: check its number, or make it with `mkcell`.",
        2 => "No item has this id: check it.",
        3 => "The item is a call, which has no layer: name a shape.",
        4 => "A side is 0, or fewer than three points are left without repeats: draw an area.",
        5 =>
            "A coordinate or a shift, perhaps moved or turned, is beyond 1,073,741,824: stay within.",
        6 => "A symbol would contain itself: place another one.",
        7 => "More than 64 calls are nested below the cell: combine in a lower cell.",
        8 =>
            "The layers have more than 65,536 sides, or a path more than 65,536 points: divide the layers among cells.",
        10 => "The transaction has 65,535 commands or new items: commit it, and open another.",
        11 => "An allocation failed: divide the job.",
        12 => "The symbol is there already: use it, or another number.",
        13 => "The symbol has items, or a call of it is left: delete these first.",
        _ => "",
    }
}

/// Returns the same of a refused call of the book.
fn sentence_of_book(number: u8) -> &'static str {
    match number {
        20 => "No such transaction was committed: name one that was.",
        21 => "The transaction is undone already.",
        22 => "The transaction isn't undone.",
        23 => "The named later transaction read or wrote what this one wrote: undo that one first.",
        24 =>
            "The named earlier transaction wrote what this one read or wrote, and was undone or redone since: redo or undo it first.",
        25 =>
            "The named transaction wrote what this one read or wrote, and was committed, undone or redone meanwhile: open again.",
        26 => "The log has 1,048,576 calls: begin a new job with the text that is written.",
        27 => "An allocation failed: divide the job.",
        28 => "The work isn't the one that the session opened last.",
        33 => "The session has had 65,535 transactions: use another session.",
        _ => "",
    }
}

/// Returns the first refusal, session after session.
fn first_refusal(sessions: &[Sequence<Reply>]) -> Option<Refusal> {
    for (index, replies) in sessions.iter().enumerate() {
        if let Some((step, fault)) = first_fault(replies.as_slice()) {
            return Some(Refusal {
                session: index.saturating_add(1),
                step,
                fault,
            });
        }
    }
    None
}

/// Returns the number of the first step with a refusal, from 1, and the refusal.
fn first_fault(replies: &[Reply]) -> Option<(usize, StepFault)> {
    for (index, reply) in replies.iter().enumerate() {
        if let Reply::Fault(fault) = reply {
            return Some((index.saturating_add(1), *fault));
        }
    }
    None
}

/// Returns how many of the steps were refused.
fn count_refused(replies: &[Reply]) -> usize {
    replies.iter().filter(|reply| is_refusal(reply)).count()
}

/// Returns whether the step was refused.
fn is_refusal(reply: &Reply) -> bool {
    match reply {
        Reply::Fault(_) => true,
        _ => false,
    }
}

/// Appends how many steps were refused, and of how many.
fn put_counts(lines: &mut Vec<u8>, sessions: &[Sequence<Reply>]) -> Result<(), NoMemory> {
    let mut refused: usize = 0;
    let mut steps: usize = 0;
    for replies in sessions {
        refused = refused.saturating_add(count_refused(replies.as_slice()));
        steps = steps.saturating_add(replies.as_slice().len());
    }
    let text = match (steps, refused) {
        (1, _) => "the only step was refused",
        (_, 1) => "one step was refused",
        _ => "steps were refused",
    };
    match (steps, refused) {
        (1, _) => write!(lines, "masklay: {text}:\n"),
        (_, 1) => write!(lines, "masklay: {text}, of {steps}:\n"),
        _ => write!(lines, "masklay: {refused} {text}, of {steps}; the first:\n"),
    }
    .map_err(|_| NoMemory)
}

/// Appends a refusal: where, its number and name, the transaction that it names, its cause and what to do.
fn put_refusal(lines: &mut Vec<u8>, refusal: Refusal) -> Result<(), NoMemory> {
    let Refusal {
        session,
        step,
        fault,
    } = refusal;
    let (number, name) = fault.code();
    write!(
        lines,
        "  session {session}, step {step}: fault {number} {name}"
    )
    .map_err(|_| NoMemory)?;
    if let StepFault::Book(
        BookFault::Depends(txn) | BookFault::Moved(txn) | BookFault::Stale(txn),
    ) = fault
    {
        write!(lines, " {}.{}", txn.session, txn.txn).map_err(|_| NoMemory)?;
    }
    write!(lines, "\n  {}\n", sentence_of(number)).map_err(|_| NoMemory)
}
