//! An order of the steps, made from the log, and its lines.
ghost use Rattle.std.specs.Prelude.{◌≡◌, ◌<◌, ◌≤◌, ◌++◌, ◌+◌, ◌-◌, ◌^◌, ◌%◌, ◌==◌, ◌||◌, [], IfOk, IfSome, OnOk, codes, if◌then◌else◌};
ghost use Rattle.std.specs.Prelude.{length, replicate, slice_index};
ghost use Rattle.std.specs.List.{position};
ghost use Rattle.byte_io.specs.Buffered.{Buffered};
ghost use Rattle.job_text.specs.Order.{
  is_logged,
  is_logged_fault,
  order_number_text,
  order_of,
  order_text,
  replies_left,
  replies_of,
  rest_from,
  steps_to_logged,
};

use crate::words::MAX_SESSION;
use byte_io::{Out, OutBuffer};
use lay_point::{NoMemory, Sequence};
use session_steps::{Reply, StepFault};
use std::alloc::Global;
use undo_rules::{BookFault, Logged};

/// How many numbers a line of the order has.
const LINE: usize = 16;

/// How many numbers of a session there are, as a byte.
const SESSIONS: usize = 256;

/// Returns an order of the steps of the sessions with these replies, by the log: for each
/// logged call its session's number, once for each step up to and with the call's; then the steps that
/// are left, session by session. The first of the sessions is session 1.
///
/// # Errors
///
/// `NoMemory`, if an allocation fails.
///
/// # Cost
///
/// A pass over the log and the replies.
pub fn order_of(
    alloc: Global,
    log: &[Logged],
    sessions: &[Sequence<Reply>],
) -> Result<Vec<u8>, NoMemory>
    requires { length sessions.now ≤ MAX_SESSION }
    ensures { IfOk result (λ order. order.items ≡ order_of log.now sessions.now) }
{
    let mut order = Vec::new(alloc);
    let mut taken = [0; SESSIONS];
    for call in log {
        let count = steps_to_logged(left_of(sessions, &taken, call.session));
        push_times(&mut order, count, call.session)?;
        taken[usize::from(call.session)] += count;
    }
    push_rest(&mut order, sessions, &taken)?;
    Ok(order)
}

/// Appends what is left of each session, one after the other.
fn push_rest(
    order: &mut Vec<u8>,
    sessions: &[Sequence<Reply>],
    taken: &[usize],
) -> Result<(), NoMemory>
    requires few { length sessions.now ≤ MAX_SESSION }
    requires len { length taken.now ≡ SESSIONS }
    ensures { OnOk result (order.new.items ≡ order.old.items
        ++ rest_from 1 sessions.now taken.now) }
{
    let mut session = 1;
    for replies in sessions {
        let left = replies
            .as_slice()
            .len()
            .saturating_sub(taken[usize::from(session)]);
        push_times(order, left, session)?;
        session += 1;
    }
    Ok(())
}

/// Returns the replies of a session to steps that aren't in the order so far.
fn left_of<'a>(sessions: &'a [Sequence<Reply>], taken: &[usize], session: u8) -> &'a [Reply]
    requires { length taken.now ≡ SESSIONS }
    ensures value { result.now ≡ replies_left sessions.now taken.now session }
    ensures fits { slice_index taken.now session + length result.now < 2 ^ 64 }
{
    let replies = replies_of(sessions, session);
    replies.get(taken[usize::from(session)]..).unwrap_or(&[])
}

/// Returns the replies of the session of this number, from 1.
fn replies_of(sessions: &[Sequence<Reply>], session: u8) -> &[Reply]
    ensures { result.now ≡ replies_of sessions.now session }
{
    if session == 0 {
        return &[];
    }
    match sessions.get(usize::from(session) - 1) {
        Some(replies) => replies.as_slice(),
        None => &[],
    }
}

/// Appends the session's number, this many times.
pub(crate) fn push_times(order: &mut Vec<u8>, times: usize, session: u8) -> Result<(), NoMemory>
    ensures { OnOk result (order.new.items ≡ order.old.items ++ replicate times session) }
{
    for _ in 0..times {
        order.push(session)?;
    }
    Ok(())
}

/// Returns the number of steps up to and with the first logged one, or of all.
fn steps_to_logged(replies: &[Reply]) -> usize
    ensures value { result ≡ steps_to_logged replies.now }
    ensures inside { result ≤ length replies.now }
{
    match first_logged(replies) {
        Some(index) => index + 1,
        None => replies.len(),
    }
}

/// Returns the index of the first reply to a logged call.
fn first_logged(replies: &[Reply]) -> Option<usize>
    ensures value { result ≡ position is_logged replies.now }
    ensures inside { IfSome result (λ n. n < length replies.now) }
{
    replies.iter().position(|reply| is_logged(reply))
}

/// Returns whether the call of a step with this reply is logged.
fn is_logged(reply: &Reply) -> bool
    ensures { result ≡ is_logged reply.now }
{
    match reply {
        Reply::Opened(_) | Reply::Committed(_) | Reply::Undone | Reply::Redone => true,
        Reply::Fault(StepFault::Book(fault)) => is_logged_fault(*fault),
        Reply::Done(_) | Reply::Cancelled | Reply::Fault(_) => false,
    }
}

/// Returns whether a call refused with `fault` is logged.
fn is_logged_fault(fault: BookFault) -> bool
    ensures { result ≡ is_logged_fault fault }
{
    match fault {
        BookFault::LogFull | BookFault::NoMemory | BookFault::Foreign => false,
        BookFault::SessionFull
        | BookFault::NoTxn
        | BookFault::NotLive
        | BookFault::StillLive
        | BookFault::Depends(_)
        | BookFault::Moved(_)
        | BookFault::Stale(_) => true,
    }
}

/// Puts the lines of the order.
pub(crate) fn put_order<O: Out>(out: &mut O, buffer: &mut OutBuffer, order: &[u8])
    ensures { Buffered O.written O.failures out.old buffer.old out.new buffer.new
        (order_text order.now) }
{
    let mut index = 0;
    let mut rest = order;
    while let Some((session, behind)) = rest.split_first() {
        put_number(out, buffer, index, behind.is_empty(), *session);
        index += 1;
        rest = behind;
    }
}

/// Puts a number of the order, in comments of `LINE` numbers, by its index, from 0, and whether it is the last.
fn put_number<O: Out>(out: &mut O, buffer: &mut OutBuffer, index: usize, last: bool, session: u8)
    ensures { Buffered O.written O.failures out.old buffer.old out.new buffer.new
        (order_number_text index last session) }
{
    put_head(out, buffer, index);
    buffer.put_byte(out, b' ');
    buffer.put_unsigned(out, u64::from(session));
    put_tail(out, buffer, index, last);
}

/// Puts what stands in front of a number of the order, where it is the first of its comment.
fn put_head<O: Out>(out: &mut O, buffer: &mut OutBuffer, index: usize)
    ensures { Buffered O.written O.failures out.old buffer.old out.new buffer.new
        (if index % 16 == 0 then codes "(order" else []) }
{
    if index % LINE == 0 {
        buffer.put(out, b"(order");
    }
}

/// Puts what stands behind a number of the order, where it is the last of its comment.
fn put_tail<O: Out>(out: &mut O, buffer: &mut OutBuffer, index: usize, last: bool)
    ensures { Buffered O.written O.failures out.old buffer.old out.new buffer.new
        (if (index + 1) % 16 == 0 || last then codes ");\n" else []) }
{
    if index % LINE == LINE - 1 || last {
        buffer.put(out, b");\n");
    }
}
