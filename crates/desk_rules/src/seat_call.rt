//! Logged calls with their places, and whether a log has them.
ghost use Rattle.std.specs.Prelude.{◌≡◌};
ghost use Rattle.desk_rules.specs.Close.{missing_place};
ghost use Rattle.desk_rules.specs.Seats.{is_in, is_last_in, last_of};

use undo_rules::Logged;

/// A logged call with its place in the log, from 0.
#[derive(Debug, Drop, PartialEq, Eq)]
pub struct SeatCall {
    /// The place.
    pub place: usize,
    /// The call, with its answer.
    pub logged: Logged,
}

/// Returns whether the log has the call at its place.
pub fn is_in(log: &[Logged], kept: &SeatCall) -> bool
    ensures { result ≡ is_in log.now kept.now }
{
    match log.get(kept.place) {
        Some(logged) => *logged == kept.logged,
        None => false,
    }
}

/// Returns whether the log has the last of the calls at its place.
pub fn is_last_in(log: &[Logged], own: &[SeatCall]) -> bool
    ensures { result ≡ is_last_in log.now (last_of own.now) }
{
    match own.last() {
        Some(kept) => is_in(log, kept),
        None => true,
    }
}

/// Returns the place of the first of the calls that the log doesn't have at its place.
///
/// # Cost
///
/// A pass over the calls.
pub fn missing_place(log: &[Logged], own: &[SeatCall]) -> Option<usize>
    ensures { result ≡ missing_place log.now own.now }
{
    let mut rest = own;
    while let Some((kept, after)) = rest.split_first() {
        if !is_in(log, kept) {
            return Some(kept.place);
        }
        rest = after;
    }
    None
}
