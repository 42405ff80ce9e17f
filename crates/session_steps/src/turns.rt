//! Steps in turns, and replies dealt to their sessions.
//!
//! Each session's list of replies is made with room for all of them, so it never grows.
ghost use Rattle.std.specs.Prelude.{◌≡◌, ◌++◌, ◌∷◌, ◌-◌, ℕ, List, [], IfOk, MatchOption, OnOk, length, replicate, slice_index_or, slice_set, vec_len};
ghost use Rattle.session_steps.specs.declared.Step.{Step as AnyStep};
ghost use Rattle.session_steps.specs.Turns.{dealt, in_turn, is_first_alone, taken, with_step};

use crate::{Reply, Step};
use lay_point::{NoMemory, Sequence, ShrinkingIntoIter};
use std::alloc::Global;
use std::collections::VecDeque;
use std::marker::Model;

/// The steps that a session has left. Contracts see the list of them.
#[derive(Drop)]
struct Left {
    steps: VecDeque<Step>,
}

impl Model for Left {
    ghost use Rattle.std.specs.Prelude.{List};
    ghost use Rattle.session_steps.specs.declared.Step.{Step};

    ghost Value = { List Step };

    ghost view = { λ l. l.steps.items };
}

impl Left {
    /// Takes the first step.
    fn next(&mut self) -> Option<Step>
        ensures { MatchOption result ((self.old ≡ []) × (self.new ≡ [])) (λ step. self.old ≡ step ∷ self.new) }
    {
        self.steps.pop_front()
    }
}

/// The replies that a session has so far. Contracts see the list of them.
#[derive(Drop)]
struct Hand {
    replies: Vec<Reply>,
}

impl Model for Hand {
    ghost use Rattle.std.specs.Prelude.{List};
    ghost use Rattle.session_steps.specs.declared.Reply.{Reply};

    ghost Value = { List Reply };

    ghost view = { λ h. h.replies.items };
}

impl Hand {
    /// Adds a reply.
    fn push(&mut self, reply: Reply) -> Result<(), NoMemory>
        ensures ok { OnOk result (self.new ≡ self.old ++ reply ∷ []) }
    {
        self.replies.push(reply)?;
        Ok(())
    }
}

/// Returns the steps of these scripts, each with the number of its session, as the sessions come in this
/// order. A session that has no step left is passed over.
///
/// # Errors
///
/// `NoMemory`, if an allocation fails.
///
/// # Cost
///
/// A pass over the steps.
pub fn in_turn(
    alloc: Global,
    scripts: Sequence<Sequence<Step>>,
    order: &[u8],
) -> Result<Vec<(u8, Step)>, NoMemory>
    ensures { IfOk result (λ steps. steps.items ≡ in_turn order.now scripts) }
{
    let mut left = all_left(alloc, scripts)?;
    let mut steps = Vec::with_capacity(alloc, order.len())?;
    for session in order {
        if let Some(step) = take_step(&mut left, *session) {
            steps.push((*session, step))?;
        }
    }
    Ok(steps)
}

/// Returns all steps of the scripts as those that are left.
fn all_left(alloc: Global, scripts: Sequence<Sequence<Step>>) -> Result<Vec<Left>, NoMemory>
    ensures { IfOk result (λ left. left.items ≡ scripts) }
{
    let mut left = Vec::with_capacity(alloc, scripts.as_slice().len())?;
    for script in scripts.into_vec() {
        let steps = VecDeque::from(script.into_vec());
        left.push(Left { steps })?;
    }
    Ok(left)
}

/// Takes the first step that the session has left, where it has one.
fn take_step(left: &mut Vec<Left>, session: u8) -> Option<Step>
    ensures { (more : List (List AnyStep) → List (ℕ × AnyStep)) →
        taken session (slice_index_or left.old.items (session - 1) []) left.old.items more
        ≡ with_step session result (more left.new.items) }
{
    let place = usize::from(session).saturating_sub(1);
    if place >= left.len() {
        return None;
    }
    left[place].next()
}

/// Returns the replies of so many sessions, dealt to them as they come in this order. Those of a session alone stay
/// where they are; else what they took is given back on the way.
///
/// # Errors
///
/// `NoMemory`, if an allocation fails.
///
/// # Cost
///
/// A pass over the order, and one over the replies.
pub fn dealt(
    alloc: Global,
    sessions: u8,
    order: &[u8],
    replies: Vec<Reply>,
) -> Result<Sequence<Sequence<Reply>>, NoMemory>
    ensures { IfOk result (λ hands. hands ≡ dealt order.now replies.items (replicate sessions [])) }
{
    if sessions == 1 && replies.len() <= order.len() && is_first_alone(order) {
        return shown(alloc, vec![in alloc; Hand { replies }]?);
    }
    let mut hands = empty_hands(alloc, &shares(alloc, sessions, order)?)?;
    let mut left = ShrinkingIntoIter::of(replies);
    for session in order {
        match left.next() {
            Some(reply) => deal(&mut hands, *session, reply)?,
            None => return shown(alloc, hands),
        }
    }
    shown(alloc, hands)
}

/// Returns whether no session but the first comes in this order.
fn is_first_alone(order: &[u8]) -> bool
    ensures { result ≡ is_first_alone order.now }
{
    order.iter().all(|session| *session == 1)
}

/// Returns how often each of so many sessions comes in this order.
fn shares(alloc: Global, sessions: u8, order: &[u8]) -> Result<Vec<usize>, NoMemory>
    ensures { IfOk result (λ shares. vec_len shares ≡ sessions) }
{
    let mut shares: Vec<usize> = vec![in alloc; 0; usize::from(sessions)]?;
    for session in order {
        if let Some(share) = shares.get_mut(usize::from(*session).saturating_sub(1)) {
            *share = share.saturating_add(1);
        }
    }
    Ok(shares)
}

/// Returns an empty hand for each session, with room for so many replies.
fn empty_hands(alloc: Global, shares: &[usize]) -> Result<Vec<Hand>, NoMemory>
    ensures { IfOk result (λ hands. hands.items ≡ replicate (length shares.now) []) }
{
    let mut hands = Vec::with_capacity(alloc, shares.len())?;
    for share in shares {
        let replies = Vec::with_capacity(alloc, *share)?;
        hands.push(Hand { replies })?;
    }
    Ok(hands)
}

/// Deals a reply to the session, where there is one of this number.
fn deal(hands: &mut Vec<Hand>, session: u8, reply: Reply) -> Result<(), NoMemory>
    ensures { OnOk result (hands.new.items ≡ slice_set hands.old.items (session - 1)
        (slice_index_or hands.old.items (session - 1) [] ++ reply ∷ [])) }
{
    let place = usize::from(session).saturating_sub(1);
    if place >= hands.len() {
        return Ok(());
    }
    hands[place].push(reply)
}

/// Returns the replies in the hands.
fn shown(alloc: Global, hands: Vec<Hand>) -> Result<Sequence<Sequence<Reply>>, NoMemory>
    ensures { IfOk result (λ shown. shown ≡ hands.items) }
{
    let mut lists = Vec::with_capacity(alloc, hands.len())?;
    for hand in hands {
        let Hand { replies } = hand;
        lists.push(Sequence::from_vec(replies))?;
    }
    Ok(Sequence::from_vec(lists))
}
