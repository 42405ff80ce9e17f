//! How deep the walks from a cell go, and how many there are.
ghost use Rattle.std.specs.Prelude.{◌≡◌, ℕ, [], ◌∷◌, ◌+◌, ◌^◌, ◌<◌, IfOk, IfSome, IsSome, None, length, map, max, replicate};
ghost use Rattle.lay_cells.specs.Graph.{AreWithin, row, rows_of};
ghost use Rattle.lay_cells.specs.Places.{AreBelow, ArePositions};
ghost use Rattle.lay_cells.specs.Tallies.{
  AreShallow,
  AreTallied,
  AreTallies,
  AreTargetsKnown,
  IsSum,
  IsTally,
};
ghost use Rattle.lay_cells.specs.Tallies.{counted, height_within, tally_at};

use lay_point::NoMemory;
use std::alloc::Global;

/// How many walks are counted: one more than a flattening may have.
pub const MAX_COUNTED_WALKS: usize = 65_537;

const _: () = prove!(MAX_COUNTED_WALKS == 65_537);

/// What is known of the walks from a cell.
#[derive(Clone, Copy, Debug)]
pub struct Tally {
    /// The calls of the longest.
    pub depth: usize,
    /// How many there are, as far as they are counted.
    pub walks: usize,
}

impl Tally {
    /// Returns the tally of a cell that calls nothing.
    fn uncalled() -> Tally
        ensures { result ≡ record { depth = 0; walks = 1 } }
    {
        Tally { depth: 0, walks: 1 }
    }

    /// Returns the tally of a cell that besides calls one with this tally.
    fn with(self, target: Tally) -> Tally
        requires depth { target.depth + 1 < 2 ^ 64 }
        requires walks { self.walks + target.walks < 2 ^ 64 }
        ensures { result ≡ record {
          depth = max self.depth (1 + target.depth);
          walks = counted (self.walks + target.walks);
        } }
    {
        Tally {
            depth: self.depth.max(1 + target.depth),
            walks: (self.walks + target.walks).min(MAX_COUNTED_WALKS),
        }
    }
}

/// Returns the tally of the cell at `start`. The order has all positions. Where each stands behind those of
/// the cells that it calls, each call is looked at once; else again in each round.
///
/// # Errors
///
/// `NoMemory`, if an allocation fails.
pub fn tallied(
    alloc: Global,
    rows: &Vec<Vec<usize>>,
    order: &[(usize, usize)],
    rounds: usize,
    start: usize,
) -> Result<Tally, NoMemory>
    requires start { start < length (rows_of rows.now.items) }
    requires within { AreWithin (rows_of rows.now.items) }
    requires order { ArePositions (map (λ entry. entry.1) order.now) (length rows.now.items) }
    requires bounded { (n p : ℕ) → height_within (rows_of rows.now.items) n p < rounds }
    ensures { IfOk result (IsTally (rows_of rows.now.items) start) }
{
    let mut tallies = no_tallies(alloc, rows.len())?;
    for _round in 0..rounds {
        if let Some(tally) = tally_at(&tallies, start) {
            return Ok(tally);
        }
        tally_all(rows, order, &mut tallies);
    }
    Ok(tally_at(&tallies, start).unwrap())
}

/// Returns so many tallies that aren't known yet.
fn no_tallies(alloc: Global, count: usize) -> Result<Vec<Option<Tally>>, NoMemory>
    ensures { IfOk result (λ tallies. tallies.items ≡ replicate count None) }
{
    let mut tallies = Vec::new(alloc);
    for _ in 0..count {
        tallies.push(None)?;
    }
    Ok(tallies)
}

/// Tallies the cells at these positions, in this order, of which all that they call is tallied.
fn tally_all(rows: &Vec<Vec<usize>>, order: &[(usize, usize)], tallies: &mut Vec<Option<Tally>>)
    requires whole { length tallies.old.items ≡ length (rows_of rows.now.items) }
    requires order { AreBelow (map (λ entry. entry.1) order.now) (length rows.now.items) }
    requires shallow { AreShallow (rows_of rows.now.items) }
    requires sound { AreTallies (rows_of rows.now.items) tallies.old.items }
    ensures { AreTallied (rows_of rows.now.items) tallies.old.items
        (map (λ entry. entry.1) order.now) tallies.new.items }
{
    for (_, position) in order {
        tally_one(rows, *position, tallies);
    }
}

/// Tallies the cell at a position, where it isn't tallied and all that it calls is.
fn tally_one(rows: &Vec<Vec<usize>>, position: usize, tallies: &mut Vec<Option<Tally>>)
    requires position { position < length (rows_of rows.now.items) }
    requires whole { length tallies.old.items ≡ length (rows_of rows.now.items) }
    requires shallow { AreShallow (rows_of rows.now.items) }
    requires sound { AreTallies (rows_of rows.now.items) tallies.old.items }
    ensures { AreTallied (rows_of rows.now.items) tallies.old.items (position ∷ []) tallies.new.items }
{
    if tally_at(tallies, position).is_none() {
        let tally = tally_of(rows, position, tallies);
        tallies[position] = tally;
    }
}

/// Returns the tally of the cell at a position, where all that it calls is tallied.
fn tally_of(rows: &Vec<Vec<usize>>, position: usize, tallies: &Vec<Option<Tally>>) -> Option<Tally>
    requires position { position < length (rows_of rows.now.items) }
    requires shallow { AreShallow (rows_of rows.now.items) }
    requires sound { AreTallies (rows_of rows.now.items) tallies.now.items }
    ensures sum { IfSome result (IsSum (rows_of rows.now.items) (row (rows_of rows.now.items) position)) }
    ensures all { AreTargetsKnown (rows_of rows.now.items) tallies.now.items position → IsSome result }
{
    let mut sum = Tally::uncalled();
    for target in rows[position].as_slice() {
        sum = sum.with(tally_at(tallies, *target)?);
    }
    Some(sum)
}

/// Returns the tally at a position, where there is one.
fn tally_at(tallies: &Vec<Option<Tally>>, position: usize) -> Option<Tally>
    ensures { result ≡ tally_at tallies.now.items position }
{
    tallies.get(position).copied().unwrap_or(None)
}
