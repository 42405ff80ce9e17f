//! Places of cells, callers before what they call.
ghost use Rattle.std.specs.Prelude.{◌≡◌, ◌<◌, IfOk, OnOk, length, map};
ghost use Rattle.lay_cells.specs.Graph.{AreWithin, rows_of};
ghost use Rattle.lay_cells.specs.Places.{AreBelow, ArePositions};

use lay_point::NoMemory;
use std::alloc::Global;

/// How far the search has come with a cell. A low is the turn in which the cell was opened, or that of an
/// earlier cell to which calls lead back. No clause speaks of marks, since the caller tests the places.
#[derive(Clone, Copy, Debug)]
enum Mark {
    /// It was not seen yet.
    New,
    /// It was opened, and cells that it calls are still to be seen.
    Open(usize),
    /// All that it calls was seen, and calls lead back to an earlier cell.
    Closed(usize),
    /// It has its place.
    Placed(usize),
}

impl Mark {
    /// Returns whether the cell was not seen yet.
    fn is_new(self) -> bool {
        match self {
            Mark::New => true,
            Mark::Open(_) | Mark::Closed(_) | Mark::Placed(_) => false,
        }
    }

    /// Returns the low of a cell without a place, or the greatest.
    fn low(self) -> usize {
        match self {
            Mark::Open(low) | Mark::Closed(low) => low,
            Mark::New | Mark::Placed(_) => usize::MAX,
        }
    }

    /// Returns the place of a cell, or 0 where it has none.
    fn place(self) -> usize {
        match self {
            Mark::Placed(place) => place,
            Mark::New | Mark::Open(_) | Mark::Closed(_) => 0,
        }
    }
}

/// Returns a place for each position: that of a caller is before that of what it calls, or the same where
/// calls lead back. It is Tarjan's search for strong components, which looks at each cell and each of the
/// calls once or twice. The clause leaves the places open, since the caller tests them.
pub(crate) fn callers_first(
    alloc: Global,
    rows: &Vec<Vec<usize>>,
    calls: usize,
) -> Result<Vec<usize>, NoMemory>
    requires { AreWithin (rows_of rows.now.items) }
    ensures { IfOk result (λ places. length places.items ≡ length rows.now.items) }
{
    let mut marks = vec![in alloc; Mark::New; rows.len()]?;
    let mut pending = positions(alloc, rows.len())?;
    let mut path = Vec::new(alloc);
    for turn in 0..rows.len().saturating_mul(2).saturating_add(calls) {
        if let Some(position) = pending.pop() {
            let row = rows[position].as_slice();
            visit(position, turn, row, &mut marks, &mut pending, &mut path)?;
        }
    }
    places_of(alloc, marks.as_slice())
}

/// Returns each position under a key, those of cells before those of their callers where that can be.
///
/// # Cost
///
/// That of `callers_first`, and a sort of the positions.
pub(crate) fn callees_first(
    alloc: Global,
    rows: &Vec<Vec<usize>>,
    calls: usize,
) -> Result<Vec<(usize, usize)>, NoMemory>
    requires { AreWithin (rows_of rows.now.items) }
    ensures { IfOk result (λ order. ArePositions (map (λ entry. entry.1) order.items) (length rows.now.items)) }
{
    let places = callers_first(alloc, rows, calls)?;
    let mut order = Vec::new(alloc);
    for (position, place) in places.iter().enumerate() {
        order.push((usize::MAX - *place, position))?;
    }
    order.sort_unstable();
    Ok(order)
}

/// Returns the positions below the end.
fn positions(alloc: Global, end: usize) -> Result<Vec<usize>, NoMemory>
    ensures { IfOk result (λ positions. AreBelow positions.items end) }
{
    let mut positions = Vec::new(alloc);
    for position in 0..end {
        positions.push(position)?;
    }
    Ok(positions)
}

/// Opens a new cell, and closes one that is open.
fn visit(
    position: usize,
    turn: usize,
    row: &[usize],
    marks: &mut Vec<Mark>,
    pending: &mut Vec<usize>,
    path: &mut Vec<usize>,
) -> Result<(), NoMemory>
    requires position { position < length marks.old.items }
    requires row { AreBelow row.now (length marks.old.items) }
    requires pending { AreBelow pending.old.items (length marks.old.items) }
    requires path { AreBelow path.old.items (length marks.old.items) }
    ensures len { OnOk result (length marks.new.items ≡ length marks.old.items) }
    ensures pending { OnOk result (AreBelow pending.new.items (length marks.old.items)) }
    ensures path { OnOk result (AreBelow path.new.items (length marks.old.items)) }
{
    match marks[position] {
        Mark::New => open(position, turn, row, marks, pending, path)?,
        Mark::Open(low) => close(position, turn, low, row, marks, path),
        Mark::Closed(_) | Mark::Placed(_) => {}
    }
    Ok(())
}

/// Opens a cell: it is pending again, to be closed, behind the new cells that it calls.
fn open(
    position: usize,
    turn: usize,
    row: &[usize],
    marks: &mut Vec<Mark>,
    pending: &mut Vec<usize>,
    path: &mut Vec<usize>,
) -> Result<(), NoMemory>
    requires position { position < length marks.old.items }
    requires row { AreBelow row.now (length marks.old.items) }
    requires pending { AreBelow pending.old.items (length marks.old.items) }
    requires path { AreBelow path.old.items (length marks.old.items) }
    ensures len { OnOk result (length marks.new.items ≡ length marks.old.items) }
    ensures pending { OnOk result (AreBelow pending.new.items (length marks.old.items)) }
    ensures path { OnOk result (AreBelow path.new.items (length marks.old.items)) }
{
    marks[position] = Mark::Open(turn);
    path.push(position)?;
    pending.push(position)?;
    push_new(row, marks, pending)?;
    Ok(())
}

/// Lets the new ones of these cells be pending.
fn push_new(row: &[usize], marks: &Vec<Mark>, pending: &mut Vec<usize>) -> Result<(), NoMemory>
    requires row { AreBelow row.now (length marks.now.items) }
    requires pending { AreBelow pending.old.items (length marks.now.items) }
    ensures { OnOk result (AreBelow pending.new.items (length marks.now.items)) }
{
    for target in row {
        if marks[*target].is_new() {
            pending.push(*target)?;
        }
    }
    Ok(())
}

/// Closes a cell. Where calls lead back to none before it, it has its place, with those behind it on the
/// path: the later the turn, the earlier the place.
fn close(
    position: usize,
    turn: usize,
    low: usize,
    row: &[usize],
    marks: &mut Vec<Mark>,
    path: &mut Vec<usize>,
)
    requires position { position < length marks.old.items }
    requires row { AreBelow row.now (length marks.old.items) }
    requires path { AreBelow path.old.items (length marks.old.items) }
    ensures len { length marks.new.items ≡ length marks.old.items }
    ensures path { AreBelow path.new.items (length marks.old.items) }
{
    let least = least_low(row, marks, low);
    if least < low {
        marks[position] = Mark::Closed(least);
    } else {
        place_from(position, usize::MAX - turn, marks, path);
    }
}

/// Returns the least low of these cells, or this one where it is less.
fn least_low(row: &[usize], marks: &Vec<Mark>, low: usize) -> usize
    requires { AreBelow row.now (length marks.now.items) }
{
    let mut least = low;
    for target in row {
        least = least.min(marks[*target].low());
    }
    least
}

/// Takes a cell and those behind it from the path, and gives them this place.
fn place_from(first: usize, place: usize, marks: &mut Vec<Mark>, path: &mut Vec<usize>)
    requires { AreBelow path.old.items (length marks.old.items) }
    ensures len { length marks.new.items ≡ length marks.old.items }
    ensures path { AreBelow path.new.items (length marks.old.items) }
{
    while let Some(position) = path.pop() {
        marks[position] = Mark::Placed(place);
        if position == first {
            break;
        }
    }
}

/// Returns the places that the marks tell.
fn places_of(alloc: Global, marks: &[Mark]) -> Result<Vec<usize>, NoMemory>
    ensures { IfOk result (λ places. length places.items ≡ length marks.now) }
{
    let mut places = Vec::new(alloc);
    for mark in marks {
        places.push(mark.place())?;
    }
    Ok(places)
}
