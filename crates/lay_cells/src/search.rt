//! A depth-first search of the cells that calls lead to.
ghost use Rattle.std.specs.Prelude.{◌≡◌, ℕ, ◌<◌, Contains, IfOk, OnOk, length};
ghost use Rattle.lay_cells.specs.Graph.{AreWithin, rows_of};
ghost use Rattle.lay_cells.specs.Marks.{AreReached, MarksAll};

use lay_point::NoMemory;
use std::alloc::Global;

/// Returns for each position whether a path of the rows leads there from `start`. Each position is pending
/// at most once.
pub(crate) fn reached(
    alloc: Global,
    rows: &Vec<Vec<usize>>,
    start: usize,
) -> Result<Vec<bool>, NoMemory>
    requires start { start < length (rows_of rows.now.items) }
    requires within { AreWithin (rows_of rows.now.items) }
    ensures { IfOk result (λ marks. AreReached (rows_of rows.now.items) start marks.items) }
{
    let mut marks = vec![in alloc; false; rows.len()]?;
    let mut pending = Vec::new(alloc);
    marks[start] = true;
    pending.push(start)?;
    while let Some(position) = pending.pop() {
        mark_all(rows[position].as_slice(), &mut marks, &mut pending)?;
    }
    Ok(marks)
}

/// Marks the targets, and lets those that were not marked be pending.
fn mark_all(
    targets: &[usize],
    marks: &mut Vec<bool>,
    pending: &mut Vec<usize>,
) -> Result<(), NoMemory>
    requires { (q : ℕ) → Contains targets.now q → q < length marks.old.items }
    ensures { OnOk result (MarksAll targets.now marks.old.items pending.old.items marks.new.items pending.new.items) }
{
    for target in targets {
        if !marks[*target] {
            marks[*target] = true;
            pending.push(*target)?;
        }
    }
    Ok(())
}
