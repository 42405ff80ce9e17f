//! The edges of a row, from left to right.
ghost use Rattle.std.specs.Prelude.{◌≡◌, All, IfOk, map};
ghost use Rattle.face_rows.specs.Crossings.{IsCrossingOf, crossing_numbers};
ghost use Rattle.face_rows.specs.Rows.{AreRowEdges};

use crate::crossing::Crossing;
use crate::directed::crosses_row;
use lay_point::{Edge, NoMemory};
use snap_chains::CleanEdges;
use std::alloc::{AllocError, Global};

/// Returns the numbers of the edges that cross the height `row + 1/2`, from left to right. Takes
/// time n + m log m, where m of the n edges cross it.
///
/// # Errors
///
/// `NoMemory`, if an allocation fails.
pub fn row_edges(alloc: Global, edges: &CleanEdges, row: i32) -> Result<Vec<usize>, NoMemory>
    ensures { IfOk result (λ numbers. AreRowEdges edges.now.0 row numbers.items) }
{
    let mut crossings = crossings(alloc, edges.edges(), row)?;
    crossings.sort_unstable_by(|first: &Crossing, second: &Crossing| first.compare(*second));
    let numbers = numbers_of(alloc, crossings.as_slice())?;
    Ok(numbers)
}

/// Returns where the edges cross the row, in the order of the edges.
fn crossings(alloc: Global, edges: &[Edge], row: i32) -> Result<Vec<Crossing>, AllocError>
    ensures numbers { IfOk result (λ crossings. map (λ c. c.number) crossings.items
        ≡ crossing_numbers row 0 edges.now) }
    ensures places { IfOk result (λ crossings. All (IsCrossingOf edges.now row) crossings.items) }
{
    let mut crossings = Vec::new(alloc);
    for number in 0..edges.len() {
        let edge = edges[number];
        if crosses_row(edge, row) {
            crossings.push(Crossing::new(edge, number, row))?;
        }
    }
    Ok(crossings)
}

/// Returns the numbers of the edges that cross there.
fn numbers_of(alloc: Global, crossings: &[Crossing]) -> Result<Vec<usize>, AllocError>
    ensures { IfOk result (λ numbers. numbers.items ≡ map (λ c. c.number) crossings.now) }
{
    let mut numbers = Vec::with_capacity(alloc, crossings.len())?;
    for crossing in crossings {
        numbers.push(crossing.number)?;
    }
    Ok(numbers)
}
