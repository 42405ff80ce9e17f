//! The numbers of centres by rows.
ghost use Rattle.std.specs.Prelude.{◌≡◌, ◌↔◌, ℕ, ◌+◌, ◌*◌, ◌<◌, ◌-◌, ◌^◌, ◌+ℤ◌, pos, Contains, IfOk, Some, length, map, slice_get, slice_index_or};
ghost use Rattle.std.specs.List.{range_with_len};
ghost use Rattle.lay_point.specs.Points.{IsBefore};
ghost use Rattle.lay_point.specs.Rising.{IsRising};
ghost use Rattle.snap_pixels.specs.Coordinates.{from_least};
ghost use Rattle.snap_slabs.specs.Runs.{HaveRows, IsRowBefore, centres_at, number_of, row_key};

use lay_point::Point;
use snap_pixels::{from_least, sort_in_threads, sort_once};
use std::alloc::{AllocError, Global};
use std::thread::Threads;

/// Returns the numbers of the centres by rows upward, in a row from right to left. They are sorted in as many
/// threads as there are processors.
pub(crate) fn rows_of(
    rt: &(impl Threads + Sync),
    alloc: Global,
    centres: &[Point],
) -> Result<Vec<u32>, AllocError>
    requires rising { IsRising IsBefore centres.now }
    requires few { length centres.now < 2 ^ 32 }
    ensures by_row { IfOk result (λ rows. IsRising IsRowBefore (centres_at centres.now rows.items)) }
    ensures members { IfOk result (λ rows. (i : ℕ) → Contains rows.items i ↔ i < length centres.now) }
{
    let mut keys = row_keys(alloc, centres)?;
    sort_in_threads(rt, keys.as_mut_slice());
    sort_once(&mut keys);
    let rows = numbers_of(alloc, keys.as_slice())?;
    Ok(rows)
}

/// Returns the keys of the centres.
fn row_keys(alloc: Global, centres: &[Point]) -> Result<Vec<u64>, AllocError>
    requires few { length centres.now < 2 ^ 32 }
    ensures keys { IfOk result (λ keys. keys.items ≡ map (row_key centres.now) (range_with_len 0 (length centres.now))) }
    ensures rows { IfOk result (λ keys. HaveRows centres.now) }
{
    let mut keys = Vec::with_capacity(alloc, centres.len())?;
    for (number, centre) in centres.iter().enumerate() {
        keys.push(key_of(*centre, number as u32))?;
    }
    Ok(keys)
}

/// Returns the key of the centre of this number. Keys are in the order of rows, in a row from greater numbers to lesser.
fn key_of(centre: Point, number: u32) -> u64
    ensures value { result ≡ from_least centre.y * 4294967296 + (4294967295 - number) }
    ensures row { pos (from_least centre.y) ≡ centre.y +ℤ pos 2147483648 }
{
    from_least(centre.y) * 4_294_967_296 + u64::from(u32::MAX - number)
}

/// Returns the numbers of the keys.
fn numbers_of(alloc: Global, keys: &[u64]) -> Result<Vec<u32>, AllocError>
    ensures { IfOk result (λ numbers. numbers.items ≡ map number_of keys.now) }
{
    let mut numbers = Vec::with_capacity(alloc, keys.len())?;
    for key in keys {
        numbers.push(u32::MAX - (*key % 4_294_967_296) as u32)?;
    }
    Ok(numbers)
}

/// Returns where each number is in the rows, of so many numbers.
pub(crate) fn places_of(alloc: Global, rows: &[u32], count: usize) -> Result<Vec<u32>, AllocError>
    requires inside { (i : ℕ) → Contains rows.now i → i < count }
    requires few { length rows.now < 2 ^ 32 }
    ensures as_many { IfOk result (λ places. length places.items ≡ count) }
    ensures placed { IfOk result (λ places. (i : ℕ) → Contains rows.now i
        → slice_get rows.now (slice_index_or places.items i 0) ≡ Some i) }
{
    let mut places = vec![in alloc; 0; count]?;
    for (place, number) in rows.iter().enumerate() {
        places[*number as usize] = place as u32;
    }
    Ok(places)
}

/// Returns the centres of these numbers.
pub(crate) fn centres_of(
    alloc: Global,
    centres: &[Point],
    numbers: &[u32],
) -> Result<Vec<Point>, AllocError>
    requires { (i : ℕ) → Contains numbers.now i → i < length centres.now }
    ensures { IfOk result (λ points. points.items ≡ centres_at centres.now numbers.now) }
{
    let mut points = Vec::with_capacity(alloc, numbers.len())?;
    for number in numbers {
        points.push(centres[*number as usize])?;
    }
    Ok(points)
}
