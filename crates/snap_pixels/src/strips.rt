//! Strips into which a list of segments is divided, and the segments in each.
ghost use Rattle.std.specs.Prelude.{
  ◌≡◌,
  ◌⊎◌,
  ◌+◌,
  ◌<◌,
  ◌≤◌,
  [],
  Contains,
  IfOk,
  OnOk,
  length,
  map,
  max,
  min,
  ℕ,
};
ghost use Rattle.snap_pixels.specs.declared.segment.Segment.{Segment};
ghost use Rattle.snap_pixels.specs.Strips.{
  AreStripLists,
  strip_list,
  strip_number,
  strip_of_a,
  strip_of_b,
};

use crate::counts::Counts;
use crate::kind::Kind;
use crate::measure::Measure;
use crate::segment::Segment;
use std::alloc::{AllocError, Global};

/// Strips of places that are as far as each other but for 2^shift. The first and the last one have all places
/// before them and behind them.
#[derive(Clone, Copy, Debug)]
pub(crate) struct Strips {
    pub measure: Measure,
    /// Where the first strip begins.
    pub from: i64,
    /// The bits of a strip's width.
    pub shift: u32,
    /// The number of the last strip.
    pub last: usize,
}

impl Strips {
    /// Returns the number of the strip that holds the places so far away.
    fn number(self, at: i64) -> usize
        ensures value { result ≡ strip_number self at }
        ensures within { result ≤ self.last }
    {
        if at <= self.from {
            return 0;
        }
        (at.abs_diff(self.from).wrapping_shr(self.shift) as usize).min(self.last)
    }

    /// Returns the numbers of the first strip and the last one that the segment is in.
    fn numbers(self, segment: &Segment) -> (usize, usize)
        ensures first { result.0 ≡ min (strip_of_a self segment.now) (strip_of_b self segment.now) }
        ensures last { result.1 ≡ max (strip_of_a self segment.now) (strip_of_b self segment.now) }
        ensures within { result.1 ≤ self.last }
    {
        let a = self.number(self.measure.of(segment.a()));
        let b = self.number(self.measure.of(segment.b()));
        (a.min(b), a.max(b))
    }

    /// Returns where the strip of this number begins and ends, as far as coordinates go.
    pub fn ends(self, number: usize) -> (i32, i32) {
        let width = 1i64.wrapping_shl(self.shift);
        let number = i64::try_from(number).unwrap_or(i64::MAX);
        let low = width.saturating_mul(number).saturating_add(self.from);
        let high = low.saturating_add(width);
        (coordinate_near(low), coordinate_near(high))
    }

    /// Returns the counts of the segments that are in each strip.
    ///
    /// # Errors
    ///
    /// `AllocError`, if an allocation fails.
    pub fn counts(self, alloc: Global, segments: &[Segment]) -> Result<Vec<Counts>, AllocError> {
        let mut counts = Vec::new(alloc);
        counts.resize(self.last.saturating_add(1), Counts::none())?;
        for segment in segments {
            let kind = Kind::of(segment);
            let (first, last) = self.numbers(segment);
            count_in(&mut counts, kind, first, last);
        }
        Ok(counts)
    }

    /// Returns the lists of the segments that are in each strip, in their order. They have room for so many as
    /// were counted.
    ///
    /// # Errors
    ///
    /// `AllocError`, if an allocation fails.
    pub fn lists(
        self,
        alloc: Global,
        counts: &[Counts],
        segments: &[Segment],
    ) -> Result<Vec<Vec<Segment>>, AllocError>
        ensures { IfOk result (λ lists. AreStripLists self segments.now (map (λ list. list.items) lists.items)) }
    {
        let mut lists = empty_lists(alloc, counts, self.last)?;
        for segment in segments {
            let (first, last) = self.numbers(segment);
            put(&mut lists, segment, first, last)?;
        }
        Ok(lists)
    }
}

/// Counts one more of the kind in each of these strips.
fn count_in(counts: &mut Vec<Counts>, kind: Kind, first: usize, last: usize) {
    for number in first..last.saturating_add(1) {
        if let Some(count) = counts.get_mut(number) {
            *count = count.with(kind, 1);
        }
    }
}

/// Returns empty lists, the last of which has this number.
fn empty_lists(
    alloc: Global,
    counts: &[Counts],
    last: usize,
) -> Result<Vec<Vec<Segment>>, AllocError>
    ensures len { IfOk result (λ lists. last < length lists.items) }
    ensures none { IfOk result (λ lists. (k : ℕ) → length (strip_list (map (λ list. list.items) lists.items) k) ≡ 0) }
{
    let mut lists = Vec::with_capacity(alloc, counts.len())?;
    lists.push(empty_list(alloc, counts, 0)?)?;
    for number in 0..last {
        lists.push(empty_list(alloc, counts, number + 1)?)?;
    }
    Ok(lists)
}

/// Returns an empty list with room for as many segments as were counted at this number.
fn empty_list(alloc: Global, counts: &[Counts], number: usize) -> Result<Vec<Segment>, AllocError>
    ensures { IfOk result (λ list. list.items ≡ []) }
{
    let many = counts.get(number).map_or(0, |count: &Counts| count.all());
    let list = Vec::with_capacity(alloc, many)?;
    Ok(list)
}

/// Adds the segment to the lists of these numbers.
fn put(
    lists: &mut Vec<Vec<Segment>>,
    segment: &Segment,
    first: usize,
    last: usize,
) -> Result<(), AllocError>
    requires { last < length lists.old.items }
    ensures len { OnOk result (length lists.new.items ≡ length lists.old.items) }
    ensures own { OnOk result ((k : ℕ) (t : Segment)
        → Contains (strip_list (map (λ list. list.items) lists.new.items) k) t
        → Contains (strip_list (map (λ list. list.items) lists.old.items) k) t ⊎ (segment.now ≡ t)) }
    ensures kept { OnOk result ((k : ℕ) (t : Segment)
        → Contains (strip_list (map (λ list. list.items) lists.old.items) k) t
        → Contains (strip_list (map (λ list. list.items) lists.new.items) k) t) }
    ensures added { OnOk result ((k : ℕ) → first ≤ k → k ≤ last
        → Contains (strip_list (map (λ list. list.items) lists.new.items) k) segment.now) }
{
    for number in first..last + 1 {
        lists[number].push(*segment)?;
    }
    Ok(())
}

/// Returns the coordinate next to the number.
fn coordinate_near(at: i64) -> i32 {
    at.clamp(i64::from(i32::MIN), i64::from(i32::MAX)) as i32
}
