//! Sorts in threads, and of numbers.
ghost use Rattle.std.specs.Prelude.{◌≡◌, ◌↔◌, ℕ, Contains, length};
ghost use Rattle.std.specs.List.Sorted.{IsPermutation, IsSorted, IsStrictlyIncreasing};

use rayon::slice::par_sort_unstable;
use std::thread::Threads;

/// Fewer elements than this are sorted sooner than the processors are counted.
const LEAST: usize = 4096;

/// Returns the elements in order: sorted by [`sort_in_threads`].
pub fn sorted_in_threads<T: Ord + Send>(rt: &(impl Threads + Sync), elements: Vec<T>) -> Vec<T>
    ensures permutation { IsPermutation elements.items result.items }
    ensures sorted { IsSorted T.cmp result.items }
{
    let mut elements = elements;
    sort_in_threads(rt, elements.as_mut_slice());
    elements
}

/// Sorts the elements, if there are many in as many threads as there are processors. Equal ones may change places.
///
/// # Cost
///
/// That of a sort.
pub fn sort_in_threads<T: Ord + Send>(rt: &(impl Threads + Sync), elements: &mut [T])
    ensures permutation { IsPermutation elements.old elements.new }
    ensures len { length elements.new ≡ length elements.old }
    ensures sorted { IsSorted T.cmp elements.new }
{
    if elements.len() < LEAST {
        elements.sort_unstable();
    } else {
        par_sort_unstable(rt, elements);
    }
}

/// Sorts the numbers and removes repeats. Those that are sorted already take one pass.
///
/// # Cost
///
/// That of a sort.
pub fn sort_once(numbers: &mut Vec<u64>)
    ensures increasing { IsStrictlyIncreasing numbers.new.items }
    ensures members { (k : ℕ) → Contains numbers.new.items k ↔ Contains numbers.old.items k }
{
    numbers.sort_unstable();
    numbers.dedup();
}
