//! Trees of numbers, which are united.
ghost use Rattle.std.specs.Prelude.{◌≡◌, ◌<◌, IfOk, length, slice_index, ℕ};
ghost use Rattle.face_rings.specs.Forest.{IsForest, root_of, united};

use std::alloc::{AllocError, Global};

/// Returns the numbers below `count`, each its own parent.
pub(crate) fn lone(alloc: Global, count: usize) -> Result<Vec<usize>, AllocError>
    ensures len { IfOk result (λ all. length all.items ≡ count) }
    ensures each { IfOk result (λ all. (k : ℕ) → k < count → slice_index all.items k ≡ k) }
{
    let mut all = Vec::with_capacity(alloc, count)?;
    for number in 0..count {
        all.push(number)?;
    }
    Ok(all)
}

/// Returns the first number of the tree. Each number on the way gets its parent's parent.
pub(crate) fn root(parents: &mut [usize], number: usize) -> usize
    requires forest { IsForest parents.old }
    requires inside { number < length parents.old }
    ensures value { result ≡ root_of parents.old number }
    ensures inside { result < length parents.old }
    ensures forest { IsForest parents.new }
    ensures kept { (k : ℕ) → k < length parents.old → root_of parents.new k ≡ root_of parents.old k }
{
    let mut at = number;
    while parents[at] != at {
        let next = parents[parents[at]];
        parents[at] = next;
        at = next;
    }
    at
}

/// Makes one tree of those of two numbers.
pub(crate) fn unite(parents: &mut [usize], i: usize, j: usize)
    requires forest { IsForest parents.old }
    requires first { i < length parents.old }
    requires second { j < length parents.old }
    ensures forest { IsForest parents.new }
    ensures united { (k : ℕ) → k < length parents.old
        → root_of parents.new k ≡ united (root_of parents.old i) (root_of parents.old j) (root_of parents.old k) }
{
    let first = root(parents, i);
    let second = root(parents, j);
    parents[first.max(second)] = first.min(second);
}

/// Gives each number the first one of its tree for its parent.
pub(crate) fn settle(parents: &mut [usize])
    requires { IsForest parents.old }
    ensures { (k : ℕ) → k < length parents.old → slice_index parents.new k ≡ root_of parents.old k }
{
    for number in 0..parents.len() {
        parents[number] = parents[parents[number]];
    }
}
