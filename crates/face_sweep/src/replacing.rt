//! Elements of a vector replaced by others.
ghost use Rattle.std.specs.Prelude.{◌≡◌, ◌≤◌, ◌+◌, ◌++◌, OnOk, drop, length, take};

use std::alloc::{AllocError, Global};

/// How many elements at most are taken out or put in one by one.
const FEW: usize = 8;

/// Replaces the elements from `from` up to `to` by others.
///
/// # Errors
///
/// `AllocError`, if an allocation fails.
///
/// # Cost
///
/// As many as there are on both sides are overwritten. Where more elements go than come, or fewer, those behind
/// them are moved: once for each, if they are few, and else twice in all.
pub(crate) fn replace<T: Copy>(
    alloc: Global,
    list: &mut Vec<T>,
    from: usize,
    to: usize,
    others: &[T],
) -> Result<(), AllocError>
    requires order { from ≤ to }
    requires bound { to ≤ length list.old.items }
    ensures { OnOk result (list.new.items ≡ take from list.old.items ++ others.now ++ drop to list.old.items) }
{
    if differ_by_many(others.len(), to - from) {
        replace_all(alloc, list, from, to, others)?;
    } else {
        replace_few(list, from, to, others)?;
    }
    Ok(())
}

/// Returns whether one count is greater than the other by more than a few.
fn differ_by_many(first: usize, second: usize) -> bool {
    first.max(second) - first.min(second) > FEW
}

/// Replaces the elements from `from` up to `to` by others, with a copy of those behind them.
fn replace_all<T: Copy>(
    alloc: Global,
    list: &mut Vec<T>,
    from: usize,
    to: usize,
    others: &[T],
) -> Result<(), AllocError>
    requires order { from ≤ to }
    requires bound { to ≤ length list.old.items }
    ensures { OnOk result (list.new.items ≡ take from list.old.items ++ others.now ++ drop to list.old.items) }
{
    let mut behind = Vec::new(alloc);
    behind.extend_from_slice(&list[to..])?;
    list.truncate(from);
    list.extend_from_slice(others)?;
    list.extend_from_slice(behind.as_slice())?;
    Ok(())
}

/// Replaces the elements from `from` up to `to` by others, of which there are about as many.
fn replace_few<T: Copy>(
    list: &mut Vec<T>,
    from: usize,
    to: usize,
    others: &[T],
) -> Result<(), AllocError>
    requires order { from ≤ to }
    requires bound { to ≤ length list.old.items }
    ensures { OnOk result (list.new.items ≡ take from list.old.items ++ others.now ++ drop to list.old.items) }
{
    let common = others.len().min(to - from);
    overwrite(list, from, &others[..common]);
    take_out(list, from + common, to);
    put_in(list, from + common, &others[common..])?;
    Ok(())
}

/// Writes the others over the elements from `from` on.
fn overwrite<T: Copy>(list: &mut Vec<T>, from: usize, others: &[T])
    requires { from + length others.now ≤ length list.old.items }
    ensures { list.new.items
        ≡ take from list.old.items ++ others.now ++ drop (from + length others.now) list.old.items }
{
    for index in 0..others.len() {
        list[from + index] = others[index];
    }
}

/// Takes out the elements from `from` up to `to`.
fn take_out<T: Copy>(list: &mut Vec<T>, from: usize, to: usize)
    requires order { from ≤ to }
    requires bound { to ≤ length list.old.items }
    ensures { list.new.items ≡ take from list.old.items ++ drop to list.old.items }
{
    for _ in from..to {
        list.remove(from);
    }
}

/// Puts the others in before the element at `at`.
fn put_in<T: Copy>(list: &mut Vec<T>, at: usize, others: &[T]) -> Result<(), AllocError>
    requires { at ≤ length list.old.items }
    ensures { OnOk result (list.new.items ≡ take at list.old.items ++ others.now ++ drop at list.old.items) }
{
    for index in 0..others.len() {
        list.insert(at + index, others[index])?;
    }
    Ok(())
}
