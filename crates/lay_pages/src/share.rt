//! Lists of shared lists: what is put behind them in parts, and in place of one of them.
//!
//! Of more than 64 elements half stay in the first part, but 64 where the last ones are new: with 64
//! in each case, keys that come in falling order would leave a page for each entry.
ghost use Rattle.std.specs.Prelude.{◌≡◌, ◌++◌, ◌<◌, ◌≤◌, ◌+◌, [], ◌∷◌, IfOk, OnOk, length, take, drop};
ghost use Rattle.lay_pages.specs.Shared.{items_of, page_parts};

use std::alloc::{AllocError, Global};
use std::sync::Arc;

/// Returns the lists with elements in place of one of them, in parts as `push_parts` puts them. All others are
/// shared.
///
/// # Cost
///
/// A pass over the lists.
pub(crate) fn spliced<T: Drop>(
    alloc: Global,
    lists: &[Arc<Vec<T>>],
    at: usize,
    elements: Vec<T>,
    grows: bool,
) -> Result<Vec<Arc<Vec<T>>>, AllocError>
    requires in_range { at < length lists.now }
    requires few { length elements.items ≤ 128 }
    ensures { IfOk result (λ new. items_of new.items
        ≡ take at (items_of lists.now) ++ (page_parts grows elements.items ++ drop (at + 1) (items_of lists.now))) }
{
    let mut new = Vec::with_capacity(alloc, lists.len().saturating_add(1))?;
    append(&mut new, &lists[..at])?;
    push_parts(alloc, &mut new, elements, grows)?;
    append(&mut new, &lists[at + 1..])?;
    Ok(new)
}

/// Appends shares of the lists.
fn append<T: Drop>(new: &mut Vec<Arc<Vec<T>>>, lists: &[Arc<Vec<T>>]) -> Result<(), AllocError>
    ensures { OnOk result (items_of new.new.items ≡ items_of new.old.items ++ items_of lists.now) }
{
    for list in lists {
        new.push(Arc::try_clone(list)?)?;
    }
    Ok(())
}

/// Puts the elements behind the lists, in parts of up to 64: none, one, or two where there are more. The first of
/// two has 64 where the lists grow at their end, and else half of all. Where that runs out of memory, some may be
/// there.
pub(crate) fn push_parts<T: Drop>(
    alloc: Global,
    lists: &mut Vec<Arc<Vec<T>>>,
    mut elements: Vec<T>,
    grows: bool,
) -> Result<(), AllocError>
    requires { length elements.items ≤ 128 }
    ensures { OnOk result (items_of lists.new.items ≡ items_of lists.old.items ++ page_parts grows elements.items) }
{
    if elements.is_empty() {
        return Ok(());
    }
    if elements.len() > 64 {
        let first = if grows { 64 } else { elements.len() / 2 };
        let rest = elements.split_off(first)?;
        push_list(alloc, lists, elements)?;
        push_list(alloc, lists, rest)?;
    } else {
        push_list(alloc, lists, elements)?;
    }
    Ok(())
}

/// Puts a list behind the lists.
pub(crate) fn push_list<T: Drop>(
    alloc: Global,
    lists: &mut Vec<Arc<Vec<T>>>,
    list: Vec<T>,
) -> Result<(), AllocError>
    ensures { OnOk result (items_of lists.new.items ≡ items_of lists.old.items ++ (list.items ∷ [])) }
{
    lists.push(shared(alloc, list)?)?;
    Ok(())
}

/// Returns the list, shared.
fn shared<T: Drop>(alloc: Global, list: Vec<T>) -> Result<Arc<Vec<T>>, AllocError>
    ensures { IfOk result (λ new. new.value.items ≡ list.items) }
{
    Ok(Arc::new(alloc, list)?)
}
