//! The workers' labels as one list.
ghost use Rattle.std.specs.Prelude.{◌≡◌, false, Ok, IfOk, length, replicate};
ghost use Rattle.band_workers.specs.Written.{AreNumbersBelow, ArePartsBelow, with_labels, with_parts};

use crate::scoped_bands::Labels;
use lay_point::NoMemory;
use std::alloc::Global;

/// Returns so many labels, each of those that the workers give back at its number, or that one was out of memory.
/// One that isn't given is false.
pub(crate) fn written(
    alloc: Global,
    count: usize,
    parts: Vec<Labels>,
) -> Result<Vec<bool>, NoMemory>
    requires { ArePartsBelow count parts.items }
    ensures { IfOk result (λ labels. with_parts (replicate count false) parts.items ≡ Ok labels.items) }
{
    let mut labels = vec![in alloc; false; count]?;
    for part in parts {
        let part = part?;
        write(&mut labels, part.as_slice());
    }
    Ok(labels)
}

/// Writes each label at its number.
fn write(labels: &mut Vec<bool>, numbered: &[(usize, bool)])
    requires { AreNumbersBelow (length labels.old.items) numbered.now }
    ensures len { length labels.new.items ≡ length labels.old.items }
    ensures labels { labels.new.items ≡ with_labels labels.old.items numbered.now }
{
    let mut rest = numbered;
    while let Some(((number, label), after)) = rest.split_first() {
        labels[*number] = *label;
        rest = after;
    }
}
