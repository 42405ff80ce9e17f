//! The writing of a comment and a layout. All that takes memory comes before the first byte.
ghost use Rattle.std.specs.Prelude.{◌≡◌, ◌++◌, IfOk, OnErr, OnOk};
ghost use Rattle.byte_io.specs.Device.{WroteAll, WrotePrefix};
ghost use Rattle.live_run.specs.Said.{IsShownIn, shown_named, shown_text};

use crate::live::Answer;
use crate::showing::{View, seen, shown};
use byte_io::{Out, OutFault, put_all};
use cif_names::Names;
use cif_write::Prepared;
use lay_items::Snapshot;
use lay_point::NoMemory;
use std::alloc::Global;

/// Returns what is seen of the layout, where the answer wants it.
pub(crate) fn seen_in(
    alloc: Global,
    answer: &Answer,
    view: &View,
    layout: &Snapshot,
) -> Result<Option<Snapshot>, NoMemory>
    ensures { IfOk result (IsShownIn answer.now.is_layout_wanted view.now layout.now) }
{
    if !answer.is_layout_wanted {
        return Ok(None);
    }
    Ok(Some(seen(alloc, view.oriented, layout)?.layout))
}

/// Returns the comment, and what of the layout is written behind it, if one is shown: bytes, and then a text.
pub(crate) fn shown_in<'s>(
    alloc: Global,
    names: &Option<Names>,
    comment: Vec<u8>,
    seen: &'s Option<Snapshot>,
) -> Result<(Vec<u8>, Option<Prepared<'s>>), NoMemory>
    ensures { IfOk result (λ r. r.0.items ++ shown_text r.1 ≡ comment.items ++ shown_named names.now seen.now) }
{
    match seen {
        Some(layout) => shown(alloc, names, comment, layout),
        None => Ok((comment, None)),
    }
}

/// Writes the bytes, and the text of the layout behind them, if there is one.
pub(crate) fn put_shown<O: Out>(
    out: &mut O,
    bytes: &[u8],
    layout: Option<Prepared<'_>>,
) -> Result<(), OutFault>
    ensures ok { OnOk result (WroteAll O.written O.failures out.old out.new (bytes.now ++ shown_text layout.entry)) }
    ensures fault { OnErr result (WrotePrefix O.written O.failures out.old out.new (bytes.now ++ shown_text layout.entry)) }
{
    put_all(out, bytes)?;
    match layout {
        Some(layout) => layout.put(out),
        None => Ok(()),
    }
}
