//! How a layout is shown, in a live run and at the end of a job: with the names and labels of the text that was read, and with
//! its shapes directed.
ghost use Rattle.std.specs.Prelude.{◌≡◌, ◌++◌, IfOk, OnErr, OnOk, Some, false};
ghost use Rattle.byte_io.specs.Device.{WroteAll, WrotePrefix};
ghost use Rattle.cif_names.specs.Woven.{with_names};
ghost use Rattle.live_run.specs.Said.{shown_named, shown_text};
ghost use Rattle.live_run.specs.Shown.{
  IsShown,
  IsShownNaming,
  layout_text,
  left_out_of,
  text_named,
  names_for,
  names_when,
  text_with,
  view_of,
};

use byte_io::{Failing, MemoryOut, Out, OutFault};
use cif_names::{Names, with_names};
use cif_write::{Prepared, Rectangles, prepare};
use lay_items::Snapshot;
use lay_oriented::{Directed, oriented_layout};
use lay_point::NoMemory;
use std::alloc::Global;

/// What a run is asked to show of its layout.
#[derive(Clone, Copy, Debug, PartialEq, Eq)]
pub struct Showing {
    /// Whether each symbol is written with the names and labels that it had in the text that was read, and told by its name.
    pub named: bool,
    /// Whether each shape is written by a path that readers by winding number and readers by parity see alike, as far as one
    /// is found.
    pub oriented: bool,
}

/// How a run shows its layout.
#[derive(Debug, Drop)]
pub struct View {
    /// The names and labels of the text that was read, where they are shown.
    pub(crate) names: Option<Names>,
    /// Whether shapes are directed.
    pub(crate) oriented: bool,
}

impl View {
    /// Returns how a layout is shown that was read from this text.
    pub(crate) fn of(alloc: Global, showing: Showing, cif: &[u8]) -> Result<View, NoMemory>
        ensures { IfOk result (λ view. view ≡ view_of showing cif.now) }
    {
        Ok(View {
            names: names_when(alloc, showing.named, cif)?,
            oriented: showing.oriented,
        })
    }

    /// Returns how many of the text's names and labels are left out, where they are shown.
    pub(crate) fn left_out(&self) -> usize
        ensures { result ≡ left_out_of self.now.names }
    {
        match &self.names {
            Some(names) => names.left_out(),
            None => 0,
        }
    }
}

/// Returns the names and labels of the text, where they are asked for.
///
/// # Errors
///
/// `NoMemory`, if an allocation fails.
///
/// # Cost
///
/// Linear in the text.
pub fn names_when(alloc: Global, named: bool, text: &[u8]) -> Result<Option<Names>, NoMemory>
    ensures { IfOk result (λ names. names ≡ names_when named text.now) }
{
    if !named {
        return Ok(None);
    }
    Ok(Some(Names::of(alloc, text)?))
}

/// Returns those of the names and labels whose symbols are in the layout, and those of no symbol.
///
/// # Errors
///
/// `NoMemory`, if an allocation fails.
///
/// # Cost
///
/// That of `Names::within`.
pub fn names_for(
    alloc: Global,
    names: &Option<Names>,
    layout: &Snapshot,
) -> Result<Option<Names>, NoMemory>
    ensures { IfOk result (λ kept. kept ≡ names_for names.now layout.now) }
{
    match names {
        Some(names) => Ok(Some(names.within(alloc, layout.cells())?)),
        None => Ok(None),
    }
}

/// Returns what is seen of the layout: with its shapes directed, where that is asked for, and how many stay as they were; else
/// the layout itself.
///
/// # Errors
///
/// `NoMemory`, if an allocation fails.
///
/// # Cost
///
/// That of `oriented_layout`, where it is asked for.
pub(crate) fn seen(alloc: Global, oriented: bool, layout: &Snapshot) -> Result<Directed, NoMemory>
    ensures layout { IfOk result (λ directed. IsShown oriented layout.now directed.layout) }
    ensures noted { IfOk result (λ directed. IsShownNaming oriented layout.now directed.layout directed.staying directed.first.items) }
{
    if oriented {
        return oriented_layout(alloc, layout);
    }
    Ok(Directed {
        layout: layout.share(alloc)?,
        staying: 0,
        first: Vec::new(alloc),
    })
}

/// Returns the bytes and, where there are names and labels, behind them the text of the layout with those of its symbols; else
/// also the layout, whose text is written behind the bytes.
pub(crate) fn shown<'s>(
    alloc: Global,
    names: &Option<Names>,
    bytes: Vec<u8>,
    layout: &'s Snapshot,
) -> Result<(Vec<u8>, Option<Prepared<'s>>), NoMemory>
    ensures { IfOk result (λ r. r.0.items ++ shown_text r.1 ≡ bytes.items ++ text_named names.now layout.now) }
{
    let prepared = prepare(layout)?;
    match names_for(alloc, names, layout)? {
        Some(names) => Ok((with_text(alloc, bytes, &names, &prepared)?, None)),
        None => Ok((bytes, Some(prepared))),
    }
}

/// Returns the bytes, and behind them the text of the layout with the names and labels in it.
fn with_text(
    alloc: Global,
    bytes: Vec<u8>,
    names: &Names,
    layout: &Prepared<'_>,
) -> Result<Vec<u8>, NoMemory>
    ensures { IfOk result (λ all. all.items ≡ bytes.items ++ text_with (Some names.now) (layout_text false layout.now)) }
{
    let mut bytes = bytes;
    bytes.extend_from_slice(&named_bytes(alloc, false, names, layout)?)?;
    Ok(bytes)
}

/// Returns the text of the layout, with boxes where that is asked for, and with the names and labels in it.
///
/// # Errors
///
/// `NoMemory`, if an allocation fails.
///
/// # Cost
///
/// That of `with_names`, and memory for the text.
pub fn named_bytes(
    alloc: Global,
    boxed: bool,
    names: &Names,
    layout: &Prepared<'_>,
) -> Result<Vec<u8>, NoMemory>
    ensures { IfOk result (λ bytes. bytes.items ≡ text_with (Some names.now) (layout_text boxed layout.now)) }
{
    let text = text_of(alloc, layout, boxed)?;
    with_names(alloc, names, text.written())
}

/// Returns a device that holds the text of the layout.
fn text_of(alloc: Global, layout: &Prepared<'_>, boxed: bool) -> Result<MemoryOut, NoMemory>
    ensures { IfOk result (λ out. out.bytes.items ≡ layout_text boxed layout.now) }
{
    let mut out = MemoryOut::new(alloc, usize::MAX, usize::MAX, Failing::ByErr);
    put_layout(layout, boxed, &mut out).map_err(|_| NoMemory)?;
    Ok(out)
}

/// Writes the text of the layout, with boxes where that is asked for.
///
/// # Errors
///
/// `OutFault` at the first failure of the device; a prefix of the text was written then.
pub fn put_layout<O: Out>(layout: &Prepared<'_>, boxed: bool, out: &mut O) -> Result<(), OutFault>
    ensures ok { OnOk result (WroteAll O.written O.failures out.old out.new (layout_text boxed layout.now)) }
    ensures fault { OnErr result (WrotePrefix O.written O.failures out.old out.new (layout_text boxed layout.now)) }
{
    if boxed {
        return layout.put_as(out, Rectangles::Boxes);
    }
    layout.put(out)
}
