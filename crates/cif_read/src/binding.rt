//! Binding of calls at the end of a text.
ghost use Rattle.std.specs.Prelude.{◌≡◌, ◌⊎◌, ◌↔◌, All, Err, IfOk, IfSome, IsNone, IsTrue, MatchOption, map};
ghost use Rattle.lay_cells.specs.Symbols.{has_cell};
ghost use Rattle.lay_cells.specs.Walks.{IsAcyclic, IsFirstCycle};
ghost use Rattle.cif_read.specs.Binding.{IsBound, IsBoundAs, IsFirstUnbound, edge_of};
ghost use Rattle.cif_read.specs.Kept.{IsKept};
ghost use Rattle.cif_read.specs.Meaning.{no_memory};

use crate::content::{Content, Pending};
use crate::fault::{CifFault, FaultKind};
use crate::file::CifFile;
use lay_cells::{CallGraph, Cells};
use lay_point::NoMemory;
use std::alloc::Global;

/// Returns the file with all calls bound, or the first fault of them.
///
/// # Errors
///
/// `NoSymbol` at the first call of a symbol that has no definition, then `Cycle` at the first call that closes a
/// cycle; `OutOfMemory`, if an allocation fails.
pub fn bound(alloc: Global, content: Content) -> Result<CifFile, CifFault>
    requires { IsKept content }
    ensures { (result ≡ Err no_memory) ⊎ IsBoundAs content result }
{
    let calls = content.calls.as_slice();
    if let Some(index) = first_unbound(&content.symbols, calls) {
        return Err(CifFault {
            kind: FaultKind::NoSymbol,
            offset: calls[index].offset,
        });
    }
    if let Some(index) = first_cycle(alloc, &content.symbols, calls)? {
        return Err(CifFault {
            kind: FaultKind::Cycle,
            offset: calls[index].offset,
        });
    }
    Ok(CifFile {
        symbols: content.symbols,
        elements: content.elements,
        extensions: content.extensions,
        dropped: content.dropped,
    })
}

/// Returns the index of the first call whose symbol isn't defined.
fn first_unbound(symbols: &Cells, calls: &[Pending]) -> Option<usize>
    ensures { MatchOption result (All (IsBound symbols.now) calls.now) (IsFirstUnbound symbols.now calls.now) }
{
    for (index, call) in calls.iter().enumerate() {
        if symbols.position(call.target).is_none() {
            return Some(index);
        }
    }
    None
}

/// Returns the index of the first call that closes a cycle.
fn first_cycle(alloc: Global, symbols: &Cells, calls: &[Pending]) -> Result<Option<usize>, NoMemory>
    requires bound { All (IsBound symbols.now) calls.now }
    requires placed { All (λ c. IsTrue (has_cell symbols.now c.caller)) calls.now }
    ensures acyclic { IfOk result (λ first. IsNone first ↔ IsAcyclic (map edge_of calls.now)) }
    ensures first { IfOk result (λ first. IfSome first (IsFirstCycle (map edge_of calls.now))) }
{
    let mut graph = CallGraph::new(alloc, symbols)?;
    for call in calls {
        graph.add(call.caller, call.target)?;
    }
    graph.first_cycle(alloc)
}
