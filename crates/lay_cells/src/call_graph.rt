//! The calls between the cells of a layout.
ghost use Rattle.std.specs.Prelude.{◌≡◌, ◌↔◌, ℕ, ◌+◌, ◌<◌, ◌++◌, ◌∷◌, [], Contains, IfOk, IfSome};
ghost use Rattle.std.specs.Prelude.{IsNone, IsTrue, OnErr, OnOk, length};
ghost use Rattle.std.specs.List.{list_all};
ghost use Rattle.lay_cells.specs.Graph.{position_of, row, rows_of, with_target};
ghost use Rattle.lay_cells.specs.Places.{AreOrdered, cell_place, goes_later, keeps_order};
ghost use Rattle.lay_cells.specs.Symbols.{has_cell};
ghost use Rattle.lay_cells.specs.Tallies.{counted};
ghost use Rattle.lay_cells.specs.WalkLists.{AreAllWalks, longest, walks_from};
ghost use Rattle.lay_cells.specs.Walks.{ClosesCycle, IsAcyclic, IsFirstCycle, Walks};

use crate::cell_id::CellId;
use crate::cells::Cells;
use crate::places::{callees_first, callers_first};
use crate::search::reached;
use crate::tally::{Tally, tallied};
use lay_point::NoMemory;
use std::alloc::Global;
use std::marker::Model;

/// The cells of a layout and the calls between them. Contracts see the list of the symbols' numbers, and
/// the list of the calls in the order in which they were added.
#[derive(Debug, Drop)]
pub struct CallGraph {
    symbols: Cells,
    calls: Vec<(CellId, u32)>,
    /// For each cell the positions of the cells that it calls: those of the symbols, then the top cell.
    targets: Vec<Vec<usize>>,
}

impl Model for CallGraph {
    ghost use Rattle.lay_cells.specs.Walks.{Calls};

    ghost Value = { Calls };

    ghost use Rattle.lay_cells.specs.Graph.{AreRowsOf, rows_of};

    ghost view = { λ g. record { symbols = g.symbols; calls = g.calls.items } };

    ghost invariant = { λ g. AreRowsOf g.symbols g.calls.items (rows_of g.targets.items) };
}

impl CallGraph {
    /// Returns the graph of these symbols and the top cell, without a call.
    ///
    /// # Errors
    ///
    /// `NoMemory`, if an allocation fails.
    ///
    /// # Cost
    ///
    /// A pass over the symbols.
    pub fn new(alloc: Global, symbols: &Cells) -> Result<CallGraph, NoMemory>
        ensures { IfOk result (λ graph. graph ≡ record { symbols = symbols.now; calls = [] }) }
    {
        Ok(CallGraph {
            symbols: symbols.clone()?,
            calls: Vec::new(alloc),
            targets: empty_rows(alloc, symbols)?,
        })
    }

    /// Adds a call of the symbol of this number that stands in `caller`.
    ///
    /// # Errors
    ///
    /// `NoMemory`, if an allocation fails; nothing is changed then.
    ///
    /// # Cost
    ///
    /// That of two look-ups in a hash table.
    pub fn add(&mut self, caller: CellId, target: u32) -> Result<(), NoMemory>
        requires caller { IsTrue (has_cell self.old.symbols caller) }
        requires target { IsTrue (has_cell self.old.symbols (CellId.Symbol target)) }
        ensures ok { OnOk result (self.new ≡ record self.old { calls = self.old.calls ++ (caller, target) ∷ [] }) }
        ensures err { OnErr result (self.new ≡ self.old) }
    {
        let from = position_of(&self.symbols, caller);
        let to = position_of(&self.symbols, CellId::Symbol(target));
        self.calls.reserve(1)?;
        add_to_row(&mut self.targets, from, to)?;
        self.calls.push((caller, target)).unwrap();
        Ok(())
    }

    /// Returns whether both are cells and a walk of calls leads from the first to the second. A cell leads to
    /// itself by no call.
    ///
    /// # Errors
    ///
    /// `NoMemory`, if an allocation fails.
    ///
    /// # Cost
    ///
    /// Each cell and each call is looked at once at most.
    pub fn reaches(&self, alloc: Global, from: CellId, to: CellId) -> Result<bool, NoMemory>
        ensures from { IfOk result (λ found. IsTrue found → IsTrue (has_cell self.now.symbols from)) }
        ensures to { IfOk result (λ found. IsTrue found → IsTrue (has_cell self.now.symbols to)) }
        ensures sound { IfOk result (λ found. IsTrue found → Walks self.now.calls from to) }
        ensures complete { IfOk result (λ found. IsTrue (has_cell self.now.symbols from)
            → IsTrue (has_cell self.now.symbols to) → Walks self.now.calls from to → IsTrue found) }
    {
        if has_cell(&self.symbols, from) && has_cell(&self.symbols, to) {
            return self.leads(alloc, from, to);
        }
        Ok(false)
    }

    /// Returns whether a walk of calls leads from a cell to another.
    fn leads(&self, alloc: Global, from: CellId, to: CellId) -> Result<bool, NoMemory>
        requires from { IsTrue (has_cell self.now.symbols from) }
        requires to { IsTrue (has_cell self.now.symbols to) }
        ensures sound { IfOk result (λ found. IsTrue found → Walks self.now.calls from to) }
        ensures complete { IfOk result (λ found. Walks self.now.calls from to → IsTrue found) }
    {
        let start = position_of(&self.symbols, from);
        let end = position_of(&self.symbols, to);
        let marks = reached(alloc, &self.targets, start)?;
        Ok(marks[end])
    }

    /// Returns the index of the first call, in the order in which they were added, whose target leads back
    /// to its caller. It looks at each cell and each call a few times.
    ///
    /// # Errors
    ///
    /// `NoMemory`, if an allocation fails.
    ///
    /// # Cost
    ///
    /// Each cell and each call is looked at a few times.
    pub fn first_cycle(&self, alloc: Global) -> Result<Option<usize>, NoMemory>
        ensures acyclic { IfOk result (λ first. IsNone first ↔ IsAcyclic self.now.calls) }
        ensures first { IfOk result (λ first. IfSome first (IsFirstCycle self.now.calls)) }
    {
        let places = self.places(alloc)?;
        for index in 0..self.calls.len() {
            if self.closes_cycle(alloc, &places, self.calls[index])? {
                return Ok(Some(index));
            }
        }
        Ok(None)
    }

    /// Returns how many calls the longest walk from a cell has. It looks at each cell and each call a few
    /// times.
    ///
    /// # Errors
    ///
    /// `NoMemory`, if an allocation fails.
    pub fn depth(&self, alloc: Global, cell: CellId) -> Result<usize, NoMemory>
        requires cell { IsTrue (has_cell self.now.symbols cell) }
        requires acyclic { IsAcyclic self.now.calls }
        ensures { IfOk result (λ depth. depth ≡ longest (walks_from self.now.calls cell)) }
    {
        Ok(self.tally(alloc, cell)?.depth)
    }

    /// Returns how many walks there are from a cell, the empty one among them, or `MAX_COUNTED_WALKS` where
    /// there are more. No walk is made: it looks at each cell and each call a few times.
    ///
    /// # Errors
    ///
    /// `NoMemory`, if an allocation fails.
    ///
    /// # Cost
    ///
    /// Each cell and each call is looked at a few times.
    pub fn walks(&self, alloc: Global, cell: CellId) -> Result<usize, NoMemory>
        requires cell { IsTrue (has_cell self.now.symbols cell) }
        requires acyclic { IsAcyclic self.now.calls }
        ensures count { IfOk result (λ walks. walks ≡ counted (length (walks_from self.now.calls cell))) }
        ensures all { AreAllWalks self.now.calls cell (walks_from self.now.calls cell) }
    {
        Ok(self.tally(alloc, cell)?.walks)
    }

    /// Returns how deep the walks from a cell go, and how many there are.
    fn tally(&self, alloc: Global, cell: CellId) -> Result<Tally, NoMemory>
        requires cell { IsTrue (has_cell self.now.symbols cell) }
        requires acyclic { IsAcyclic self.now.calls }
        ensures depth { IfOk result (λ tally. tally.depth ≡ longest (walks_from self.now.calls cell)) }
        ensures walks { IfOk result (λ tally. tally.walks
            ≡ counted (length (walks_from self.now.calls cell))) }
    {
        let order = callees_first(alloc, &self.targets, self.calls.len())?;
        let start = position_of(&self.symbols, cell);
        tallied(alloc, &self.targets, &order, self.calls.len() + 1, start)
    }

    /// Returns places of the cells such that no call goes to an earlier one.
    fn places(&self, alloc: Global) -> Result<Vec<usize>, NoMemory>
        ensures { IfOk result (λ places. AreOrdered self.now places.items) }
    {
        let places = callers_first(alloc, &self.targets, self.calls.len())?;
        if are_ordered(&self.symbols, &places, self.calls.as_slice()) {
            return Ok(places);
        }
        Ok(Vec::new(alloc))
    }

    /// Returns whether a walk leads back from the target of the call to its caller. A call to a later place
    /// needs no search, and as places are made, that is any call that closes no cycle.
    fn closes_cycle(
        &self,
        alloc: Global,
        places: &Vec<usize>,
        call: (CellId, u32),
    ) -> Result<bool, NoMemory>
        requires ordered { AreOrdered self.now places.now.items }
        requires call { Contains self.now.calls call }
        ensures sound { IfOk result (λ closes. IsTrue closes → ClosesCycle self.now.calls call) }
        ensures complete { IfOk result (λ closes. ClosesCycle self.now.calls call → IsTrue closes) }
    {
        if goes_later(&self.symbols, places, call) {
            return Ok(false);
        }
        self.leads(alloc, CellId::Symbol(call.1), call.0)
    }
}

/// Returns whether this is the top cell or one of the symbols.
fn has_cell(symbols: &Cells, cell: CellId) -> bool
    ensures { result ≡ has_cell symbols.now cell }
{
    match cell {
        CellId::Top => true,
        CellId::Symbol(number) => symbols.position(number).is_some(),
    }
}

/// Returns whether no call goes to an earlier place.
fn are_ordered(symbols: &Cells, places: &Vec<usize>, calls: &[(CellId, u32)]) -> bool
    ensures { result ≡ list_all (keeps_order symbols.now places.now.items) calls.now }
{
    calls.iter().all(|call| keeps_order(symbols, places, *call))
}

/// Returns whether the call goes to no earlier place.
fn keeps_order(symbols: &Cells, places: &Vec<usize>, call: (CellId, u32)) -> bool
    ensures { result ≡ keeps_order symbols.now places.now.items call }
{
    place_of(symbols, places, call.0) <= place_of(symbols, places, CellId::Symbol(call.1))
}

/// Returns whether the call goes to a later place.
fn goes_later(symbols: &Cells, places: &Vec<usize>, call: (CellId, u32)) -> bool
    ensures { result ≡ goes_later symbols.now places.now.items call }
{
    place_of(symbols, places, call.0) < place_of(symbols, places, CellId::Symbol(call.1))
}

/// Returns the place of a cell, or 0 where it has none.
fn place_of(symbols: &Cells, places: &Vec<usize>, cell: CellId) -> usize
    ensures { result ≡ cell_place symbols.now places.now.items cell }
{
    places.get(position_of(symbols, cell)).copied().unwrap_or(0)
}

/// Returns the position of a cell: a symbol's among the symbols, and the top cell's behind them.
fn position_of(symbols: &Cells, cell: CellId) -> usize
    ensures { result ≡ position_of symbols.now cell }
{
    match cell {
        CellId::Top => symbols.len(),
        CellId::Symbol(number) => symbols.position(number).unwrap_or(symbols.len()),
    }
}

/// Returns a row without targets for each symbol and the top cell.
fn empty_rows(alloc: Global, symbols: &Cells) -> Result<Vec<Vec<usize>>, NoMemory>
    ensures len { IfOk result (λ rows. length (rows_of rows.items) ≡ length symbols.now + 1) }
    ensures empty { IfOk result (λ rows. (p : ℕ) → row (rows_of rows.items) p ≡ []) }
{
    let mut rows = Vec::new(alloc);
    rows.push(Vec::new(alloc))?;
    for _symbol in 0..symbols.len() {
        rows.push(Vec::new(alloc))?;
    }
    Ok(rows)
}

/// Adds a target behind those of the row at this position.
fn add_to_row(rows: &mut Vec<Vec<usize>>, position: usize, target: usize) -> Result<(), NoMemory>
    requires { position < length (rows_of rows.old.items) }
    ensures ok { OnOk result (rows_of rows.new.items ≡ with_target (rows_of rows.old.items) position target) }
    ensures err { OnErr result (rows_of rows.new.items ≡ rows_of rows.old.items) }
{
    rows[position].push(target)?;
    Ok(())
}
