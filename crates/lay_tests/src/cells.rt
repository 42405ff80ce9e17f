//! Tests of what no clause says: that the definitions are the format's, and that calls succeed.
ghost use Rattle.std.specs.Prelude.{◌≡◌, IfOk};
ghost use Rattle.lay_cells.specs.Symbols.{has_cell};

use lay_cells::*;
use lay_point::NoMemory;
use std::alloc::Global;
use std::test::*;

/// Returns whether the cell is the top cell or one of the symbols.
fn is_cell(symbols: &Cells, cell: CellId) -> bool
    ensures { result ≡ has_cell symbols.now cell }
{
    match cell {
        CellId::Top => true,
        CellId::Symbol(number) => symbols.position(number).is_some(),
    }
}

/// The symbols of these numbers.
fn symbols_of(alloc: Global, numbers: &[u32]) -> Result<Cells, NoMemory> {
    let mut symbols = Cells::new(alloc);
    for number in numbers {
        symbols.add(*number)?;
    }
    Ok(symbols)
}

/// The graph of the calls that are between cells.
fn graph_of(alloc: Global, symbols: &Cells, calls: &[(CellId, u32)]) -> Result<CallGraph, NoMemory>
    ensures { IfOk result (λ graph. graph.symbols ≡ symbols.now) }
{
    let mut graph = CallGraph::new(alloc, symbols)?;
    for (caller, target) in calls {
        if is_cell(symbols, *caller) && is_cell(symbols, CellId::Symbol(*target)) {
            graph.add(*caller, *target)?;
        }
    }
    Ok(graph)
}

/// Whether the calls between the symbols lead from a cell to another.
fn leads(
    alloc: Global,
    numbers: &[u32],
    calls: &[(CellId, u32)],
    from: CellId,
    to: CellId,
) -> Result<bool, NoMemory> {
    let symbols = symbols_of(alloc, numbers)?;
    graph_of(alloc, &symbols, calls)?.reaches(alloc, from, to)
}

// Could catch that the numbers stand in another order than they were added in, or that a call fails.
#[test]
fn symbols_stand_in_the_order_of_their_first_additions(rt: HostRuntime) -> Result<(), Fail> {
    let mut symbols = Cells::new(rt.alloc());
    let rows = [(7, true), (0, true), (7, false), (4_294_967_295, true)];
    for (number, is_new) in rows {
        assert_eq!(rt; symbols.add(number)?, is_new, "{number}");
    }
    assert_eq!(rt; symbols.len(), 3);
    assert_eq!(rt; symbols.at(0), Some(7));
    assert_eq!(rt; symbols.at(2), Some(4_294_967_295));
    assert_eq!(rt; symbols.at(3), None);
    assert_eq!(rt; symbols.position(0), Some(1));
    assert_eq!(rt; symbols.position(1), None);
    Ok(())
}

// Could catch a definition of a walk that leaves out the empty one, goes against the calls or stops at
// one call, and a search that doesn't come back from a cycle.
#[test]
fn calls_lead_down(rt: HostRuntime) -> Result<(), Fail> {
    let top = CellId::Top;
    let one = CellId::Symbol(1);
    let two = CellId::Symbol(2);
    let nine = CellId::Symbol(9);
    let none = CellId::Symbol(3);
    let rows: [(&[(CellId, u32)], CellId, CellId, bool); 15] = [
        (&[(top, 1)], none, none, false),
        (&[(top, 1)], top, none, false),
        (&[(top, 1)], none, one, false),
        (&[], one, one, true),
        (&[], top, top, true),
        (&[], top, one, false),
        (&[(one, 1)], one, one, true),
        (&[(one, 1)], one, two, false),
        (&[(one, 2), (two, 1)], one, two, true),
        (&[(one, 2), (two, 1)], two, one, true),
        (&[(one, 2), (two, 1)], top, two, false),
        (&[(top, 1), (one, 2), (two, 9)], top, nine, true),
        (&[(top, 1), (one, 2), (two, 9)], nine, top, false),
        (&[(top, 1), (one, 2), (two, 9)], two, one, false),
        (&[(top, 9), (top, 1), (top, 1), (one, 2)], top, two, true),
    ];
    for (calls, from, to, want) in rows {
        let found = leads(rt.alloc(), &[9, 1, 2], calls, from, to)?;
        assert_eq!(rt; found, want, "{calls:?} from {from:?} to {to:?}");
    }
    Ok(())
}

// Could catch a limit of the depth that no clause names.
#[test]
fn a_chain_of_65_leads_from_its_first_to_its_last(rt: HostRuntime) -> Result<(), Fail> {
    let mut numbers = Vec::new(rt.alloc());
    let mut calls = Vec::new(rt.alloc());
    for number in 0..65u32 {
        numbers.push(number)?;
        calls.push((CellId::Symbol(number), number + 1))?;
    }
    let first = CellId::Symbol(0);
    let last = CellId::Symbol(64);
    assert_eq!(rt; leads(rt.alloc(), &numbers, &calls, first, last)?, true);
    assert_eq!(rt; leads(rt.alloc(), &numbers, &calls, last, first)?, false);
    Ok(())
}

/// The first call between the symbols that closes a cycle.
fn first_cycle(
    alloc: Global,
    numbers: &[u32],
    calls: &[(CellId, u32)],
) -> Result<Option<usize>, NoMemory> {
    let symbols = symbols_of(alloc, numbers)?;
    let graph = graph_of(alloc, &symbols, calls)?;
    graph.first_cycle(alloc)
}

// Could catch a definition of a cycle that leaves out the call of a cell by itself, one that takes two
// ways to one cell for a cycle, an order of calls that isn't that of their additions, and a call that fails.
#[test]
fn the_first_call_that_closes_a_cycle_is_named(rt: HostRuntime) -> Result<(), Fail> {
    let top = CellId::Top;
    let one = CellId::Symbol(1);
    let two = CellId::Symbol(2);
    let nine = CellId::Symbol(9);
    let rows: [(&[(CellId, u32)], Option<usize>); 12] = [
        (&[], None),
        (&[(top, 1), (top, 1), (one, 2), (one, 2)], None),
        (&[(top, 9), (nine, 1), (nine, 2), (one, 4), (two, 4)], None),
        (&[(two, 4), (one, 4), (nine, 2), (nine, 1), (top, 9)], None),
        (&[(one, 1)], Some(0)),
        (&[(top, 1), (one, 9), (one, 1)], Some(2)),
        (&[(one, 2), (two, 1)], Some(0)),
        (
            &[(top, 1), (nine, 1), (two, 4), (two, 1), (one, 2)],
            Some(3),
        ),
        (&[(nine, 1), (one, 2), (two, 4), (two, 1)], Some(1)),
        (
            &[(one, 2), (two, 9), (two, 4), (nine, 4), (nine, 1)],
            Some(0),
        ),
        (&[(one, 4), (one, 2), (two, 2), (two, 1)], Some(1)),
        (
            &[(top, 1), (one, 4), (two, 9), (one, 4), (nine, 2)],
            Some(2),
        ),
    ];
    for (calls, want) in rows {
        let found = first_cycle(rt.alloc(), &[9, 1, 2, 4], calls)?;
        assert_eq!(rt; found, want, "{calls:?}");
    }
    Ok(())
}

// Could catch a time that goes up with the square of the calls, and a limit of the depth that no clause
// names.
#[test]
fn a_chain_of_5000_has_no_cycle_in_either_order(rt: HostRuntime) -> Result<(), Fail> {
    let mut numbers = Vec::new(rt.alloc());
    let mut falling = Vec::new(rt.alloc());
    for number in 0..5_000u32 {
        numbers.push(number)?;
        falling.push((CellId::Symbol(number), number + 1))?;
    }
    let mut rising = falling.clone()?;
    rising.reverse();
    assert_eq!(rt; first_cycle(rt.alloc(), &numbers, &falling)?, None);
    assert_eq!(rt; first_cycle(rt.alloc(), &numbers, &rising)?, None);
    falling.push((CellId::Symbol(4_999), 0))?;
    assert_eq!(rt; first_cycle(rt.alloc(), &numbers, &falling)?, Some(0));
    Ok(())
}

// Could catch a time that goes up with the product of the cells and calls of a full layout.
#[test]
fn a_layout_of_100000_calls_has_no_cycle(rt: HostRuntime) -> Result<(), Fail> {
    let mut numbers = Vec::new(rt.alloc());
    let mut calls = Vec::new(rt.alloc());
    for number in 0..4_096u32 {
        numbers.push(number)?;
        for step in 1..28u32 {
            calls.push((CellId::Symbol(number), number + step * step))?;
        }
    }
    assert_eq!(rt; calls.len(), 110_592);
    assert_eq!(rt; first_cycle(rt.alloc(), &numbers, &calls)?, None);
    Ok(())
}

// Could catch a search for each call where the cycles stand behind all that they lead to.
#[test]
fn cycles_above_100000_calls_are_found(rt: HostRuntime) -> Result<(), Fail> {
    let mut numbers = Vec::new(rt.alloc());
    let mut calls = Vec::new(rt.alloc());
    for number in 0..4_096u32 {
        numbers.push(number)?;
        for step in 1..26u32 {
            if step <= number {
                calls.push((CellId::Symbol(number), number - step))?;
            }
        }
    }
    let want = calls.len();
    calls.push((CellId::Symbol(4_095), 4_095))?;
    calls.push((CellId::Symbol(0), 0))?;
    assert_eq!(rt; first_cycle(rt.alloc(), &numbers, &calls)?, Some(want));
    Ok(())
}

/// The depth below a cell and the number of its walks, where there is no cycle.
fn tally(
    alloc: Global,
    numbers: &[u32],
    calls: &[(CellId, u32)],
    cell: CellId,
) -> Result<Option<(usize, usize)>, NoMemory> {
    let symbols = symbols_of(alloc, numbers)?;
    let graph = graph_of(alloc, &symbols, calls)?;
    if is_cell(&symbols, cell) && graph.first_cycle(alloc)?.is_none() {
        let depth = graph.depth(alloc, cell)?;
        return Ok(Some((depth, graph.walks(alloc, cell)?)));
    }
    Ok(None)
}

// Could catch a definition that leaves out the empty walk, takes two calls of one symbol for one, or counts
// walks from other cells, and calls that fail.
#[test]
fn walks_are_counted_and_their_depth_is_found(rt: HostRuntime) -> Result<(), Fail> {
    let top = CellId::Top;
    let one = CellId::Symbol(1);
    let two = CellId::Symbol(2);
    let nine = CellId::Symbol(9);
    let rows: [(&[(CellId, u32)], CellId, (usize, usize)); 7] = [
        (&[], top, (0, 1)),
        (&[(one, 2)], top, (0, 1)),
        (&[(top, 1), (top, 1)], top, (1, 3)),
        (&[(top, 2), (two, 1), (top, 1)], top, (2, 4)),
        (&[(top, 9), (nine, 1), (nine, 2), (two, 1)], top, (3, 5)),
        (&[(top, 9), (nine, 1), (nine, 2), (two, 1)], nine, (2, 4)),
        (
            &[(one, 2), (one, 2), (two, 9), (two, 9), (top, 1)],
            one,
            (2, 7),
        ),
    ];
    for (calls, cell, want) in rows {
        let found = tally(rt.alloc(), &[9, 1, 2], calls, cell)?;
        assert_eq!(rt; found, Some(want), "{calls:?} from {cell:?}");
    }
    Ok(())
}

/// Calls of symbols, each of the next one, so many times each.
fn chain(
    alloc: Global,
    length: u32,
    times: u32,
) -> Result<(Vec<u32>, Vec<(CellId, u32)>), NoMemory> {
    let mut numbers = Vec::new(alloc);
    let mut calls = Vec::new(alloc);
    for number in 0..length {
        numbers.push(number)?;
        for _ in 0..times {
            calls.push((CellId::Symbol(number), number.wrapping_add(1)))?;
        }
    }
    Ok((numbers, calls))
}

// Could catch a count that goes through the walks, one that stops elsewhere, and a limit of the depth.
#[test]
fn deep_chains_are_counted_at_once(rt: HostRuntime) -> Result<(), Fail> {
    let rows = [
        (16, 2, (15, 65_535)),
        (17, 2, (16, 65_537)),
        (4_096, 1, (4_095, 4_096)),
        (4_096, 2, (4_095, 65_537)),
    ];
    for (length, times, want) in rows {
        let (numbers, calls) = chain(rt.alloc(), length, times)?;
        let found = tally(rt.alloc(), &numbers, &calls, CellId::Symbol(0))?;
        assert_eq!(rt; found, Some(want), "{length} symbols called {times} times");
    }
    Ok(())
}
