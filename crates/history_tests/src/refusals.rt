//! Tests of what no clause says: that a copy succeeds, and that the order and the numbers are as they should be.

use lay_cells::CellId;
use lay_layouts::ItemId;
use lay_point::{LayerName, Point, Sequence};
use std::test::*;
use txn_commands::{CmdFault, Command, Element};
use txn_rules::*;

// Could catch a copy that never succeeds.
#[test]
fn a_copied_path_has_all_its_points(rt: HostRuntime) -> Result<(), Fail> {
    let alloc = rt.alloc();
    let points = vec![in alloc; Point { x: 0, y: -3 }, Point { x: 5, y: 7 }]?;
    let command = Command::Poly {
        cell: CellId::Symbol(4),
        layer: LayerName::new(b"M").ok_or("no layer name")?,
        points: Sequence::from_vec(points),
    };
    assert!(rt; command.copy(alloc)? == command);
    Ok(())
}

// Could catch ranks that are exchanged in the definitions too, and names that are compared by their lengths.
#[test]
fn elements_stand_by_kind_then_by_fields(rt: HostRuntime) -> Result<(), Fail> {
    let id = |txn, seq| ItemId {
        session: 1,
        txn,
        seq,
    };
    let b = LayerName::new(b"B").ok_or("no layer name")?;
    let az = LayerName::new(b"AZ").ok_or("no layer name")?;
    let rising = [
        Element::Item(id(1, 9)),
        Element::Item(id(2, 1)),
        Element::Layer(CellId::Top, az),
        Element::Layer(CellId::Top, b),
        Element::Layer(CellId::Symbol(0), az),
        Element::Calls(CellId::Top),
        Element::Calls(CellId::Symbol(0)),
        Element::Cell(3),
        Element::Cell(20),
        Element::Content(3),
        Element::Uses(0),
    ];
    assert!(rt;
        rising
            .windows(2)
            .all(|pair| pair[0] < pair[1] && pair[0] != pair[1])
    );
    Ok(())
}

// Could catch a number that is exchanged in the definitions too.
#[test]
fn refusals_have_their_numbers(rt: HostRuntime) -> Result<(), Fail> {
    let rows = [
        (CmdFault::NoCell, 1),
        (CmdFault::NoItem, 2),
        (CmdFault::NotShape, 3),
        (CmdFault::FewPoints, 4),
        (CmdFault::OutOfRange, 5),
        (CmdFault::Cycle, 6),
        (CmdFault::TooDeep, 7),
        (CmdFault::TooMany, 8),
        (CmdFault::TxnFull, 10),
        (CmdFault::NoMemory, 11),
        (CmdFault::CellThere, 12),
        (CmdFault::CellUsed, 13),
    ];
    for (fault, number) in rows {
        assert_eq!(rt; fault.code().0, number, "{fault:?}");
    }
    Ok(())
}
