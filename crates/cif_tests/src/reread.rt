//! Tests of what no clause says: that a text is read, and a layout written and read again, where there is memory.

use byte_io::{Failing, MemoryOut};
use cif_laws::reread;
use cif_layout::FromCif;
use cif_read::read;
use cif_write::write;
use lay_items::Snapshot;
use std::test::*;

// Could catch a call that always gives up, and one that doesn't wrap the layout.
#[test]
fn a_layout_is_reread(rt: HostRuntime) -> Result<(), Fail> {
    let alloc = rt.alloc();
    let file = read(alloc, b"DS 1; L NM; B 40 20 0 0; DF; C 1 T 3 4; C 1; E")?;
    let layout = Snapshot::from_cif(alloc, file)?;
    let again = reread(alloc, &layout)?;
    let mut out = MemoryOut::new(alloc, 4096, 1000, Failing::ByErr);
    assert!(rt; write(alloc, &again, &mut out).is_ok());
    let want: &[u8] =
        b"DS 1 1 2;\nL NM;\nP -40 -20 40 -20 40 20 -40 20;\nDF;\nDS 2 1 2;\nC 1 T 6 8;\nC 1;\nDF;\nC 2;\nE\n";
    assert_eq!(rt; out.written(), want);
    Ok(())
}

// Could catch counts in the definition of what isn't kept: a side of 0 and two points without repeats are two, and an
// extension is none of them.
#[test]
fn what_is_not_kept_is_counted(rt: HostRuntime) -> Result<(), Fail> {
    let file = read(rt.alloc(), b"L A; B 0 4 1 1; P 0 0 5 5 0 0; E")?;
    assert!(rt; file.elements().is_empty());
    assert_eq!(rt; file.dropped(), 2);
    assert_eq!(rt; file.extensions(), 0);
    let file = read(rt.alloc(), b"9 NAME; L A; B 2 4 1 1; E")?;
    assert_eq!(rt; file.elements().len(), 1);
    assert_eq!(rt; file.dropped(), 0);
    assert_eq!(rt; file.extensions(), 1);
    Ok(())
}
