//! The examples of the root files, run. Each could catch an example that isn't true of the calls that it shows.

use byte_io::{Failing, MemoryOut, push_unsigned, put_all};
use cif_grammar::{command_len, integer, read_box};
use cif_layout::FromCif;
use cif_names::{Names, with_names};
use cif_write::write;
use lay_items::Snapshot;
use std::test::*;

#[test]
fn a_number_is_put_to_a_device(rt: HostRuntime) -> Result<(), Fail> {
    let alloc = rt.alloc();
    let mut text = Vec::new(alloc);
    push_unsigned(&mut text, 40)?;
    let mut out = MemoryOut::new(alloc, 7, 1000, Failing::ByErr);
    assert!(rt; put_all(&mut out, &text).is_ok());
    assert_eq!(rt; out.written(), b"40".as_slice());
    Ok(())
}

#[test]
fn a_command_is_cut_and_read(rt: HostRuntime) -> Result<(), Fail> {
    assert_eq!(rt; command_len(b"B 40 20 0 0; E"), Some(11));
    // What comes after the `B`.
    assert!(rt; read_box(b" 40 20 0 0").is_some());
    let (side, rest) = integer(b" 40X20").ok_or("no integer")?;
    assert_eq!(rt; side, 40);
    assert_eq!(rt; rest, b"X20".as_slice());
    Ok(())
}

#[test]
fn a_text_is_read(rt: HostRuntime) -> Result<(), Fail> {
    let alloc = rt.alloc();
    let file = cif_read::read(alloc, b"DS 1; L NM; B 40 20 0 0; DF; C 1 T 5 0; E")?;
    assert_eq!(rt; file.elements().len(), 2);
    Ok(())
}

#[test]
fn a_layout_is_written(rt: HostRuntime) -> Result<(), Fail> {
    let alloc = rt.alloc();
    let text = b"L NM; B 40 20 0 0; E";
    let snapshot = Snapshot::from_cif(alloc, cif_read::read(alloc, text)?)?;
    let mut out = MemoryOut::new(alloc, 4096, 1_000_000, Failing::ByErr);
    assert!(rt; write(alloc, &snapshot, &mut out).is_ok());
    let written: &[u8] = b"DS 1 1 2;\nL NM;\nP -40 -20 40 -20 40 20 -40 20;\nDF;\nC 1;\nE\n";
    assert_eq!(rt; out.written(), written);
    Ok(())
}

#[test]
fn a_name_comes_back(rt: HostRuntime) -> Result<(), Fail> {
    let alloc = rt.alloc();
    let names = Names::of(alloc, b"DS 1 1 1; 9 INV; DF; C 1; E")?;
    let bytes = with_names(alloc, &names, b"DS 1 1 2;\nDF;\nC 1;\nE\n")?;
    assert_eq!(rt;
        bytes.as_slice(),
        b"DS 1 1 2;\n9 INV;\nDF;\nC 1;\nE\n".as_slice()
    );
    Ok(())
}
