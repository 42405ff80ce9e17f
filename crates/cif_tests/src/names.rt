//! Tests of what no clause says: that what is kept is what layout editors write, in the right units.

use cif_names::*;
use std::alloc::Global;
use std::test::*;

/// What is written with what is kept of a text, and how many commands of the text were left out.
fn put_into(alloc: Global, text: &[u8], written: &[u8]) -> Result<(Vec<u8>, usize), Fail> {
    let names = Names::of(alloc, text)?;
    let bytes = with_names(alloc, &names, written)?;
    Ok((bytes, names.left_out()))
}

// Could catch a definition that isn't the editors' form: which words stand where, a name that isn't told from a label, and labels
// in other units than those of the definitions that are written.
#[test]
fn a_text_of_an_editor_keeps_its_name_and_label(rt: HostRuntime) -> Result<(), Fail> {
    let text =
        b"DS 1 1 1;\n9 INV;\nL M1;\nB 40 20 0 0;\n94 A 10,-20 M1;\n94 B 0 5;\nDF;\nC 1;\n94 TOP 3 4;\nE";
    let written = b"DS 1 1 2;\nL M1;\nP -40 -20 40 -20 40 20 -40 20;\nDF;\nC 1;\nE\n";
    let want =
        "DS 1 1 2;\n9 INV;\n94 TOP 6 8;\n L M1; 94 A 20 -40;\n L M1; 94 B 0 10;\nL M1;\nP -40 -20 40 -20 40 20 -40 20;\nDF;\nC 1;\nE\n";
    let (bytes, left_out) = put_into(rt.alloc(), text, written)?;
    assert_eq!(rt; bytes.as_slice(), want.as_bytes());
    assert_eq!(rt; left_out, 0);
    Ok(())
}

// Could catch a definition by which the layer that was set before a definition is lost behind it, or that of the definition goes on.
#[test]
fn a_label_behind_a_definition_is_on_the_layer_before_it(rt: HostRuntime) -> Result<(), Fail> {
    let text = b"L A; DS 1; L B; B 2 2 0 0; 94 IN 1 1; DF; 94 T 0 0; B 4 4 0 0; C 1; E";
    let written = b"DS 1 1 2;\nDF;\nDS 2 1 2;\nC 1;\nDF;\nC 2;\nE\n";
    let want = "DS 1 1 2;\n L B; 94 IN 2 2;\nDF;\nDS 2 1 2;\n L A; 94 T 0 0;\nC 1;\nDF;\nC 2;\nE\n";
    let (bytes, left_out) = put_into(rt.alloc(), text, written)?;
    assert_eq!(rt; bytes.as_slice(), want.as_bytes());
    assert_eq!(rt; left_out, 0);
    Ok(())
}

// Could catch an order of lines, or a form of a line, that is read as another label: one without a layer behind one that sets it, in the
// symbol itself and of no symbol; a word that is left out where no layer is set; and a word that isn't left out at a layer.
#[test]
fn naming_twice_is_naming_once(rt: HostRuntime) -> Result<(), Fail> {
    let text =
        b"DS 1 1 1; L M1; 94 A 1 2 M1; 94 S 1 2 30; DF; 94 T 3 4 M9; L M2; 94 U 0,0; DS 2; 94 B 5 6 7; 9 TWO; C 1; DF; 94 V -1 0; C 2; E";
    let written = b"DS 1 1 2;\nDF;\nDS 2 1 2;\nC 1;\nDF;\nC 2;\nE\n";
    let want =
        "DS 1 1 2;\n L M1; 94 A 2 4;\n L M1; 94 S 2 4 30;\nDF;\nDS 2 1 2;\n94 T 6 8 M9;\n94 B 10 12 7;\n9 TWO;\n L M2; 94 U 0 0;\n L M2; 94 V -2 0;\nC 1;\nDF;\nC 2;\nE\n";
    let (once, _) = put_into(rt.alloc(), text, written)?;
    assert_eq!(rt; once.as_slice(), want.as_bytes());
    let (twice, left_out) = put_into(rt.alloc(), once.as_slice(), written)?;
    assert_eq!(rt; twice.as_slice(), want.as_bytes());
    assert_eq!(rt; left_out, 0);
    Ok(())
}

// Could catch an instance's name that is lost without a count, or kept in a line.
#[test]
fn an_instance_has_its_name_counted(rt: HostRuntime) -> Result<(), Fail> {
    let text = b"DS 1 1 2; DF; DS 2 1 2; 9 TWO; 91 one_0; C 1; DF; 91; C 2; E";
    let written = b"DS 1 1 2;\nDF;\nDS 2 1 2;\nC 1;\nDF;\nC 2;\nE\n";
    let want = "DS 1 1 2;\nDF;\nDS 2 1 2;\n9 TWO;\nC 1;\nDF;\nC 2;\nE\n";
    let (bytes, left_out) = put_into(rt.alloc(), text, written)?;
    assert_eq!(rt; bytes.as_slice(), want.as_bytes());
    assert_eq!(rt; left_out, 2);
    Ok(())
}

// Could catch a grid that is another than that of the definitions that are written, and a count that tells nothing: left out are
// three commands of other forms, a label that is half a unit off, and a name outside of definitions.
#[test]
fn a_label_off_the_grid_is_counted(rt: HostRuntime) -> Result<(), Fail> {
    let text = b"DS 7 1 4; 94 A; 9; 94 A 1 x; 94 ON 2 4; 94 OFF 1 4; DF; 9 NOWHERE; E";
    let (bytes, left_out) = put_into(rt.alloc(), text, b"DS 7 1 2;\nDF;\nC 7;\nE\n")?;
    let want = "DS 7 1 2;\n94 ON 1 2;\nDF;\nC 7;\nE\n";
    assert_eq!(rt; bytes.as_slice(), want.as_bytes());
    assert_eq!(rt; left_out, 5);
    Ok(())
}

// Could catch a definition by which what a symbol had goes to another where the symbol is gone, and a top label that doesn't go to
// the symbol that is called last.
#[test]
fn the_name_of_a_symbol_that_is_gone_is_gone(rt: HostRuntime) -> Result<(), Fail> {
    let text = b"DS 1 1 2; 9 GONE; DF; DS 12 1 2; 9 KEPT; DF; C 1; C 12; 94 T 0 0; E";
    let written = b"DS 12 1 2;\nDF;\nDS 2 1 2;\nC 12;\nDF;\nC 2;\nE\n";
    let want = "DS 12 1 2;\n9 KEPT;\nDF;\nDS 2 1 2;\n94 T 0 0;\nC 12;\nDF;\nC 2;\nE\n";
    let (bytes, left_out) = put_into(rt.alloc(), text, written)?;
    assert_eq!(rt; bytes.as_slice(), want.as_bytes());
    assert_eq!(rt; left_out, 0);
    Ok(())
}
