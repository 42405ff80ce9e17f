//! Tests of the words, which no clause pins.

use cif_read::{CifFault, read};
use job_advice::*;
use std::alloc::Global;
use std::str::from_utf8;
use std::test::*;

/// The fault of a CIF text, which has one.
fn fault_of(alloc: Global, text: &[u8]) -> Result<CifFault, Fail> {
    match read(alloc, text) {
        Ok(_) => Err("the text is read".into()),
        Err(fault) => Ok(fault),
    }
}

/// Whether the lines begin so and have these words.
fn tells(lines: &[u8], begins: &str, words: &str) -> bool {
    match from_utf8(lines) {
        Ok(lines) => lines.starts_with(begins) && lines.contains(words),
        Err(_) => false,
    }
}

// Could catch a place that counts from the CIF text in place of the job, a caret under another byte, and a line that is cut.
#[test]
fn a_wire_is_shown_where_it_is(rt: HostRuntime) -> Result<(), Fail> {
    let job = b"\n%cif\nL NM;\n  B 40 20 0 0; W 10 0 0 40 0; E\n";
    let fault = fault_of(rt.alloc(), &job[6..])?;
    let want =
        "masklay: line 2 of the CIF text (line 4 of the job), column 16: a wire, which isn't read\n    B 40 20 0 0; W 10 0 0 40 0; E\n                 ^\n  Write the polygon";
    let lines = of_cif_fault(rt.alloc(), job, fault)?;
    assert!(rt; tells(&lines, want, "In KLayout turn paths into polygons"));
    Ok(())
}

/// Whether a job of this text is answered by lines that begin so and have these words.
fn has_words(alloc: Global, text: &[u8], begins: &str, words: &str) -> Result<bool, Fail> {
    let fault = fault_of(alloc, text)?;
    let mut job: Vec<u8> = Vec::new(alloc);
    job.extend_from_slice(b"%cif\n")?;
    job.extend_from_slice(text)?;
    let lines = of_cif_fault(alloc, &job, fault)?;
    Ok(tells(&lines, begins, words))
}

// Could catch words that go with another kind of fault. The places are those that the profile of CIF gives.
#[test]
fn a_command_that_is_not_read_has_its_words(rt: HostRuntime) -> Result<(), Fail> {
    let rows: [(&[u8], &str, &str); 5] = [
        (
            b"L A; B 2 2 0 0;",
            "masklay: line 1 of the CIF text (line 2 of the job), column 16: the text ends",
            "with `E`",
        ),
        (
            b"B 2 2 0; E",
            "masklay: line 1 of the CIF text (line 2 of the job), column 1: this isn't a command",
            "`B length width x y;`",
        ),
        (
            b"R 4 0 0; E",
            "masklay: line 1 of the CIF text (line 2 of the job), column 1: a round flash",
            "Write a box or a polygon",
        ),
        (
            b"DD 1; E",
            "masklay: line 1 of the CIF text (line 2 of the job), column 1: a deletion",
            "number of its own",
        ),
        (
            b"X 1; E",
            "masklay: line 1 of the CIF text (line 2 of the job), column 1: this isn't a command",
            "Lower-case letters are blanks",
        ),
    ];
    for (text, begins, words) in rows {
        assert!(rt; has_words(rt.alloc(), text, begins, words)?, "{begins}");
    }
    Ok(())
}

// Could catch words that go with another kind of fault. The places are those that the profile of CIF gives.
#[test]
fn a_fault_of_a_symbol_has_its_words(rt: HostRuntime) -> Result<(), Fail> {
    let rows: [(&[u8], &str, &str); 5] = [
        (
            b"DS 1; DF; C 1 R 1 1; E",
            "masklay: line 1 of the CIF text (line 2 of the job), column 11: a direction",
            "just one is 0",
        ),
        (
            b"DS 1; DF; DS 1; DF; E",
            "masklay: line 1 of the CIF text (line 2 of the job), column 11: a second definition",
            "number of its own",
        ),
        (
            b"C 3; E",
            "masklay: line 1 of the CIF text (line 2 of the job), column 1: a call of a symbol",
            "Define the symbol",
        ),
        (
            b"DS 1; C 1; DF; E",
            "masklay: line 1 of the CIF text (line 2 of the job), column 7: a call by which",
            "circle",
        ),
        (
            b"DS 1 0 2; DF; E",
            "masklay: line 1 of the CIF text (line 2 of the job), column 1: a scale with a 0",
            "at least 1",
        ),
    ];
    for (text, begins, words) in rows {
        assert!(rt; has_words(rt.alloc(), text, begins, words)?, "{begins}");
    }
    Ok(())
}

// Could catch words that go with another kind of fault. The places are those that the profile of CIF gives.
#[test]
fn a_fault_of_a_shape_or_of_the_end_has_its_words(rt: HostRuntime) -> Result<(), Fail> {
    let rows: [(&[u8], &str, &str); 5] = [
        (
            b"B 2 2 0 0; E",
            "masklay: line 1 of the CIF text (line 2 of the job), column 1: a shape where no layer",
            "Write `L NAME;`",
        ),
        (
            b"DS 1 1 3;\nL A; B 2 2 0 0; DF; C 1; E",
            "masklay: line 2 of the CIF text (line 3 of the job), column 6: a distance",
            "5 nanometres",
        ),
        (
            b"L A; P 0 0 9999999999 1 1 1; E",
            "masklay: line 1 of the CIF text (line 2 of the job), column 6: a number or",
            "2,147,483,647",
        ),
        (
            b"E X",
            "masklay: line 1 of the CIF text (line 2 of the job), column 3: something comes after `E`",
            "Take it away",
        ),
        (
            b"L ABCDEFGHIJKLMNOPQ; E",
            "masklay: line 1 of the CIF text (line 2 of the job), column 1: a layer's name",
            "shorter name",
        ),
    ];
    for (text, begins, words) in rows {
        assert!(rt; has_words(rt.alloc(), text, begins, words)?, "{begins}");
    }
    Ok(())
}

// Could catch the form of another step, and a line that is counted from 0.
#[test]
fn a_line_of_a_job_is_shown_with_its_form(rt: HostRuntime) -> Result<(), Fail> {
    let job = b"%cif\nE\n%session 1\nopen\n  box top M 0 0 1\n";
    let lines = of_job_fault(rt.alloc(), job, 5)?;
    let want =
        "masklay: line 5, column 18: here comes a whole number from -2,147,483,648 to 2,147,483,647, and the line ends\n    box top M 0 0 1\n                   ^\n  `box CELL LAYER X1 Y1 X2 Y2`";
    assert!(rt; tells(&lines, want, ""));
    let too_long = of_job_fault(rt.alloc(), job, 0)?;
    assert!(rt; tells(&too_long, "masklay: the job has more", "16,777,216"));
    Ok(())
}

// Could catch words about jobs, a section before `%live` that is passed over, and a place at another line.
#[test]
fn a_head_of_a_live_run_is_shown_with_the_form_of_one(rt: HostRuntime) -> Result<(), Fail> {
    let rows: [(&[u8], u32, &str, &str); 4] = [
        (
            b"",
            1,
            "masklay: line 1, column 1: there is nothing to read",
            "`masklay --live --journal FILE`",
        ),
        (
            b"\n 1 open\n",
            2,
            "masklay: line 2, column 2: a live run begins with the line `%cif`\n   1 open\n   ^\n",
            "A live run is",
        ),
        (
            b"%cif",
            2,
            "masklay: line 1, column 5: the lines end, and none begins with `%live`\n  %cif\n      ^\n",
            "A live run is",
        ),
        (
            b"%cif\nE\n%session 1\nopen\n",
            5,
            "masklay: line 3, column 1: here comes `%live`\n  %session 1\n  ^\n",
            "it has no sections",
        ),
    ];
    for (head, line, begins, words) in rows {
        let lines = of_live_fault(rt.alloc(), head, line)?;
        assert!(rt; tells(&lines, begins, words), "{begins}");
    }
    let too_long = of_live_fault(rt.alloc(), b"%cif\n", 0)?;
    assert!(rt; tells(&too_long, "masklay: there are more", "16,777,216"));
    Ok(())
}
