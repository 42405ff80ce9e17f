//! Input that is no job or no live run: a bare CIF text, a stream of another format, nothing at all.

use crate::cif_words::Words;

/// The form of a live run.
pub(crate) const LIVE_FORM: &str =
    "A live run is the line `%cif`, a CIF text, a line that begins with `%live`, and then lines as `1 open`; it has no sections.";

/// What is wrong with a stream of another format.
const STREAM: &str = "this is a GDSII or OASIS stream, which isn't read";

/// What is said of a byte-order mark.
const MARK: Words = Words {
    problem: "the input begins with a byte-order mark",
    cure: "Save it without one, as plain ASCII.",
};

/// Returns what is said of input whose first line with words isn't `%cif`.
pub(crate) fn words_of_input(input: &[u8]) -> Words {
    if input.trim_ascii().is_empty() {
        return Words {
            problem: "there is nothing to read",
            cure: "Give a job, `masklay FILE`, or a CIF text, `masklay --cif FILE`; `masklay --help` has an example.",
        };
    }
    if has_mark(input) {
        return MARK;
    }
    if is_stream(input) {
        return Words {
            problem: STREAM,
            cure: "Save the layout as CIF, as KLayout does, and run `masklay --cif FILE`.",
        };
    }
    if looks_like_cif(input.trim_ascii()) {
        return Words {
            problem: "this looks like a CIF text, and not like a job",
            cure: "Run `masklay --cif FILE`, or put the line `%cif` before it.",
        };
    }
    Words {
        problem: "a job begins with the line `%cif`",
        cure: "A job is `%cif`, a CIF text, `%session 1` with a step a line, further sections, and perhaps `%order`.",
    }
}

/// Returns what is said of the head of a live run whose first line with words isn't `%cif`.
pub(crate) fn words_of_head(head: &[u8]) -> Words {
    if head.trim_ascii().is_empty() {
        return Words {
            problem: "there is nothing to read, or nothing before the line `%live`",
            cure: "Give `masklay --live` the line `%cif`, a CIF text, the line `%live`, and then lines as `1 open`; `masklay --live --journal FILE` keeps them, and goes on from them.",
        };
    }
    if has_mark(head) {
        return MARK;
    }
    if is_stream(head) {
        return Words {
            problem: STREAM,
            cure: "Save the layout as CIF, as KLayout does, and put the text between the lines `%cif` and `%live`.",
        };
    }
    Words {
        problem: "a live run begins with the line `%cif`",
        cure: LIVE_FORM,
    }
}

/// Returns whether the input begins with a byte-order mark.
fn has_mark(input: &[u8]) -> bool {
    input.starts_with(b"\xEF\xBB\xBF")
}

/// Returns whether the input begins as streams of other formats do.
fn is_stream(input: &[u8]) -> bool {
    input.starts_with(b"\x00\x06\x00\x02") || input.starts_with(b"%SEMI-OASIS")
}

/// Returns whether the input begins as CIF texts do.
fn looks_like_cif(input: &[u8]) -> bool {
    match input {
        [
            b'(' | b'D' | b'L' | b'B' | b'P' | b'C' | b'W' | b'R' | b'E' | b'0'..=b'9',
            ..
        ] => true,
        _ => false,
    }
}
