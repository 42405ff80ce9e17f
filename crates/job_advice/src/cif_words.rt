//! What is said of a fault of a CIF text.

use cif_read::FaultKind;

/// What is wrong, and what to do.
#[derive(Clone, Copy, Debug, PartialEq, Eq)]
pub(crate) struct Words {
    pub(crate) problem: &'static str,
    pub(crate) cure: &'static str,
}

/// What is said of a step after a line that begins with `%live`, in a text that isn't a live run's.
const LIVE: Words = Words {
    problem: "this comes after a line `%live`, and this isn't a live run",
    cure: "Run `masklay --live`, which takes such lines; a job has sections, `%session 1` with a step a line.",
};

/// Returns what is said of a fault, after this part of the input, at a command that begins with these bytes.
pub(crate) fn words_of(kind: FaultKind, before: &[u8], command: &[u8]) -> Words {
    match kind {
        FaultKind::Syntax | FaultKind::NoEnd | FaultKind::AfterEnd if has_live_line(before) => LIVE,
        FaultKind::Syntax => Words {
            problem: "this isn't a command of CIF here",
            cure: form_of(command),
        },
        FaultKind::NoEnd | FaultKind::AfterEnd | FaultKind::TooMany => words_of_text(kind),
        FaultKind::Wire | FaultKind::Flash | FaultKind::DeleteDef => words_of_refused(kind),
        FaultKind::OffAxis | FaultKind::OffGrid | FaultKind::TooBig | FaultKind::ZeroScale =>
            words_of_numbers(kind),
        _ => words_of_names(kind),
    }
}

/// Returns whether a line begins as the one does at which the steps of a live run begin.
fn has_live_line(lines: &[u8]) -> bool {
    for line in lines.split(|byte| *byte == b'\n') {
        if line.starts_with(b"%live") {
            return true;
        }
    }
    false
}

/// What is said of the text as a whole.
fn words_of_text(kind: FaultKind) -> Words {
    match kind {
        FaultKind::AfterEnd => Words {
            problem: "something comes after `E`, which ends the text",
            cure: "Take it away, or take `E` away where the text goes on. In a job only the lines `%session N` and `%order` follow.",
        },
        FaultKind::TooMany => Words {
            problem: "there is more than a text may have",
            cure: "A text has at most 16,777,216 bytes and 4,096 symbols, and a polygon 65,536 points. Cut the layout or the polygon into parts.",
        },
        _ => Words {
            problem: "the text ends before this command's semicolon, or before its `E`",
            cure: "End each command with `;`, close each parenthesis, and end the text with `E`. In a job the text ends at the first line that begins with `%session` or `%order`.",
        },
    }
}

/// What is said of a command that is known and not read.
fn words_of_refused(kind: FaultKind) -> Words {
    match kind {
        FaultKind::Wire => Words {
            problem: "a wire, which isn't read",
            cure: "Write the polygon of its outline, `P x y x y ..;`. In KLayout turn paths into polygons before saving; magic writes boxes alone where its CIF style has no wires.",
        },
        FaultKind::Flash => Words {
            problem: "a round flash, which isn't read",
            cure: "Write a box or a polygon in its place. In KLayout turn round paths and circles into polygons before saving.",
        },
        _ => Words {
            problem: "a deletion of definitions, which isn't read",
            cure: "Take it out, and give each symbol a number of its own.",
        },
    }
}

/// What is said of numbers.
fn words_of_numbers(kind: FaultKind) -> Words {
    match kind {
        FaultKind::OffAxis => Words {
            problem: "a direction that isn't along an axis",
            cure: "Of the two numbers of a direction just one is 0. Draw what is turned by other angles as polygons: in KLayout flatten such cells before saving.",
        },
        FaultKind::OffGrid => Words {
            problem: "a distance that isn't whole in units of 5 nanometres",
            cure: "Put the layout on a grid of 5 nanometres. A distance is a hundredth of a micrometre, times a / b in a definition `DS n a b`; a box's sides and centre count by its corners.",
        },
        FaultKind::ZeroScale => Words {
            problem: "a scale with a 0",
            cure: "In `DS n a b` the distances are scaled by a / b, and both are at least 1.",
        },
        _ => Words {
            problem: "a number or a coordinate beyond its limit",
            cure: "A number has at most 2,147,483,647, a symbol 999,999,999, and a coordinate 1,073,741,824 units of 5 nanometres on each side of 0.",
        },
    }
}

/// What is said of symbols and layers.
fn words_of_names(kind: FaultKind) -> Words {
    match kind {
        FaultKind::NoLayer => Words {
            problem: "a shape where no layer is set",
            cure: "Write `L NAME;` before it. Inside a definition, from `DS` to `DF`, the layer is set anew.",
        },
        FaultKind::LongName => Words {
            problem: "a layer's name of more than 16 letters and digits",
            cure: "Give the layer a shorter name. KLayout makes it of layer and datatype where the layer has no name.",
        },
        FaultKind::TwoSymbols => Words {
            problem: "a second definition of this symbol",
            cure: "Give each `DS` a number of its own.",
        },
        FaultKind::NoSymbol => Words {
            problem: "a call of a symbol that no `DS` defines",
            cure: "Define the symbol, anywhere in the text, or take the call out.",
        },
        _ => Words {
            problem: "a call by which a symbol would contain itself",
            cure: "Take one call of the circle out.",
        },
    }
}

/// Returns the forms that a command with this first letter may have.
fn form_of(command: &[u8]) -> &'static str {
    match command.first() {
        Some(b'B') =>
            "A box is `B length width x y;`, with its direction behind it where that isn't 1 0, as `B 40 20 0 0 0 1;`.",
        Some(b'P') => "A polygon is `P x y x y ..;`, an even count of numbers.",
        Some(b'L') => "A layer is `L NAME;`, of upper-case letters and digits.",
        Some(b'C') =>
            "A call is `C n ..;` with any of `T x y`, `M X`, `M Y` and `R a b` behind the symbol's number.",
        Some(b'D') =>
            "A definition is `DS n;` or `DS n a b;`, its commands, and `DF;`. None is inside another.",
        Some(b'E') =>
            "`E` ends the text, outside of every definition: end the definition with `DF;` first.",
        Some(b'(') =>
            "A comment is `(text);` with matching parentheses and nothing between it and its semicolon.",
        _ =>
            "Commands begin with `P`, `B`, `L`, `C`, `DS`, `DF`, a digit, or `(` for a comment, and end with `;`. Lower-case letters are blanks.",
    }
}
