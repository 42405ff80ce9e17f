//! What the command line asks for.

/// How the program is called.
pub(crate) const USAGE: &str =
    "cif_svg [CELL] < TEXT > PICTURE\n\nDraws a cell of a CIF text as SVG. CELL is a symbol's number, the name that its command 9 gives it, or\n`top`, the cell of all that stands outside definitions. Without it the top cell is drawn, or, where that\nis empty, the first symbol that none calls.\n";

/// What is asked for.
#[derive(Clone, Copy, Debug)]
pub(crate) enum Asked<'a> {
    /// How the program is called.
    Help,
    /// A picture of the cell that the word names, or of the one that is drawn without a word.
    Cell(Option<&'a str>),
    /// More than one cell: this is the second word.
    TooMuch(&'a str),
}

/// Returns what the words ask for, the first of which is the program's.
pub(crate) fn asked_by(words: &[String]) -> Asked<'_> {
    match words {
        [] | [_] => Asked::Cell(None),
        [_, word] => of_word(word.as_str()),
        [_, _, word, ..] => Asked::TooMuch(word.as_str()),
    }
}

/// Returns what a sole word asks for.
fn of_word(word: &str) -> Asked<'_> {
    match word {
        "--help" | "-h" => Asked::Help,
        _ => Asked::Cell(Some(word)),
    }
}
