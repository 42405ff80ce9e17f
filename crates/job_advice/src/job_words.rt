//! What is said of a line of a job.

/// Returns what a line that begins with this word has to be.
pub(crate) fn form_of(word: &[u8]) -> &'static str {
    match word {
        b"open" | b"commit" | b"cancel" =>
            "`open`, `commit` and `cancel` are alone on their lines.",
        b"undo" | b"redo" =>
            "A transaction is named by its session and its number: `undo 1.1`, `redo 2.3`.",
        b"look" | b"delete" =>
            "An item is named as the replies name it: `look 1.1.1`, `delete 0.0.3`.",
        b"move" => "`move ITEM DX DY`, as `move 0.0.3 10 -5`, in units of 5 nanometres.",
        b"layer" => "`layer ITEM LAYER`, as `layer 0.0.3 M1`.",
        b"mkcell" | b"rmcell" => "`mkcell N` and `rmcell N`, N up to 999,999,999.",
        b"%session" =>
            "Sections are `%session 1`, `%session 2` and so on, without a gap, at most 64.",
        b"%order" =>
            "`%order` comes last and is alone on its line; the lines after it have each session's number once for each of its steps.",
        _ => form_of_shapes(word),
    }
}

/// Returns what a line is that draws something.
fn form_of_shapes(word: &[u8]) -> &'static str {
    match word {
        b"box" =>
            "`box CELL LAYER X1 Y1 X2 Y2`, two opposite corners in units of 5 nanometres; CELL is `top` or a symbol's number.",
        b"poly" =>
            "`poly CELL LAYER X Y X Y ..`, in units of 5 nanometres; CELL is `top` or a symbol's number.",
        b"place" =>
            "`place CELL SYMBOL TURN X Y`; TURN is r0, r90, r180, r270, or m0, m90, m180, m270 where it is mirrored first.",
        b"and" | b"or" | b"not" | b"xor" =>
            "`and CELL A B OUT`, and `or`, `not`, `xor` likewise: the layers A and B of the cell, drawn on the layer OUT.",
        _ =>
            "Steps are open, commit, cancel, undo, redo, box, poly, delete, move, layer, place, look, mkcell, rmcell, and, or, not and xor.",
    }
}
