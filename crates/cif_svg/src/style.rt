//! How a layer looks: a colour, and behind the first twelve a hatch too.

/// A layer's colour and hatch.
#[derive(Clone, Copy, Debug, PartialEq, Eq)]
pub(crate) struct Style {
    pub(crate) colour: &'static str,
    /// Its lines in a square of 8 by 8; none where the layer is all of one colour.
    pub(crate) hatch: Option<&'static str>,
}

/// How many colours there are.
const COLOUR_COUNT: usize = 12;

/// Colours that tell apart, also for those who see fewer of them: Tol's, with an orange of Okabe and Ito's and black. Beside each other
/// on white, at a layer's opacity, any two are at least 12 apart (CIE 1976) for all three kinds of colour blindness.
const COLOURS: [&str; COLOUR_COUNT] = [
    "#0077bb", "#e69f00", "#228833", "#cc3311", "#66ccee", "#ffaabb", "#332288", "#ddcc77",
    "#aa3377", "#663333", "#ee6677", "#000000",
];

/// Hatches that tell apart without colours. Each looks the same turned and mirrored, as calls show it.
const HATCHES: [&str; 4] = [
    "M0 0L8 8M0 8L8 0",
    "M0 4H8M4 0V8",
    "M4 1L7 4L4 7L1 4Z",
    "M2 2H6V6H2Z",
];

/// Returns the look of the layer at this place among all.
pub(crate) fn style_of(place: usize) -> Style {
    let round = place / COLOUR_COUNT;
    let hatch = if round == 0 {
        None
    } else {
        Some(HATCHES[(round - 1) % 4])
    };
    Style {
        colour: COLOURS[place % COLOUR_COUNT],
        hatch,
    }
}
