//! What holds of every text and of what is kept, as calls that do nothing.
ghost use Rattle.cif_names.specs.Laws.{
  KeptLinesAreCommands,
  KeptLinesAreLines,
  LabelsAreScaled,
  NamesComeBack,
  PlacesAreTheReaders,
  TextIsTheSame,
};

/// Each entry that is kept of a text is one line, and begins with `9 `, `94 ` or a space. It is an extension of the grammar and its
/// semicolon, behind the command of a layer or behind nothing.
pub fn kept_lines_are_lines()
    ensures lines { KeptLinesAreLines }
    ensures commands { KeptLinesAreCommands }
{}

/// A text in which no line begins with `9 `, `94 ` or a space, with what is kept of another text in it, is the text again once the
/// lines that begin so are taken out.
pub fn without_them_the_text_is_the_same()
    ensures { TextIsTheSame }
{}

/// Which definition a label is in, at which scale, and which layer is set there, is what it is to the reader.
pub fn places_are_the_readers()
    ensures { PlacesAreTheReaders }
{}

/// A label's coordinate, times the second number of the definition's scale, is twice the written one times the first.
pub fn labels_are_scaled()
    ensures { LabelsAreScaled }
{}

/// What the line of a name says is the name.
pub fn names_come_back()
    ensures { NamesComeBack }
{}
