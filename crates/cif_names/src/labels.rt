//! Lines of names and labels.
ghost use Rattle.std.specs.Prelude.{◌≡◌, ◌++◌, IfOk, OnOk};
ghost use Rattle.cif_grammar.specs.Views.{Gives};
ghost use Rattle.cif_names.specs.Entries.{
  label_command,
  label_of,
  label_text,
  layer_bytes,
  layer_text,
  name_text,
};
ghost use Rattle.cif_names.specs.Entries.{number_text, sign_text, word_behind, word_beside, word_text};
ghost use Rattle.cif_names.specs.Names.{label_line, name_line};
ghost use Rattle.cif_names.specs.Seen.{seen};

use crate::numbers::coordinate_of;
use crate::place::Place;
use crate::words::{are_spaces, only_word, split_field, split_word};
use byte_io::{are_digits, push_unsigned};
use cif_grammar::Number;
use lay_point::{LayerName, NoMemory, Sequence};
use std::alloc::Global;

/// A label of a text.
#[derive(Clone, Copy, Debug)]
pub(crate) struct ReadLabel<'a> {
    text: &'a [u8],
    /// Its place, in database units.
    x: Number,
    y: Number,
    /// The bytes of the layer that is set; none where none is.
    layer: &'a [u8],
    /// The word behind its place, which means one thing to one editor and another to the next; no bytes where there is none, or
    /// where it doesn't stay.
    word: &'a [u8],
}

/// Returns the line of the name behind a `9`, in the definition of this symbol.
pub(crate) fn name_line(
    alloc: Global,
    symbol: Option<u32>,
    bytes: &[u8],
) -> Result<Option<Sequence<u8>>, NoMemory>
    ensures { IfOk result (λ line. line ≡ name_line symbol bytes.now) }
{
    if symbol.is_none() {
        return Ok(None);
    }
    let Some(name) = only_word(bytes) else {
        return Ok(None);
    };
    let mut line = Vec::new(alloc);
    push_name(&mut line, name)?;
    Ok(Some(Sequence::from_vec(line)))
}

/// Returns the line of the label behind a `94`.
pub(crate) fn label_line(
    alloc: Global,
    place: &Place,
    bytes: &[u8],
) -> Result<Option<Sequence<u8>>, NoMemory>
    ensures { IfOk result (λ line. line ≡ label_line place.now bytes.now) }
{
    let Some(label) = read_label(place, bytes) else {
        return Ok(None);
    };
    let mut line = Vec::new(alloc);
    push_label(&mut line, &label)?;
    Ok(Some(Sequence::from_vec(line)))
}

/// Returns the label behind a `94`.
#[tactic(auto, unfolding(crate::specs::Entries::label_of))]
fn read_label<'a>(place: &'a Place, bytes: &'a [u8]) -> Option<ReadLabel<'a>>
    ensures { Gives seen result (label_of place.now bytes.now) }
{
    let (text, rest) = split_word(bytes)?;
    let (x, rest) = split_field(rest)?;
    let (y, rest) = split_field(rest)?;
    let x = coordinate_of(place.scale, x)?;
    let y = coordinate_of(place.scale, y)?;
    let word = word_behind(rest)?;
    Some(ReadLabel {
        text,
        x,
        y,
        layer: layer_bytes(&place.layer),
        word: word_beside(&place.layer, word),
    })
}

/// Returns the word behind a label's place; where a layer is set, no bytes unless it is a number.
fn word_beside<'a>(set: &Option<LayerName>, word: &'a [u8]) -> &'a [u8]
    ensures { result.now ≡ word_beside set.now word.now }
{
    match set {
        Some(_) if !are_digits(word) => &[],
        _ => word,
    }
}

/// Returns the word behind a label's coordinates, or no bytes.
#[tactic(auto, unfolding(crate::specs::Entries::word_behind))]
fn word_behind(bytes: &[u8]) -> Option<&[u8]>
    ensures { Gives (λ word. word.now) result (word_behind bytes.now) }
{
    if are_spaces(bytes) {
        return Some(&[]);
    }
    only_word(bytes)
}

/// Returns the bytes of the layer that is set, or none.
fn layer_bytes(set: &Option<LayerName>) -> &[u8]
    ensures { result.now ≡ layer_bytes set.now }
{
    match set {
        None => &[],
        Some(name) => name.as_bytes(),
    }
}

/// Appends the line of a name.
fn push_name(line: &mut Vec<u8>, name: &[u8]) -> Result<(), NoMemory>
    ensures { OnOk result (line.new.items ≡ line.old.items ++ name_text name.now) }
{
    line.extend_from_slice(b"9 ")?;
    line.extend_from_slice(name)?;
    line.extend_from_slice(b";\n")?;
    Ok(())
}

/// Appends the line of a label.
fn push_label(line: &mut Vec<u8>, label: &ReadLabel<'_>) -> Result<(), NoMemory>
    ensures { OnOk result (line.new.items ≡ line.old.items ++ label_text (seen label.now)) }
{
    push_layer(line, label.layer)?;
    push_command(line, label)
}

/// Appends the command of a label.
fn push_command(line: &mut Vec<u8>, label: &ReadLabel<'_>) -> Result<(), NoMemory>
    ensures { OnOk result (line.new.items ≡ line.old.items ++ label_command (seen label.now)) }
{
    line.extend_from_slice(b"94 ")?;
    line.extend_from_slice(label.text)?;
    line.extend_from_slice(b" ")?;
    push_number(line, label.x)?;
    line.extend_from_slice(b" ")?;
    push_number(line, label.y)?;
    push_word(line, label.word)?;
    line.extend_from_slice(b";\n")?;
    Ok(())
}

/// Appends a number with its sign.
fn push_number(line: &mut Vec<u8>, number: Number) -> Result<(), NoMemory>
    ensures { OnOk result (line.new.items ≡ line.old.items ++ number_text number) }
{
    push_sign(line, number)?;
    push_unsigned(line, u64::from(number.magnitude))
}

/// Appends the sign of a number that is below 0.
fn push_sign(line: &mut Vec<u8>, number: Number) -> Result<(), NoMemory>
    ensures { OnOk result (line.new.items ≡ line.old.items ++ sign_text number) }
{
    if number.negative && number.magnitude != 0 {
        line.extend_from_slice(b"-")?;
    }
    Ok(())
}

/// Appends a word behind a space, if there is one.
fn push_word(line: &mut Vec<u8>, word: &[u8]) -> Result<(), NoMemory>
    ensures { OnOk result (line.new.items ≡ line.old.items ++ word_text word.now) }
{
    if word.is_empty() {
        return Ok(());
    }
    line.extend_from_slice(b" ")?;
    line.extend_from_slice(word)?;
    Ok(())
}

/// Appends the command that sets a layer, if there is one.
fn push_layer(line: &mut Vec<u8>, layer: &[u8]) -> Result<(), NoMemory>
    ensures { OnOk result (line.new.items ≡ line.old.items ++ layer_text layer.now) }
{
    if layer.is_empty() {
        return Ok(());
    }
    line.extend_from_slice(b" L ")?;
    line.extend_from_slice(layer)?;
    line.extend_from_slice(b"; ")?;
    Ok(())
}
