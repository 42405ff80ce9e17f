//! A text with the lines of what is kept in it.
ghost use Rattle.std.specs.Prelude.{◌≡◌, ◌++◌, None, IfOk, OnOk};
ghost use Rattle.byte_io.specs.Lines.{lines};
ghost use Rattle.cif_names.specs.Maps.{bytes_at};
ghost use Rattle.cif_names.specs.Woven.{
  has_newline,
  last_call,
  number_behind,
  started,
  with_names,
  woven,
  woven_line,
};

use crate::maps::{bytes_at, headings, symbol_or};
use crate::names::Names;
use byte_io::split_line;
use cif_grammar::integer;
use lay_point::{NoMemory, Sequence};
use std::alloc::Global;
use std::collections::BTreeMap;

/// Returns the written text with these lines in it, behind the line that begins the definition of their symbol; those of no
/// symbol are lines of the symbol that the text's last call names. In a definition they come in order, but those that set no
/// layer before those that set one: so no label gets the layer of another.
///
/// # Errors
///
/// `NoMemory`, if an allocation fails.
///
/// # Cost
///
/// Linear in the text and in what is kept, times the logarithm of the number of symbols.
#[tactic(auto, unfolding(crate::specs::Woven::with_names))]
pub fn with_names(alloc: Global, names: &Names, written: &[u8]) -> Result<Vec<u8>, NoMemory>
    ensures { IfOk result (λ bytes. bytes.items ≡ with_names names.now written.now) }
{
    let headings = headings(alloc, names.entries(), last_call(written))?;
    woven(alloc, &headings, written)
}

/// Returns the text with the lines of each symbol in it.
fn woven(
    alloc: Global,
    headings: &BTreeMap<u32, Sequence<u8>>,
    written: &[u8],
) -> Result<Vec<u8>, NoMemory>
    ensures { IfOk result (λ bytes. bytes.items ≡ woven (bytes_at headings.now.entries) (lines written.now)) }
{
    let mut bytes = Vec::new(alloc);
    let mut rest = written;
    while let Some((line, behind)) = split_line(rest) {
        push_line(&mut bytes, headings, line)?;
        rest = behind;
    }
    Ok(bytes)
}

/// Appends a line, and what stands behind it.
fn push_line(
    bytes: &mut Vec<u8>,
    headings: &BTreeMap<u32, Sequence<u8>>,
    line: &[u8],
) -> Result<(), NoMemory>
    ensures { OnOk result (bytes.new.items ≡ bytes.old.items ++ woven_line (bytes_at headings.now.entries) line.now) }
{
    bytes.extend_from_slice(line)?;
    if let Some(symbol) = started(line) {
        bytes.extend_from_slice(bytes_at(headings, symbol))?;
    }
    Ok(())
}

/// Returns the symbol whose definition the line begins.
#[tactic(auto, unfolding(crate::specs::Woven::started))]
fn started(line: &[u8]) -> Option<u32>
    ensures { result ≡ started line.now }
{
    if !is_ended(line) {
        return None;
    }
    number_behind(b"DS ", line)
}

/// Returns whether the line has its newline.
fn is_ended(line: &[u8]) -> bool
    ensures { result ≡ has_newline line.now }
{
    line.iter().any(|b| *b == b'\n')
}

/// Returns the symbol that the text's last call names.
fn last_call(written: &[u8]) -> Option<u32>
    ensures { result ≡ last_call None (lines written.now) }
{
    let mut called = None;
    let mut rest = written;
    while let Some((line, behind)) = split_line(rest) {
        called = symbol_or(called, number_behind(b"C ", line));
        rest = behind;
    }
    called
}

/// Returns the number behind these bytes at the front of the line.
#[tactic(auto, unfolding(crate::specs::Woven::number_behind))]
fn number_behind(front: &[u8], line: &[u8]) -> Option<u32>
    ensures { result ≡ number_behind front.now line.now }
{
    if !line.starts_with(front) {
        return None;
    }
    let (number, _) = integer(&line[front.len()..])?;
    Some(number)
}
