//! What is worth a look in a CIF text that has no fault.

use crate::place::place_of as line_place;
use byte_io::find_byte;
use cif_grammar::{Class, command_len, skip};
use lay_point::NoMemory;
use std::alloc::Global;
use std::io::Write;

/// What is reported to a person of a CIF text that may be read otherwise than it was meant: the first extension with a lone
/// `'`, as KLayout writes a label with a semicolon, and the first layer's name with lower-case letters, which are blanks.
///
/// # Errors
///
/// `NoMemory`, if an allocation fails.
///
/// # Cost
///
/// A search for `'` and for `L`; where there is a `'`, a pass over the text.
pub fn of_notices(alloc: Global, text: &[u8]) -> Result<Vec<u8>, NoMemory> {
    let mut lines = Vec::new(alloc);
    if let Some(offset) = lone_quote(text) {
        put_notice(
            &mut lines,
            text,
            offset,
            "a text with a lone `'`: a label with a semicolon? What follows the `;` was read as commands",
        )?;
    }
    if let Some(offset) = small_layer(text) {
        put_notice(
            &mut lines,
            text,
            offset,
            "a layer's name with lower-case letters, which are blanks in CIF: `L metal1;` is layer 1",
        )?;
    }
    Ok(lines)
}

/// Appends a notice of the place at this offset.
fn put_notice(lines: &mut Vec<u8>, text: &[u8], offset: usize, what: &str) -> Result<(), NoMemory> {
    let line = line_place(text, offset.min(text.len())).line;
    write!(lines, "masklay: line {line} of the CIF text: {what}\n").map_err(|_| NoMemory)
}

/// Returns where the first extension begins in which `'` occurs an odd number of times.
fn lone_quote(text: &[u8]) -> Option<usize> {
    find_byte(text, b'\'')?;
    let mut rest = skip(text, Class::Gap);
    for _ in 0..text.len() {
        let len = command_len(rest)?;
        if has_lone_quote(&rest[..len]) {
            return Some(text.len().saturating_sub(rest.len()));
        }
        rest = skip(&rest[len + 1..], Class::Gap);
    }
    None
}

/// Returns whether the command is an extension in which `'` occurs an odd number of times.
fn has_lone_quote(command: &[u8]) -> bool {
    match command {
        [b'0'..=b'9', ..] => command.iter().filter(|byte| **byte == b'\'').count() % 2 == 1,
        _ => false,
    }
}

/// Returns where the first layer command is whose name has lower-case letters.
fn small_layer(text: &[u8]) -> Option<usize> {
    let mut from = 0;
    for _ in 0..text.len() {
        let offset = from + find_byte(&text[from..], b'L')?;
        if is_command_start(&text[..offset]) && has_small(&text[offset..]) {
            return Some(offset);
        }
        from = offset + 1;
    }
    None
}

/// Returns whether a command can begin after these bytes.
fn is_command_start(before: &[u8]) -> bool {
    match before.trim_ascii_end() {
        [] | [.., b';'] => true,
        _ => false,
    }
}

/// Returns whether there is a lower-case letter before the first semicolon.
fn has_small(command: &[u8]) -> bool {
    let len = find_byte(command, b';').unwrap_or(command.len());
    command[..len].iter().any(u8::is_ascii_lowercase)
}
