//! Reading of whole texts.
ghost use Rattle.std.specs.Prelude.{◌≡◌, ◌⊎◌, ◌+◌, ◌<◌, ◌≤◌, ◌^◌, ◌∷◌, ℕ, List, length, Ok, Err, IfOk};
ghost use Rattle.lay_point.specs.Memory.{IsAnswer};
ghost use Rattle.cif_grammar.specs.Commands.{Command};
ghost use Rattle.cif_grammar.specs.Cutting.{Ends, first_offset, offset_of};
ghost use Rattle.cif_grammar.specs.Grammar.{Reads};
ghost use Rattle.cif_grammar.specs.Bytes.{is_blank, skip};
ghost use Rattle.cif_read.specs.declared.content.Content.{Content};
ghost use Rattle.cif_read.specs.Binding.{IsBoundAs};
ghost use Rattle.cif_read.specs.Content.{content_of, content_size};
ghost use Rattle.cif_read.specs.Kept.{IsKept};
ghost use Rattle.cif_read.specs.Meaning.{
  AnswersMeaning,
  IsEndOf,
  after_bytes,
  at_ending,
  begins_with_end,
  content_in,
  no_memory,
};
ghost use Rattle.cif_read.specs.Meaning.{too_long};
ghost use Rattle.cif_read.specs.Steps.{leaves};

use crate::binding::bound;
use crate::content::Content;
use crate::fault::{CifFault, FaultKind};
use crate::file::{CifFile, MAX_TEXT};
use cif_grammar::{Class, command_len, skip};
use std::alloc::Global;

/// Returns the meaning of the text, or its first fault.
///
/// # Cost
///
/// A pass over the text, with a look-up in a hash table for each definition and each call, and a search
/// that looks at each symbol and each call a few times.
pub fn read(alloc: Global, text: &[u8]) -> Result<CifFile, CifFault>
    // A text that is too long is refused before anything else, without allocating.
    ensures too_long { MAX_TEXT < length text.now → result ≡ Err too_long }

    // Which file it is, or which fault at which offset.
    ensures answer { AnswersMeaning text.now result }

    // What is read is a text of the grammar, and means what its commands mean.
    ensures accepted { IfOk result (λ file. (commands : List (ℕ × Command)) × (last : Content)
        × Reads text.now commands × (content_of commands ≡ Ok last) × IsBoundAs last (Ok file)) }

    // A text of the grammar means what its commands mean, or has the first fault among them.
    ensures complete { (commands : List (ℕ × Command)) → Reads text.now commands → length text.now ≤ MAX_TEXT
        → (result ≡ Err no_memory) ⊎ IsEndOf (content_of commands) result }
{
    if text.len() > MAX_TEXT {
        return Err(CifFault {
            kind: FaultKind::TooMany,
            offset: 0,
        });
    }
    let content = content_in(alloc, text)?;
    bound(alloc, content)
}

/// Returns what a text that isn't too long means before its calls are bound, or its first fault.
fn content_in(alloc: Global, text: &[u8]) -> Result<Content, CifFault>
    requires { length text.now ≤ MAX_TEXT }
    ensures answer { IsAnswer no_memory result (content_in text.now) }
    ensures kept { IfOk result IsKept }
{
    let mut content = Content::new(alloc);
    let mut rest = skip(text, Class::Gap);
    while !begins_with_end(rest) {
        let offset = text.len() - rest.len();
        let Some(len) = command_len(rest) else {
            return Err(CifFault {
                kind: FaultKind::NoEnd,
                offset,
            });
        };
        apply(alloc, &mut content, offset, &rest[..len])?;
        rest = skip(&rest[len + 1..], Class::Gap);
    }
    ended(content, text.len(), rest)
}

/// Returns whether the bytes begin with the `E` that ends a text.
pub fn begins_with_end(bytes: &[u8]) -> bool
    ensures { result ≡ begins_with_end bytes.now }
{
    match bytes {
        [b'E', ..] => true,
        _ => false,
    }
}

/// Applies the bytes of the command at this offset to the content before it.
#[tactic(auto, unfolding(crate::specs::Meaning::after_bytes))]
fn apply(alloc: Global, content: &mut Content, offset: usize, bytes: &[u8]) -> Result<(), CifFault>
    requires { content_size content.old + 1 < 2 ^ 32 }
    ensures { IsAnswer no_memory (leaves result content.new) (after_bytes content.old offset bytes.now) }
{
    match content.apply(alloc, offset, bytes) {
        Ok(()) => Ok(()),
        Err(FaultKind::NoMemory) => Err(CifFault {
            kind: FaultKind::NoMemory,
            offset: 0,
        }),
        Err(kind) => Err(CifFault { kind, offset }),
    }
}

/// Returns what is meant at the end of a text of `total` bytes, where `rest` begins with the `E`.
fn ended(content: Content, total: usize, rest: &[u8]) -> Result<Content, CifFault>
    requires { length rest.now ≤ total }
    ensures { (behind : List ℕ) → rest.now ≡ 69 ∷ behind
        → result ≡ at_ending content (Ends (offset_of total rest.now) (first_offset total (skip is_blank behind))) }
{
    if content.definition.is_some() {
        return Err(CifFault {
            kind: FaultKind::Syntax,
            offset: total - rest.len(),
        });
    }
    let behind = match rest {
        [_, behind @ ..] => skip(behind, Class::Blank),
        [] => rest,
    };
    if behind.is_empty() {
        return Ok(content);
    }
    Err(CifFault {
        kind: FaultKind::AfterEnd,
        offset: total - behind.len(),
    })
}
