//! What the commands so far mean.
ghost use Rattle.std.specs.Prelude.{◌≡◌, ◌+◌, ◌<◌, ◌^◌, MatchOption, OnOk, Ok, Err, ⊤, if◌then◌else◌};
ghost use Rattle.lay_point.specs.Memory.{IsAnswer};
ghost use Rattle.cif_grammar.specs.Boxes.{box_of};
ghost use Rattle.cif_grammar.specs.Comments.{is_comment};
ghost use Rattle.cif_grammar.specs.Layers.{layer_of};
ghost use Rattle.cif_grammar.specs.Paths.{path_of};
ghost use Rattle.cif_grammar.specs.Reading.{bracket_of, call_of};
ghost use Rattle.cif_read.specs.Content.{
  after_box,
  after_call,
  after_layer,
  after_polygon,
  after_start,
  called,
  current_cell,
};
ghost use Rattle.cif_read.specs.Content.{
  content_size,
  current_scale,
  drawn,
  effect_of,
  empty_content,
  finished,
  is_big_call,
  is_inside,
};
ghost use Rattle.cif_read.specs.Content.{with_figure};
ghost use Rattle.cif_read.specs.Meaning.{after_piece, definition_kind, read_as};
ghost use Rattle.cif_read.specs.Scales.{IsRatio};
ghost use Rattle.cif_read.specs.Steps.{leaves};
ghost use Rattle.cif_read.specs.Symbols.{definition_fault, has_zero_scale, is_big_definition};
ghost use Rattle.cif_read.specs.declared.fault.FaultKind.TheVariants.{
  NoMemory as OutOfMemory,
  Syntax,
};

use crate::boxes::{box_ring, is_askew, is_big_box};
use crate::element::{Element, Figure};
use crate::fault::FaultKind;
use crate::file::MAX_SYMBOLS;
use crate::polygon::{is_above_written, is_big_path, polygon_ring};
use crate::ratio::Ratio;
use crate::turns::{are_big, call_turn};
use cif_grammar::{
    Class, Definition, Scale, are_blanks, is_comment, read_box, read_call, read_definition,
    read_layer, read_path, skip,
};
use lay_cells::{CellId, Cells, MAX_SYMBOL};
use lay_point::{LayerName, NoMemory, Ring, Sequence, Turn};
use std::alloc::Global;

/// A definition that the text is in.
#[derive(Clone, Copy, Debug)]
pub struct OpenDefinition {
    /// The symbol's number.
    pub symbol: u32,
    /// The scale of its distances.
    pub scale: Ratio,
    /// The layer that was set where it began.
    pub saved: Option<LayerName>,
}

/// A call whose symbol may still be defined.
#[derive(Clone, Copy, Debug)]
pub struct Pending {
    /// Where its command stands in the text.
    pub offset: usize,
    /// The cell in which it stands.
    pub caller: CellId,
    /// The number of the symbol that it calls.
    pub target: u32,
}

/// What the commands so far mean.
#[derive(Debug, Drop)]
pub struct Content {
    /// The layer that is set.
    pub layer: Option<LayerName>,
    /// The definition that the text is in.
    pub definition: Option<OpenDefinition>,
    /// The symbols whose definitions have begun.
    pub symbols: Cells,
    /// The elements that are kept.
    pub elements: Sequence<Element>,
    /// The calls among them.
    pub calls: Sequence<Pending>,
    /// How many extensions there were.
    pub extensions: u32,
    /// How many elements were dropped.
    pub dropped: u32,
}

impl Content {
    /// Returns the content in which no layer is set and nothing is defined or drawn.
    pub fn new(alloc: Global) -> Content
        ensures { result ≡ empty_content }
    {
        Content {
            layer: None,
            definition: None,
            symbols: Cells::new(alloc),
            elements: Sequence::from_vec(Vec::new(alloc)),
            calls: Sequence::from_vec(Vec::new(alloc)),
            extensions: 0,
            dropped: 0,
        }
    }

    /// Applies the command at this offset, whose bytes stand here without their semicolon. After a fault the
    /// content is not to be used.
    ///
    /// # Errors
    ///
    /// The command's first fault, as `after_piece` has it; `OutOfMemory`, if an allocation fails.
    pub fn apply(&mut self, alloc: Global, offset: usize, bytes: &[u8]) -> Result<(), FaultKind>
        requires { content_size self.old + 1 < 2 ^ 32 }
        ensures { IsAnswer OutOfMemory (leaves result self.new) (after_piece self.old offset bytes.now) }
    {
        let Some((first, behind)) = bytes.split_first() else {
            return Err(FaultKind::Syntax);
        };
        if first.is_ascii_digit() {
            self.extensions += 1;
            return Ok(());
        }
        match *first {
            b'P' => self.add_polygon(alloc, behind),
            b'B' => self.add_box(alloc, behind),
            b'L' => self.set_layer(behind),
            b'D' => self.apply_bracket(skip(behind, Class::Blank)),
            b'C' => self.add_call(alloc, offset, behind),
            b'(' => checked_comment(behind),
            b'W' => Err(FaultKind::Wire),
            b'R' => Err(FaultKind::Flash),
            _ => Err(FaultKind::Syntax),
        }
    }

    /// Returns the cell that is drawn in.
    fn cell(&self) -> CellId
        ensures { result ≡ current_cell self.now.definition }
    {
        match self.definition {
            Some(definition) => CellId::Symbol(definition.symbol),
            None => CellId::Top,
        }
    }

    /// Returns the scale of the distances.
    fn scale(&self) -> Ratio
        ensures { result ≡ current_scale self.now.definition }
    {
        match self.definition {
            Some(definition) => definition.scale,
            None => Ratio::of(Scale {
                numerator: 1,
                denominator: 1,
            }),
        }
    }

    /// Adds an element.
    fn add_figure(&mut self, figure: Figure) -> Result<(), NoMemory>
        ensures { OnOk result (self.new ≡ with_figure self.old figure) }
    {
        let cell = self.cell();
        self.elements.push(Element { cell, figure })
    }

    /// Draws a polygon on the layer, or counts one that is dropped.
    fn draw(&mut self, layer: LayerName, ring: Option<Ring>) -> Result<(), NoMemory>
        requires { content_size self.old + 1 < 2 ^ 32 }
        ensures { OnOk result (self.new ≡ drawn self.old layer ring) }
    {
        match ring {
            Some(ring) => self.add_figure(Figure::Polygon { layer, ring })?,
            None => self.dropped += 1,
        }
        Ok(())
    }

    /// Adds the polygon behind a `P`.
    #[tactic(auto, unfolding(crate::specs::Content::after_polygon))]
    fn add_polygon(&mut self, alloc: Global, bytes: &[u8]) -> Result<(), FaultKind>
        requires { content_size self.old + 1 < 2 ^ 32 }
        ensures { IsAnswer OutOfMemory (leaves result self.new)
            (read_as Syntax (after_polygon self.old) (path_of bytes.now)) }
    {
        let vertices = read_path(alloc, bytes)?.ok_or(FaultKind::Syntax)?;
        if is_big_path(vertices.as_slice()) {
            return Err(FaultKind::TooBig);
        }
        let layer = self.layer.ok_or(FaultKind::NoLayer)?;
        let ring = polygon_ring(alloc, self.scale(), vertices.as_slice())?;
        Ok(self.draw(layer, ring)?)
    }

    /// Adds the box behind a `B`.
    #[tactic(auto, unfolding(crate::specs::Content::after_box))]
    fn add_box(&mut self, alloc: Global, bytes: &[u8]) -> Result<(), FaultKind>
        requires { content_size self.old + 1 < 2 ^ 32 }
        ensures { IsAnswer OutOfMemory (leaves result self.new)
            (read_as Syntax (after_box self.old) (box_of bytes.now)) }
    {
        let numbers = read_box(bytes).ok_or(FaultKind::Syntax)?;
        if is_big_box(numbers) {
            return Err(FaultKind::TooBig);
        }
        if is_askew(numbers) {
            return Err(FaultKind::OffAxis);
        }
        let layer = self.layer.ok_or(FaultKind::NoLayer)?;
        let ring = box_ring(alloc, self.scale(), numbers)?;
        Ok(self.draw(layer, ring)?)
    }

    /// Sets the layer behind an `L`.
    #[tactic(auto, using(crate::proofs::LayerLemmas::layer_name_of_layer), unfolding(crate::specs::Content::after_layer))]
    fn set_layer(&mut self, bytes: &[u8]) -> Result<(), FaultKind>
        ensures { leaves result self.new ≡ read_as Syntax (after_layer self.old) (layer_of bytes.now) }
    {
        let name = read_layer(bytes).ok_or(FaultKind::Syntax)?;
        let name = LayerName::new(name).ok_or(FaultKind::LongName)?;
        self.layer = Some(name);
        Ok(())
    }

    /// Begins or ends a definition, as the bytes behind a `D` and blanks say.
    fn apply_bracket(&mut self, bytes: &[u8]) -> Result<(), FaultKind>
        ensures { IsAnswer OutOfMemory (leaves result self.new)
            (read_as (definition_kind bytes.now) (effect_of self.old 0) (bracket_of bytes.now)) }
    {
        match bytes {
            [b'S', behind @ ..] => {
                let definition = read_definition(behind).ok_or(FaultKind::Syntax)?;
                self.begin(definition)
            }
            [b'F', behind @ ..] if are_blanks(behind) => self.finish(),
            [b'D', ..] => Err(FaultKind::DeleteDef),
            _ => Err(FaultKind::Syntax),
        }
    }

    /// Begins a definition.
    #[tactic(auto, unfolding(crate::specs::Content::after_start))]
    fn begin(&mut self, heading: Definition) -> Result<(), FaultKind>
        ensures { IsAnswer OutOfMemory (leaves result self.new) (after_start self.old heading) }
    {
        if self.definition.is_some() {
            return Err(FaultKind::Syntax);
        }
        if let Some(fault) = definition_fault(&self.symbols, heading) {
            return Err(fault);
        }
        self.symbols.add(heading.symbol)?;
        self.definition = Some(OpenDefinition {
            symbol: heading.symbol,
            scale: Ratio::of(heading.scale),
            saved: self.layer,
        });
        self.layer = None;
        Ok(())
    }

    /// Ends the definition.
    fn finish(&mut self) -> Result<(), FaultKind>
        ensures { leaves result self.new ≡ finished self.old self.old.definition }
    {
        let Some(definition) = self.definition else {
            return Err(FaultKind::Syntax);
        };
        self.layer = definition.saved;
        self.definition = None;
        Ok(())
    }

    /// Adds the call behind a `C`, whose command stands at this offset.
    #[tactic(auto, unfolding(crate::specs::Content::after_call))]
    fn add_call(&mut self, alloc: Global, offset: usize, bytes: &[u8]) -> Result<(), FaultKind>
        ensures { IsAnswer OutOfMemory (leaves result self.new)
            (read_as Syntax (effect_of self.old offset) (call_of bytes.now)) }
    {
        let call = read_call(alloc, bytes)?.ok_or(FaultKind::Syntax)?;
        let changes = call.changes.as_slice();
        if call.symbol > MAX_SYMBOL || are_big(changes) {
            return Err(FaultKind::TooBig);
        }
        let turn = call_turn(self.scale(), changes)?;
        Ok(self.call(offset, call.symbol, turn)?)
    }

    /// Calls the symbol of this number, turned.
    fn call(&mut self, offset: usize, target: u32, turn: Turn) -> Result<(), NoMemory>
        ensures { OnOk result (self.new ≡ called self.old offset target turn) }
    {
        let caller = self.cell();
        self.add_figure(Figure::Call { target, turn })?;
        self.calls.push(Pending {
            offset,
            caller,
            target,
        })
    }
}

/// Returns a fault where the bytes behind a `(` are no comment.
fn checked_comment(bytes: &[u8]) -> Result<(), FaultKind>
    ensures { result ≡ (if is_comment bytes.now then Ok tt else Err Syntax) }
{
    if is_comment(bytes) {
        Ok(())
    } else {
        Err(FaultKind::Syntax)
    }
}

/// Returns what is wrong with a definition where these symbols are defined.
#[tactic(auto, unfolding(crate::specs::Symbols::definition_fault))]
fn definition_fault(symbols: &Cells, definition: Definition) -> Option<FaultKind>
    ensures value { result ≡ definition_fault symbols.now definition }
    ensures good { MatchOption result (IsRatio definition.scale) (λ fault. ⊤) }
{
    let Definition { symbol, scale } = definition;
    if symbol > MAX_SYMBOL
        || is_above_written(scale.numerator)
        || is_above_written(scale.denominator)
    {
        return Some(FaultKind::TooBig);
    }
    if scale.numerator == 0 || scale.denominator == 0 {
        return Some(FaultKind::ZeroScale);
    }
    if symbols.position(symbol).is_some() {
        return Some(FaultKind::TwoSymbols);
    }
    if symbols.len() < MAX_SYMBOLS {
        None
    } else {
        Some(FaultKind::TooMany)
    }
}
