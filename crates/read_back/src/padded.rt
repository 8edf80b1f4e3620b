//! Sections with some padded LEB128: expressions and entries that are already encoded.
ghost use Rattle.std.specs.Prelude.{◌≡◌, ◌≢◌, [], ◌∷◌, IfOk, IfErr, OnOk};
ghost use Rattle.wasm_base.specs.Entries.{ContainsPadded, counted_format};
ghost use Rattle.wasm_base.specs.Modules.{DecodesSections, GainsDecodingPadded};
ghost use Rattle.wasm_code.specs.Code.{code_section};
ghost use Rattle.wasm_code.specs.Expressions.{StoresPadded};
ghost use Rattle.wasm_custom.specs.Names.{subsection};
ghost use Rattle.wasm_reader.specs.Kinds.{contents_of};
ghost use Rattle.wasm_reader.specs.Kinds as held;
ghost use Rattle.wasm_base.specs.declared.fault.ReadFault.TheVariants.{Memory};
ghost use Rattle.wasm_sections.specs.DataSegments.{data_item};
ghost use Rattle.wasm_sections.specs.Elements.{element};
ghost use Rattle.wasm_sections.specs.Tables.{table_item};
ghost use Rattle.read_back.specs.ReadPadded.{first_everywhere, zero_offset, at_front, bytes_at_front, local_name, gets_twice, padded_sections};
ghost use Rattle.read_back.specs.Stored.{empty_body};

use crate::read_and_shorten;
use crate::stored::of_nothing;
use std::alloc::Allocator;
use wasm_base::{CowSlice, Encode, Module, ReadFault, RefType, Result};
use wasm_code::{CodeSection, ConstExpr};
use wasm_custom::NameSection;
use wasm_reader::{Items, SectionKind};
use wasm_sections::{DataSection, ElementSection, Elements, TableSection, TableType};

/// Returns the offset 0, whose number has two bytes.
fn padded_offset<A: Allocator>(alloc: A) -> Result<ConstExpr<A>>
    ensures { IfOk result (λ offset. StoresPadded offset zero_offset) }
{
    let offset = ConstExpr::raw(alloc, [0x41, 0x80, 0x00])?;
    Ok(offset)
}

/// Returns a table of references to the function 0, whose index has two bytes.
fn tables<A: Allocator + Copy>(alloc: A) -> Result<TableSection<A>>
    ensures { IfOk result (λ section. ContainsPadded table_item section (first_everywhere ∷ [])) }
{
    let functions = TableType {
        element_type: RefType::FUNCREF,
        table64: false,
        minimum: 1,
        maximum: None,
        shared: false,
    };
    let first = ConstExpr::raw(alloc, [0xD2, 0x80, 0x00])?;
    let mut section = TableSection::new(alloc);
    section.table_with_init(functions, &first)?;
    Ok(section)
}

/// Returns a segment of the function 1, at the front of the table.
fn elements<A: Allocator + Copy>(alloc: A) -> Result<ElementSection<A>>
    ensures { IfOk result (λ section. ContainsPadded element section (at_front ∷ [])) }
{
    let offset = padded_offset(alloc)?;
    let mut section = ElementSection::new(alloc);
    section.active(None, &offset, Elements::Functions(CowSlice::Borrowed(&[1])))?;
    Ok(section)
}

/// Returns a segment of these bytes, at the front of a memory.
#[tactic(auto, using(wasm_base::proofs::KnownLengths::drained_copied))]
fn segments<A: Allocator + Copy>(alloc: A, memory: u32, bytes: &[u8]) -> Result<DataSection<A>>
    ensures { IfOk result (λ section. ContainsPadded data_item section (bytes_at_front memory bytes.now ∷ [])) }
{
    let offset = padded_offset(alloc)?;
    let mut section = DataSection::new(alloc);
    section.active(memory, &offset, bytes.iter().copied())?;
    Ok(section)
}

/// Returns the name of a local, whose index has two bytes.
fn names<A: Allocator + Copy>(alloc: A) -> Result<NameSection<A>>
    ensures { IfOk result (λ section. ContainsPadded subsection section local_name) }
{
    let mut section = NameSection::new(alloc);
    section.raw(2, &[0x01, 0x00, 0x01, 0x80, 0x00, 0x01, 0x61])?;
    Ok(section)
}

/// Returns a module of these sections.
pub fn padded_entries<A: Allocator + Copy>(
    alloc: A,
    memory: u32,
    bytes: &[u8],
) -> Result<Vec<u8, A>>
    ensures { IfOk result (λ made. DecodesSections (padded_sections memory bytes.now) made.items) }
{
    let mut built = Module::new(alloc)?;
    built.section(&tables(alloc)?)?;
    built.section(&elements(alloc)?)?;
    built.section(&segments(alloc, memory, bytes)?)?;
    built.section(&names(alloc)?)?;
    Ok(built.finish())
}

/// Appends a data section of these bytes.
fn write_padded_segment<A: Allocator + Copy>(
    sink: &mut Vec<u8, A>,
    memory: u32,
    bytes: &[u8],
) -> Result<()>
    ensures { OnOk result (GainsDecodingPadded (counted_format data_item) (bytes_at_front memory bytes.now ∷ []) sink.old.items sink.new.items) }
{
    let section = segments(*sink.allocator(), memory, bytes)?;
    section.encode(sink)
}

/// Decodes that data section, and appends its minimal encoding.
pub fn read_padded_segment<'a, A: Allocator + Copy>(
    encoding: &'a mut Vec<u8, A>,
    memory: u32,
    bytes: &[u8],
    sink: &mut Vec<u8, A>,
) -> Result<Items<'a, A>, ReadFault>
    requires { encoding.old.items ≡ [] }
    ensures read { IfOk result (λ items. contents_of items ≡ held.Segments (bytes_at_front memory bytes.now ∷ [])) }
    ensures memory { IfErr result (λ e. e ≢ Memory → ⊥) }
{
    write_padded_segment(encoding, memory, bytes)?;
    let items = read_and_shorten(SectionKind::Segments, encoding, sink)?;
    Ok(items)
}

/// Appends a code section of a body in which an index has two bytes, and of a function.
pub fn write_padded_bodies<A: Allocator + Copy>(sink: &mut Vec<u8, A>) -> Result<()>
    ensures { OnOk result (GainsDecodingPadded code_section (gets_twice ∷ empty_body ∷ []) sink.old.items sink.new.items) }
{
    let alloc = *sink.allocator();
    let mut section = CodeSection::new(alloc);
    section.raw(&[0x00, 0x20, 0x80, 0x00, 0x20, 0x00, 0x0B])?;
    section.function(&of_nothing(alloc)?)?;
    section.encode(sink)
}
