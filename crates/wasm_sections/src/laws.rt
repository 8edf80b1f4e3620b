//! Laws about sections and their items, for all byte sequences: each function does nothing, and its
//! clauses are the law.
//!
//! `ItemLaws` says of a kind of items that its format is unambiguous, and that a well-formed record
//! encodes its item.
ghost use Rattle.std.specs.Prelude.{◌≡◌, ℕ, All, List, ◌∷◌, []};
ghost use Rattle.wasm_base.specs.Entries.{ItemLaws, counted_format};
ghost use Rattle.wasm_base.specs.Formats.{u32 as u32_format, byte, pair, size_prefixed, vec};
ghost use Rattle.wasm_base.specs.Numbers.{standard};
ghost use Rattle.wasm_base.specs.Modules.{DecodesPayloads, DecodesPayloadsPadded};
ghost use Rattle.wasm_base.specs.Decoding.{Unambiguous, UnambiguousPadded};
ghost use Rattle.wasm_code.specs.Expressions.{expression};
ghost use Rattle.wasm_insn.specs.Plain.{Plain};
ghost use Rattle.wasm_sections.specs.Constants.{Stored};
ghost use Rattle.wasm_sections.specs.DataSegments.{active, data_item, data_items};
ghost use Rattle.wasm_sections.specs.Elements.{ElementItem, element, element_items};
ghost use Rattle.wasm_sections.specs.Exports.{IsExport, export, export_items};
ghost use Rattle.wasm_sections.specs.GivenElements.{HaveOneEncoding};
ghost use Rattle.wasm_sections.specs.Globals.{global_type, IsGlobal, global_item, global_items};
ghost use Rattle.wasm_sections.specs.Imports.{IsEntity, import_format, entity, import_items};
ghost use Rattle.wasm_base.specs.Laws.{ContainsMore, ContainsMorePadded, RejectsAllAfterPadded};
ghost use Rattle.wasm_sections.specs.Memories.{IsMemory, memory_type, memory_items};
ghost use Rattle.wasm_sections.specs.Tables.{table_type, IsTable, table_item, table_items};
ghost use Rattle.wasm_sections.specs.Tags.{tag_type, tag_items};
ghost use Rattle.wasm_sections.specs.declared.element.ElementSegment.{ElementSegment};
ghost use Rattle.wasm_sections.specs.Functions.{function_items};

pub use self::{padded as wide, rejections as nothing_stands};
use crate::export::Export;
use crate::global::GlobalType;
use crate::import::EntityType;
use crate::memory::MemoryType;
use crate::table::TableType;
use std::alloc::Allocator;

/// The formats of sections and of their items are unambiguous. A well-formed record encodes its
/// item.
pub fn sections()
    ensures functions { Unambiguous (counted_format u32_format) }
    ensures tables { Unambiguous (counted_format table_item) }
    ensures memories { Unambiguous (counted_format memory_type) }
    ensures globals { Unambiguous (counted_format global_item) }
    ensures exports { Unambiguous (counted_format export) }
    ensures elements { Unambiguous (counted_format element) }
    ensures segments { Unambiguous (counted_format data_item) }
    ensures tags { Unambiguous (counted_format tag_type) }
    ensures imports { Unambiguous (counted_format import_format) }
    ensures entities { Unambiguous entity }
    ensures table_types { Unambiguous table_type }
    ensures global_types { Unambiguous global_type }
    ensures numbers { Unambiguous (size_prefixed u32_format) }

    ensures function_items { ItemLaws function_items }
    ensures table_items { ItemLaws table_items }
    ensures memory_items { ItemLaws memory_items }
    ensures global_items { ItemLaws global_items }
    ensures export_items { ItemLaws export_items }
    ensures element_items { ItemLaws element_items }
    ensures data_items { ItemLaws data_items }
    ensures import_items { ItemLaws import_items }
    ensures tag_items { ItemLaws tag_items }
{}

/// The standard's grammar also has an active data segment of memory 0 after flag 2. It is the same
/// segment as the one after flag 0.
#[tactic(auto, using(crate::proofs::DataLaws::memory_zero))]
pub fn standard()
    ensures { (bytes : List ℕ) (offset : List Plain) (content : List ℕ) → pair expression (vec byte) standard bytes (offset, content) → data_item standard (0x02 ∷ 0x00 ∷ bytes) (active 0 offset content) }
{}

/// The formats of sections are also unambiguous if padded LEB128 is admitted. A minimal encoding is
/// an encoding in that mode too.
pub fn padded()
    ensures functions { UnambiguousPadded (counted_format u32_format) }
    ensures tables { UnambiguousPadded (counted_format table_item) }
    ensures memories { UnambiguousPadded (counted_format memory_type) }
    ensures globals { UnambiguousPadded (counted_format global_item) }
    ensures exports { UnambiguousPadded (counted_format export) }
    ensures elements { UnambiguousPadded (counted_format element) }
    ensures segments { UnambiguousPadded (counted_format data_item) }
    ensures tags { UnambiguousPadded (counted_format tag_type) }
    ensures imports { UnambiguousPadded (counted_format import_format) }
    ensures entities { UnambiguousPadded entity }
    ensures table_types { UnambiguousPadded table_type }
    ensures global_types { UnambiguousPadded global_type }
    ensures numbers { UnambiguousPadded (size_prefixed u32_format) }
{}

/// The items that sections hold, call by call: none at first, and one more after each call that
/// adds a well-formed record.
pub fn calls()
    ensures functions { ContainsMore function_items }
    ensures tables { ContainsMore table_items }
    ensures memories { ContainsMore memory_items }
    ensures globals { ContainsMore global_items }
    ensures exports { ContainsMore export_items }
    ensures elements { ContainsMore element_items }
    ensures segments { ContainsMore data_items }
    ensures imports { ContainsMore import_items }
    ensures tags { ContainsMore tag_items }
{}

/// The same with padded LEB128: the expressions of a well-formed record may be padded, and an entry
/// may be a padded encoding of its item.
#[tactic(auto, using(crate::proofs::Calls::sections, wasm_base::proofs::SectionLaws::held_padded))]
pub fn padded_calls()
    ensures functions { ContainsMorePadded function_items }
    ensures tables { ContainsMorePadded table_items }
    ensures memories { ContainsMorePadded memory_items }
    ensures globals { ContainsMorePadded global_items }
    ensures exports { ContainsMorePadded export_items }
    ensures elements { ContainsMorePadded element_items }
    ensures segments { ContainsMorePadded data_items }
    ensures imports { ContainsMorePadded import_items }
    ensures tags { ContainsMorePadded tag_items }
{}

/// A call of an element section appends `given_encoding`. It equals the `element_encoding` of each
/// record that has the segment's mode and elements, with the same bytes of expressions.
#[tactic(auto, using(crate::proofs::ElementLaws::given_element))]
pub fn given_elements<A: Allocator>()
    ensures { (segment : ElementSegment A) (given : ElementItem Stored) → HaveOneEncoding segment given }
{}

/// If a module decodes to ids and payloads, and a section decodes to its items alone, then its
/// payload decodes to these alone.
pub fn payloads()
    ensures functions { DecodesPayloads (vec u32_format) }
    ensures tables { DecodesPayloads (vec table_item) }
    ensures memories { DecodesPayloads (vec memory_type) }
    ensures globals { DecodesPayloads (vec global_item) }
    ensures exports { DecodesPayloads (vec export) }
    ensures elements { DecodesPayloads (vec element) }
    ensures segments { DecodesPayloads (vec data_item) }
    ensures imports { DecodesPayloads (vec import_format) }
    ensures tags { DecodesPayloads (vec tag_type) }
    ensures numbers { DecodesPayloads u32_format }
{}

/// The same with padded LEB128.
#[tactic(auto, using(wasm_base::proofs::Payloads::padded_payloads))]
pub fn padded_payloads()
    ensures functions { DecodesPayloadsPadded (vec u32_format) }
    ensures tables { DecodesPayloadsPadded (vec table_item) }
    ensures memories { DecodesPayloadsPadded (vec memory_type) }
    ensures globals { DecodesPayloadsPadded (vec global_item) }
    ensures exports { DecodesPayloadsPadded (vec export) }
    ensures elements { DecodesPayloadsPadded (vec element) }
    ensures segments { DecodesPayloadsPadded (vec data_item) }
    ensures imports { DecodesPayloadsPadded (vec import_format) }
    ensures tags { DecodesPayloadsPadded (vec tag_type) }
    ensures numbers { DecodesPayloadsPadded u32_format }
{}

/// Three byte sequences that encode no section of their kind in the builders' grammar, even if
/// padded LEB128 is admitted. In the globals, bytes follow the first `End` of a constant
/// expression. In the data, the explicit memory of a segment is memory 0, which the standard
/// admits. In the imports, the byte 00 before a group is padded.
#[tactic(auto, using(crate::proofs::RejectionLaws::nothing))]
pub fn rejections()
    ensures inner_end { RejectsAllAfterPadded (counted_format global_item) (9 ∷ 1 ∷ 127 ∷ 0 ∷ 65 ∷ 1 ∷ 11 ∷ 65 ∷ 2 ∷ 11 ∷ []) }
    ensures named_first_memory { RejectsAllAfterPadded (counted_format data_item) (8 ∷ 1 ∷ 2 ∷ 0 ∷ 65 ∷ 0 ∷ 11 ∷ 1 ∷ 9 ∷ []) }
    ensures padded_group { RejectsAllAfterPadded (counted_format import_format) (6 ∷ 1 ∷ 0 ∷ 128 ∷ 0 ∷ 127 ∷ 0 ∷ []) }
{}

/// Proves that an export is well-formed: its name is UTF-8, and its index is in range. Returns the
/// index.
pub fn plain_export(export: &Export<'_>) -> u32
    ensures plain { IsExport export.now }
    ensures index { result ≡ export.now.index }
{
    export.index
}

/// Proves that each export of a list is well-formed.
pub fn plain_exports(exports: &[Export<'_>])
    ensures { All IsExport exports.now }
{
    for export in exports {
        plain_export(export);
    }
}

/// Proves that the numbers of a table type are in range. A caller needs this for a type behind a
/// reference, as in a list, whose range no clause states.
pub fn plain_table(table: TableType)
    ensures { IsTable table }
{}

/// Proves that the numbers of a memory type are in range.
pub fn plain_memory(memory: MemoryType)
    ensures { IsMemory memory }
{}

/// Proves that the numbers of a global type are in range.
pub fn plain_global(global: GlobalType)
    ensures { IsGlobal global }
{}

/// Proves that the numbers of an import's type are in range, whatever its kind.
pub fn plain_entity(entity: EntityType)
    ensures { IsEntity entity }
{}
