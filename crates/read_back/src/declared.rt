//! Sections of declarations, written and read back: types, imports, tables, memories, tags and
//! exports.
ghost use Rattle.std.specs.Prelude.{◌≡◌, ◌≢◌, [], ◌∷◌, IfOk, IfErr, OnOk};
ghost use Rattle.wasm_base.specs.Entries.{counted_format};
ghost use Rattle.wasm_base.specs.Modules.{GainsDecoding};
ghost use Rattle.wasm_base.specs.declared.fault.ReadFault.TheVariants.{Memory};
ghost use Rattle.wasm_sections.specs.Exports.{export};
ghost use Rattle.wasm_sections.specs.Imports.{import_format};
ghost use Rattle.wasm_sections.specs.Memories.{memory_type};
ghost use Rattle.wasm_sections.specs.Tables.{table_item};
ghost use Rattle.wasm_sections.specs.Tags.{tag_type, ContainsTags};
ghost use Rattle.wasm_types.specs.RecTypes.{type_item};
ghost use Rattle.read_back.specs.Declarations.{byte_types, imported_function, pages, two_pages, thrown, exported};
ghost use Rattle.read_back.specs.FirstValues.{null_table, nulled_table};
ghost use Rattle.wasm_reader.specs.Kinds.{Types, Imports, Tables, Memories, Tags, Exports, contents_of};

use crate::first_values::encode_null_tables;
use crate::read_and_shorten;
use std::alloc::Allocator;
use wasm_base::{Encode, ReadFault, Result};
use wasm_reader::{Items, SectionKind};
use wasm_sections::{
    EntityType, ExportKind, ExportSection, ImportSection, MemorySection, MemoryType, TagKind,
    TagSection, TagType,
};
use wasm_types::{
    ArrayType, CompositeInnerType, CompositeType, FieldType, StorageType, SubType, TypeSection,
};

/// A mutable byte.
const BYTE: FieldType = FieldType {
    element_type: StorageType::I8,
    mutable: true,
};

/// An array of bytes that others may extend.
const OPEN_BYTES: SubType = SubType {
    is_final: false,
    supertype_idx: None,
    composite_type: CompositeType {
        inner: CompositeInnerType::Array(ArrayType(BYTE)),
        shared: false,
        descriptor: None,
        describes: None,
    },
};

/// Appends a type section: an array, a structure, and an array that others may extend.
fn write_types<A: Allocator + Copy>(sink: &mut Vec<u8, A>) -> Result<()>
    ensures { OnOk result (GainsDecoding (counted_format type_item) byte_types sink.old.items sink.new.items) }
{
    let mut section = TypeSection::new(*sink.allocator());
    section.ty().array(&StorageType::I8, true)?;
    section.ty().struct_([BYTE])?;
    section.ty().subtype(&OPEN_BYTES)?;
    section.encode(sink)
}

/// Decodes that type section, and appends its minimal encoding.
pub fn read_types<'a, A: Allocator + Copy + 'a>(
    encoding: &'a mut Vec<u8, A>,
    sink: &mut Vec<u8, A>,
) -> Result<Items<'a, A>, ReadFault>
    requires { encoding.old.items ≡ [] }
    ensures read { IfOk result (λ items. contents_of items ≡ Types byte_types) }
    ensures same { OnOk result (GainsDecoding (counted_format type_item) byte_types sink.old.items sink.new.items) }
    ensures memory { IfErr result (λ e. e ≢ Memory → ⊥) }
{
    write_types(encoding)?;
    let items = read_and_shorten(SectionKind::Types, encoding, sink)?;
    Ok(items)
}

/// Appends an import section of one function.
fn write_imports<A: Allocator + Copy>(sink: &mut Vec<u8, A>, index: u32) -> Result<()>
    ensures { OnOk result (GainsDecoding (counted_format import_format) (imported_function index ∷ []) sink.old.items sink.new.items) }
{
    let mut section = ImportSection::new(*sink.allocator());
    section.import("m", "f", EntityType::Function(index))?;
    section.encode(sink)
}

/// Decodes that import section, and appends its minimal encoding.
pub fn read_imports<'a, A: Allocator + Copy + 'a>(
    encoding: &'a mut Vec<u8, A>,
    index: u32,
    sink: &mut Vec<u8, A>,
) -> Result<Items<'a, A>, ReadFault>
    requires { encoding.old.items ≡ [] }
    ensures read { IfOk result (λ items. contents_of items ≡ Imports (imported_function index ∷ [])) }
    ensures same { OnOk result (GainsDecoding (counted_format import_format) (imported_function index ∷ []) sink.old.items sink.new.items) }
    ensures memory { IfErr result (λ e. e ≢ Memory → ⊥) }
{
    write_imports(encoding, index)?;
    let items = read_and_shorten(SectionKind::Imports, encoding, sink)?;
    Ok(items)
}

/// Decodes a table section of two tables, one with an initializer, and appends its minimal
/// encoding.
pub fn read_tables<'a, A: Allocator + Copy + 'a>(
    encoding: &'a mut Vec<u8, A>,
    minimum: u64,
    sink: &mut Vec<u8, A>,
) -> Result<Items<'a, A>, ReadFault>
    requires { encoding.old.items ≡ [] }
    ensures read { IfOk result (λ items. contents_of items ≡ Tables (null_table minimum ∷ nulled_table minimum ∷ [])) }
    ensures same { OnOk result (GainsDecoding (counted_format table_item) (null_table minimum ∷ nulled_table minimum ∷ []) sink.old.items sink.new.items) }
    ensures memory { IfErr result (λ e. e ≢ Memory → ⊥) }
{
    encode_null_tables(encoding, minimum)?;
    let items = read_and_shorten(SectionKind::Tables, encoding, sink)?;
    Ok(items)
}

/// Appends a memory section of two memories.
fn write_memories<A: Allocator + Copy>(sink: &mut Vec<u8, A>, minimum: u64) -> Result<()>
    ensures { OnOk result (GainsDecoding (counted_format memory_type) (pages minimum ∷ two_pages ∷ []) sink.old.items sink.new.items) }
{
    let mut section = MemorySection::new(*sink.allocator());
    section.memory(MemoryType {
        minimum,
        maximum: None,
        memory64: false,
        shared: false,
        page_size_log2: None,
    })?;
    section.memory(MemoryType {
        minimum: 1,
        maximum: Some(2),
        memory64: true,
        shared: false,
        page_size_log2: None,
    })?;
    section.encode(sink)
}

/// Decodes that memory section, and appends its minimal encoding.
pub fn read_memories<'a, A: Allocator + Copy + 'a>(
    encoding: &'a mut Vec<u8, A>,
    minimum: u64,
    sink: &mut Vec<u8, A>,
) -> Result<Items<'a, A>, ReadFault>
    requires { encoding.old.items ≡ [] }
    ensures read { IfOk result (λ items. contents_of items ≡ Memories (pages minimum ∷ two_pages ∷ [])) }
    ensures same { OnOk result (GainsDecoding (counted_format memory_type) (pages minimum ∷ two_pages ∷ []) sink.old.items sink.new.items) }
    ensures memory { IfErr result (λ e. e ≢ Memory → ⊥) }
{
    write_memories(encoding, minimum)?;
    let items = read_and_shorten(SectionKind::Memories, encoding, sink)?;
    Ok(items)
}

/// Returns a tag section of two tags: of the type 0, and of the type of this index.
pub(crate) fn tags<A: Allocator + Copy>(alloc: A, index: u32) -> Result<TagSection<A>>
    ensures { IfOk result (λ section. ContainsTags section (thrown 0 ∷ thrown index ∷ [])) }
{
    let mut section = TagSection::new(alloc);
    section.tag(TagType {
        kind: TagKind::Exception,
        func_type_idx: 0,
    })?;
    section.tag(TagType {
        kind: TagKind::Exception,
        func_type_idx: index,
    })?;
    Ok(section)
}

/// Appends that tag section.
fn write_tags<A: Allocator + Copy>(sink: &mut Vec<u8, A>, index: u32) -> Result<()>
    ensures { OnOk result (GainsDecoding (counted_format tag_type) (thrown 0 ∷ thrown index ∷ []) sink.old.items sink.new.items) }
{
    let section = tags(*sink.allocator(), index)?;
    section.encode(sink)
}

/// Decodes that tag section, and appends its minimal encoding.
pub fn read_tags<'a, A: Allocator + Copy + 'a>(
    encoding: &'a mut Vec<u8, A>,
    index: u32,
    sink: &mut Vec<u8, A>,
) -> Result<Items<'a, A>, ReadFault>
    requires { encoding.old.items ≡ [] }
    ensures read { IfOk result (λ items. contents_of items ≡ Tags (thrown 0 ∷ thrown index ∷ [])) }
    ensures same { OnOk result (GainsDecoding (counted_format tag_type) (thrown 0 ∷ thrown index ∷ []) sink.old.items sink.new.items) }
    ensures memory { IfErr result (λ e. e ≢ Memory → ⊥) }
{
    write_tags(encoding, index)?;
    let items = read_and_shorten(SectionKind::Tags, encoding, sink)?;
    Ok(items)
}

/// Appends an export section of one function.
fn write_exports<A: Allocator + Copy>(sink: &mut Vec<u8, A>, name: &str, index: u32) -> Result<()>
    ensures { OnOk result (GainsDecoding (counted_format export) (exported name.now index ∷ []) sink.old.items sink.new.items) }
{
    let mut section = ExportSection::new(*sink.allocator());
    section.export(name, ExportKind::Func, index)?;
    section.encode(sink)
}

/// Decodes that export section, and appends its minimal encoding.
pub fn read_exports<'a, A: Allocator + Copy + 'a>(
    encoding: &'a mut Vec<u8, A>,
    name: &str,
    index: u32,
    sink: &mut Vec<u8, A>,
) -> Result<Items<'a, A>, ReadFault>
    requires { encoding.old.items ≡ [] }
    ensures read { IfOk result (λ items. contents_of items ≡ Exports (exported name.now index ∷ [])) }
    ensures same { OnOk result (GainsDecoding (counted_format export) (exported name.now index ∷ []) sink.old.items sink.new.items) }
    ensures memory { IfErr result (λ e. e ≢ Memory → ⊥) }
{
    write_exports(encoding, name, index)?;
    let items = read_and_shorten(SectionKind::Exports, encoding, sink)?;
    Ok(items)
}
