// The import section: its builder and its reader.
ghost use Rattle.std.specs.Prelude.{◌≡◌, ◌≢◌, ◌++◌, IfOk, ⊤, ◌≤◌, ◌∷◌, [], List, ℕ, IfErr, MatchOption, Err, OnOk, OnErr, map};
ghost use Rattle.wasm_base.specs.Calls.{AddsTo};
ghost use Rattle.wasm_base.specs.Formats.{name, pair, prefixed, vec};
ghost use Rattle.wasm_base.specs.Continuing.{RejectsWhole};
ghost use Rattle.wasm_base.specs.Numbers.{padded_of};
ghost use Rattle.wasm_base.specs.Decoding.{Unambiguous, Rejects};
ghost use Rattle.wasm_base.specs.Encodings.{size_prefixed_encoding, HasEncodableSize};
ghost use Rattle.wasm_base.specs.declared.refused.Refused.TheVariants.{TooLong};
ghost use Rattle.wasm_base.specs.Minimal.{AppendsMinimal, IsFrontOf, HasEncoding, builders_alone};
ghost use Rattle.wasm_base.specs.declared.fault.ReadFault.TheVariants.{Memory};
ghost use Rattle.wasm_sections.specs.Imports.{import_items, entity_encoding, ImportItem, import_encoding, IsEncodableImport, import_format, named_encoding, import_item, compact_item, imports_item, entity, group};
ghost use Rattle.wasm_sections.specs.declared.import.EntityType.{EntityType as EntityModel};
ghost use Rattle.wasm_sections.specs.declared.import.EntityType.TheVariants as entities;

use crate::counted_section::{CountedSection, ItemKind, RecordOf};
use crate::global::GlobalType;
use crate::memory::MemoryType;
use crate::table::TableType;
use crate::tag::TagType;
use std::alloc::{Allocator, Global};
use wasm_base::{
    CORE_FUNCTION_EXACT_SORT, CORE_FUNCTION_SORT, CORE_GLOBAL_SORT, CORE_MEMORY_SORT,
    CORE_TABLE_SORT, CORE_TAG_SORT, CowSlice, DecodeError, Encode, Grammar, Kind, Layout, Pieces,
    ReadFault, Readable, Result, SectionId, Store, read_whole,
};

/// The import section: the items that a module imports.
///
/// ```rust
/// let mut imports = ImportSection::new(alloc);
/// imports.import("env", "f", EntityType::Function(0))?;
/// module.section(&imports)?;
/// ```
pub type ImportSection<A = Global> = CountedSection<ImportItems, Pieces<A>>;

/// The kind of an import section's items: imports and groups of imports, each of which is one
/// entry.
#[derive(Clone, Copy, Debug)]
pub struct ImportItems;

/// The type of an imported item.
#[derive(Clone, Copy, PartialEq, Eq, Debug)]
pub enum EntityType {
    /// A function of the type of this index.
    Function(u32),
    Table(TableType),
    Memory(MemoryType),
    Global(GlobalType),
    Tag(TagType),
    /// A function of exactly the type of this index.
    FunctionExact(u32),
}

impl From<TableType> for EntityType {
    ghost from_gives = { λ ty entity. entity ≡ entities.Table ty };

    fn from(ty: TableType) -> EntityType {
        EntityType::Table(ty)
    }
}

impl From<MemoryType> for EntityType {
    ghost from_gives = { λ ty entity. entity ≡ entities.Memory ty };

    fn from(ty: MemoryType) -> EntityType {
        EntityType::Memory(ty)
    }
}

impl From<GlobalType> for EntityType {
    ghost from_gives = { λ ty entity. entity ≡ entities.Global ty };

    fn from(ty: GlobalType) -> EntityType {
        EntityType::Global(ty)
    }
}

impl From<TagType> for EntityType {
    ghost from_gives = { λ ty entity. entity ≡ entities.Tag ty };

    fn from(ty: TagType) -> EntityType {
        EntityType::Tag(ty)
    }
}

/// Encodes a byte for the kind, and the type.
impl Encode for EntityType {
    ghost encoding = { entity_encoding };

    ghost encodable = { λ _. ⊤ };

    #[inline]
    fn encode<A: Allocator>(&self, sink: &mut Vec<u8, A>) -> Result<()> {
        match *self {
            EntityType::Function(index) => (CORE_FUNCTION_SORT, index).encode(sink),
            EntityType::Table(ty) => (CORE_TABLE_SORT, ty).encode(sink),
            EntityType::Memory(ty) => (CORE_MEMORY_SORT, ty).encode(sink),
            EntityType::Global(ty) => (CORE_GLOBAL_SORT, ty).encode(sink),
            EntityType::Tag(ty) => (CORE_TAG_SORT, ty).encode(sink),
            EntityType::FunctionExact(index) => (CORE_FUNCTION_EXACT_SORT, index).encode(sink),
        }
    }
}

/// An import: the names of a module and of an item in it, and the item's type.
#[derive(Clone, Copy, Debug)]
pub struct Import<'a> {
    pub module: &'a str,
    pub name: &'a str,
    pub ty: EntityType,
}

/// An item of a group of imports, which names the module once.
#[derive(Clone, Copy, Debug)]
pub struct ImportCompact<'a> {
    pub name: &'a str,
    pub ty: EntityType,
}

/// An import, or a group of imports from one module. A section accepts lists that are borrowed, or
/// owned in memory of the section's type of allocator.
#[derive(Drop, Debug)]
pub enum Imports<'a, A: Allocator = Global> {
    Single(Import<'a>),
    /// A group whose items have types of their own.
    Compact1 {
        module: &'a str,
        items: CowSlice<'a, ImportCompact<'a>, A>,
    },
    /// A group of items of one type.
    Compact2 {
        module: &'a str,
        ty: EntityType,
        names: CowSlice<'a, &'a str, A>,
    },
}

impl<A: Allocator + Copy> Imports<'_, A> {
    /// Returns the same imports. An owned list is copied into memory of its own.
    pub fn clone(&self) -> Result<Self>
        ensures same { IfOk result (λ imports. imports_item imports ≡ imports_item self.now) }
        ensures memory { result ≢ Err TooLong }
    {
        match self {
            Imports::Single(import) => Ok(Imports::Single(*import)),
            Imports::Compact1 { module, items } => Ok(Imports::Compact1 {
                module,
                items: items.clone()?,
            }),
            Imports::Compact2 { module, ty, names } => Ok(Imports::Compact2 {
                module,
                ty: *ty,
                names: names.clone()?,
            }),
        }
    }
}

/// Encodes the two names, and the type.
impl Encode for Import<'_> {
    ghost encoding = { λ import. import_encoding (import_item import) };

    ghost encodable = { λ import. IsEncodableImport (import_item import) };

    #[inline]
    fn encode<A: Allocator>(&self, sink: &mut Vec<u8, A>) -> Result<()> {
        (self.module, self.name, self.ty).encode(sink)
    }
}

/// Encodes the name, and the type.
impl Encode for ImportCompact<'_> {
    ghost encoding = { λ import. named_encoding (compact_item import) };

    ghost encodable = { λ import. HasEncodableSize import.name.now };

    #[inline]
    fn encode<A: Allocator>(&self, sink: &mut Vec<u8, A>) -> Result<()> {
        (self.name, self.ty).encode(sink)
    }
}

/// Encodes a single import, or a group: the module name, the byte 00, a kind byte that no entity
/// has, and the items. A reader can therefore tell a group from an import of an empty name.
impl<A: Allocator> Encode for Imports<'_, A> {
    ghost encoding = { λ imports. import_encoding (imports_item imports) };

    ghost encodable = { λ imports. IsEncodableImport (imports_item imports) };

    #[inline]
    fn encode<B: Allocator>(&self, sink: &mut Vec<u8, B>) -> Result<()> {
        match self {
            Imports::Single(import) => import.encode(sink),
            Imports::Compact1 { module, items } => {
                (*module, [0x00u8, 0x7F], items.as_slice()).encode(sink)
            }
            Imports::Compact2 { module, ty, names } => {
                (*module, [0x00u8, 0x7E], (*ty, names.as_slice())).encode(sink)
            }
        }
    }
}

impl Kind for ImportItems {
    ghost Record = { ImportItem };

    ghost Item = { ImportItem };

    ghost kind = { import_items };

    #[tactic(auto, using(crate::proofs::ImportLaws::import_laws))]
    fn laws() {}
}

impl ItemKind for ImportItems {
    ghost use Rattle.wasm_base.specs.SectionId.{number_of};
    ghost use Rattle.wasm_base.specs.declared.section_id.SectionId.TheVariants as ids;

    ghost section_id = { number_of ids.Import };

    fn id() -> u8 {
        SectionId::Import.into()
    }
}

impl RecordOf<ImportItems> for Import<'_> {}

impl<S: Store> CountedSection<ImportItems, S> {
    /// Adds an import.
    pub fn import(&mut self, module: &str, name: &str, ty: EntityType) -> Result<()>
        ensures { AddsTo S.model (size_prefixed_encoding «module».now ++ (size_prefixed_encoding name.now ++ entity_encoding ty)) (HasEncodableSize «module».now × HasEncodableSize name.now) self.old self.new result }
    {
        self.add_record(&Import { module, name, ty })
    }

    /// Adds an import or a group of imports, as one entry.
    pub fn imports(&mut self, imports: Imports<'_, S::Alloc>) -> Result<()>
        ensures { AddsTo S.model (import_encoding (imports_item imports.entry)) (IsEncodableImport (imports_item imports.entry)) self.old self.new result }
    {
        self.add_record(&imports)
    }
}

impl Layout for EntityType {
    ghost Value = { EntityModel };

    ghost format = { entity };

    ghost view = { λ entity. entity };

    #[tactic(auto, using(crate::proofs::ImportLaws::entity_unambiguous))]
    fn laws() {}
}

impl<'a, A: Allocator + Copy, G: Grammar> Readable<'a, A, G> for EntityType {
    ghost may_allocate = { ⊥ };

    #[tactic(auto, using(crate::proofs::ImportLaws::entity_steps))]
    fn read(bytes: &'a [u8], alloc: A) -> Result<(EntityType, &'a [u8]), DecodeError> {
        let (kind, rest) = <u8 as Readable<'a, A, G>>::read(bytes, alloc)?;
        match kind {
            0x00 => {
                let (index, rest) = <u32 as Readable<'a, A, G>>::read(rest, alloc)?;
                Ok((EntityType::Function(index), rest))
            }
            0x01 => {
                let (ty, rest) = <TableType as Readable<'a, A, G>>::read(rest, alloc)?;
                Ok((EntityType::Table(ty), rest))
            }
            0x02 => {
                let (ty, rest) = <MemoryType as Readable<'a, A, G>>::read(rest, alloc)?;
                Ok((EntityType::Memory(ty), rest))
            }
            0x03 => {
                let (ty, rest) = <GlobalType as Readable<'a, A, G>>::read(rest, alloc)?;
                Ok((EntityType::Global(ty), rest))
            }
            0x04 => {
                let (ty, rest) = <TagType as Readable<'a, A, G>>::read(rest, alloc)?;
                Ok((EntityType::Tag(ty), rest))
            }
            0x20 => {
                let (index, rest) = <u32 as Readable<'a, A, G>>::read(rest, alloc)?;
                Ok((EntityType::FunctionExact(index), rest))
            }
            _ => Err(ReadFault::UnknownTag.just_before(rest)),
        }
    }
}

impl<'a> Layout for ImportCompact<'a> {
    ghost Value = { List ℕ × EntityModel };

    ghost format = { pair name entity };

    ghost view = { compact_item };

    fn laws()
        ensures { Unambiguous (pair name entity) }
    {
        <(&'a str, EntityType) as Layout>::laws();
    }
}

impl<'a, A: Allocator + Copy, G: Grammar> Readable<'a, A, G> for ImportCompact<'a> {
    ghost may_allocate = { ⊥ };

    fn read(bytes: &'a [u8], alloc: A) -> Result<(ImportCompact<'a>, &'a [u8]), DecodeError> {
        let ((name, ty), rest) = <(&'a str, EntityType) as Readable<'a, A, G>>::read(bytes, alloc)?;
        Ok((ImportCompact { name, ty }, rest))
    }
}

/// Returns the kind byte of a group and the remaining bytes, if the bytes begin with 00 and a byte
/// of 7E or above. Such a byte is the kind of no entity, so no single import begins so after its
/// module name.
#[tactic(auto, using(crate::proofs::ImportLaws::group_steps))]
pub(crate) fn group_kind<G: Grammar>(bytes: &[u8]) -> Option<(u8, &[u8])>
    ensures { MatchOption result (Rejects (prefixed (0x00 ∷ []) group) (padded_of G.grammar) bytes.now) (λ x. (bytes.now ≡ 0x00 ∷ x.0 ∷ x.1.now) × (0x7E ≤ x.0)) }
{
    match bytes {
        [0x00, kind @ 0x7E..=0xFF, rest @ ..] => Some((*kind, rest)),
        _ => None,
    }
}

impl<'a, A: Allocator> Layout for Imports<'a, A> {
    ghost Value = { ImportItem };

    ghost format = { import_format };

    ghost view = { imports_item };

    #[tactic(auto, using(crate::proofs::ImportLaws::import_unambiguous))]
    fn laws()
        ensures { Unambiguous import_format }
    {}
}

impl<'a, A: Allocator + Copy, G: Grammar> Readable<'a, A, G> for Imports<'a, A> {
    #[tactic(auto, using(crate::proofs::ImportLaws::import_steps))]
    fn read(bytes: &'a [u8], alloc: A) -> Result<(Imports<'a, A>, &'a [u8]), DecodeError> {
        let (module, rest) = <&'a str as Readable<'a, A, G>>::read(bytes, alloc)?;
        let Some((kind, rest)) = group_kind::<G>(rest) else {
            let (name, rest) = <&'a str as Readable<'a, A, G>>::read(rest, alloc)?;
            let (ty, rest) = <EntityType as Readable<'a, A, G>>::read(rest, alloc)?;
            return Ok((Imports::Single(Import { module, name, ty }), rest));
        };
        match kind {
            0x7F => {
                let (items, rest) = <Vec<ImportCompact<'a>, A> as Readable<'a, A, G>>::read(
                    rest, alloc,
                )?;
                let items = CowSlice::Owned(items);
                Ok((Imports::Compact1 { module, items }, rest))
            }
            0x7E => {
                let (ty, rest) = <EntityType as Readable<'a, A, G>>::read(rest, alloc)?;
                let (names, rest) = <Vec<&'a str, A> as Readable<'a, A, G>>::read(rest, alloc)?;
                let names = CowSlice::Owned(names);
                Ok((Imports::Compact2 { module, ty, names }, rest))
            }
            _ => Err(ReadFault::UnknownTag.just_before(rest)),
        }
    }
}

/// Decodes the payload of an import section: a count and that many imports and groups, which occupy
/// all of the bytes. Memory grows with the imports that decode, and is not allocated by the count.
///
/// # Errors
///
/// Every error except `Memory` means that the bytes are not such a payload.
pub fn read_imports<'a, A: Allocator + Copy + 'a, G: Grammar>(
    bytes: &'a [u8],
    alloc: A,
) -> Result<Vec<Imports<'a, A>, A>, DecodeError>
    ensures found { IfOk result (λ x. vec import_format (padded_of G.grammar) bytes.now (map imports_item x.items)) }
    ensures none { IfErr result (λ e. e.cause ≢ Memory → RejectsWhole (vec import_format) (padded_of G.grammar) bytes.now) }
{
    read_whole::<'a, Vec<Imports<'a, A>, A>, A, G>(bytes, alloc)
}

/// Writes the bytes that [`append_imports`] appends. After an error, part of them may follow the
/// old bytes.
#[tactic(auto, using(wasm_base::proofs::MinimalEncodings::no_members_appended))]
fn write_imports<A: Allocator, B: Allocator>(
    imports: &[Imports<'_, A>],
    sink: &mut Vec<u8, B>,
) -> Result<()>
    ensures ok { OnOk result (AppendsMinimal builders_alone (vec import_format) (map imports_item imports.now) sink.old.items sink.new.items) }
    ensures front { IsFrontOf sink.old.items sink.new.items }
    ensures too_long { HasEncoding builders_alone (vec import_format) (map imports_item imports.now) → result ≢ Err TooLong }
{
    imports.len().encode(sink)?;
    for import in imports {
        import.encode(sink)?;
    }
    Ok(())
}

/// Appends the minimal encoding of imports and groups of imports, after their count. On an error,
/// the sink is unchanged.
pub fn append_imports<A: Allocator, B: Allocator>(
    imports: &[Imports<'_, A>],
    sink: &mut Vec<u8, B>,
) -> Result<()>
    ensures ok { OnOk result (AppendsMinimal builders_alone (vec import_format) (map imports_item imports.now) sink.old.items sink.new.items) }
    ensures err { OnErr result (sink.new.items ≡ sink.old.items) }
    ensures too_long { HasEncoding builders_alone (vec import_format) (map imports_item imports.now) → result ≢ Err TooLong }
{
    let start = sink.len();
    let written = write_imports(imports, sink);
    if written.is_err() {
        sink.truncate(start);
    }
    written
}
