// The section of a dynamic library: its builder, its reader and its minimizer.
ghost use Rattle.std.specs.Prelude.{◌≡◌, [], false, ⊤, ◌≢◌, IfOk, IfErr, Err, OnOk, OnErr, map};
ghost use Rattle.wasm_base.specs.Calls.{AddsTo};
ghost use Rattle.wasm_base.specs.Formats.{fixed, prefixed, size_prefixed};
ghost use Rattle.std.specs.Prelude.{◌∷◌};
ghost use Rattle.wasm_base.specs.Continuing.{RejectsWhole};
ghost use Rattle.wasm_base.specs.Numbers.{padded_of};
ghost use Rattle.wasm_base.specs.Decoding.{Unambiguous};
ghost use Rattle.wasm_base.specs.Encodings.{HasEncodableSize};
ghost use Rattle.wasm_custom.specs.Customs.{subsection_encoding};
ghost use Rattle.wasm_custom.specs.Dylink.{needs, needs_encoding, DylinkItem as ItemModel, dylink_item, dylink_items, dylink_name, dylink_view, dylink_payload};
ghost use Rattle.wasm_custom.specs.Lists.{list_encoding};
ghost use Rattle.wasm_base.specs.declared.refused.Refused.TheVariants.{TooLong};
ghost use Rattle.wasm_base.specs.Minimal.{AppendsMinimal, IsFrontOf, HasEncoding, both_grammars};
ghost use Rattle.wasm_base.specs.declared.fault.ReadFault.TheVariants.{Memory};

use crate::dylink_symbols::{
    DylinkExport, DylinkImport, DylinkMemory, ExportFlagMembers, ImportFlagMembers, NeededMembers,
    PathMembers,
};
use crate::entries::{CustomEntries, CustomKind};
use crate::linking::{append_other, append_vector, read_vector};
use crate::lists::CountedList;
use crate::named::after_name;
use crate::standard::require_standard;
use crate::subsections::Subsection;
use std::alloc::{Allocator, Global};
use wasm_base::{
    DecodeError, Encode, Grammar, Kind, Layout, Pieces, Readable, Result, Shorten, SizePrefixed,
    Store, append_all, read_to_end,
};

/// The `dylink.0` section: the requirements of a dynamic library at load time. It is the first
/// section of a module. Each call adds a subsection, and `new` allocates nothing.
///
/// ```rust
/// let mut needed = DylinkNeeded::new(alloc);
/// needed.library("libc.so")?;
/// let mut dylink = DylinkSection::new(alloc);
/// dylink.memory(DylinkMemory {
///     memory_size: 16,
///     memory_alignment: 2,
///     table_size: 0,
///     table_alignment: 0,
/// })?;
/// dylink.needed(&needed)?;
/// module.section(&dylink)?;
/// ```
pub type DylinkSection<A = Global> = CustomEntries<DylinkItems, Pieces<A>>;

/// The kind of the items of a dynamic library's section: subsections.
#[derive(Clone, Copy, Debug)]
pub struct DylinkItems;

impl Kind for DylinkItems {
    ghost Record = { ItemModel };

    ghost Item = { ItemModel };

    ghost kind = { dylink_items };

    #[tactic(auto, using(crate::proofs::DylinkLaws::dylink_laws))]
    fn laws() {}
}

impl CustomKind for DylinkItems {
    ghost name = { dylink_name };

    ghost front = { [] };

    ghost front_format = { fixed [] (tt {0}) };

    ghost counted = { false };

    fn name() -> &'static str {
        "dylink.0"
    }

    fn front() -> &'static [u8] {
        &[]
    }

    fn counted() -> bool {
        false
    }

    #[tactic(auto, using(crate::proofs::DylinkLaws::dylink_layout))]
    fn layout_laws() {}
}

impl<S: Store> CustomEntries<DylinkItems, S> {
    /// Adds the memory and the table that the library needs.
    pub fn memory(&mut self, memory: DylinkMemory) -> Result<()>
        ensures { AddsTo S.model (subsection_encoding 1 (needs_encoding memory)) (HasEncodableSize (needs_encoding memory) × ⊤) self.old self.new result }
    {
        self.add_record(&Subsection {
            id: 1,
            content: &memory,
        })
    }

    /// Adds the libraries that the library needs.
    pub fn needed<T: Store>(&mut self, libraries: &CountedList<NeededMembers, T>) -> Result<()>
        ensures { AddsTo S.model (subsection_encoding 2 (list_encoding (T.model.joins libraries.now))) (HasEncodableSize (list_encoding (T.model.joins libraries.now)) × ⊤) self.old self.new result }
    {
        self.add_record(libraries)
    }

    /// Adds flags of exported symbols.
    pub fn exports<T: Store>(&mut self, exports: &CountedList<ExportFlagMembers, T>) -> Result<()>
        ensures { AddsTo S.model (subsection_encoding 3 (list_encoding (T.model.joins exports.now))) (HasEncodableSize (list_encoding (T.model.joins exports.now)) × ⊤) self.old self.new result }
    {
        self.add_record(exports)
    }

    /// Adds flags of imported symbols.
    pub fn imports<T: Store>(&mut self, imports: &CountedList<ImportFlagMembers, T>) -> Result<()>
        ensures { AddsTo S.model (subsection_encoding 4 (list_encoding (T.model.joins imports.now))) (HasEncodableSize (list_encoding (T.model.joins imports.now)) × ⊤) self.old self.new result }
    {
        self.add_record(imports)
    }

    /// Adds the folders in which the loader searches for libraries.
    pub fn runtime_path<T: Store>(&mut self, folders: &CountedList<PathMembers, T>) -> Result<()>
        ensures { AddsTo S.model (subsection_encoding 5 (list_encoding (T.model.joins folders.now))) (HasEncodableSize (list_encoding (T.model.joins folders.now)) × ⊤) self.old self.new result }
    {
        self.add_record(folders)
    }
}

/// A decoded subsection of a dynamic library's section.
#[derive(Debug, Drop)]
pub enum DylinkItem<'a, A: Allocator = Global> {
    /// The memory and the table that the library needs.
    Memory(DylinkMemory),
    /// The names of the libraries that the library needs.
    Needed(Vec<&'a str, A>),
    /// Flags of exported symbols.
    ExportFlags(Vec<DylinkExport<'a>, A>),
    /// Flags of imported symbols.
    ImportFlags(Vec<DylinkImport<'a>, A>),
    /// The folders in which the loader searches for libraries.
    RuntimePath(Vec<&'a str, A>),
    /// A subsection of another id, whose content is not decoded. The builders' grammar has none.
    Other { id: u8, bytes: &'a [u8] },
}

impl<'a, A: Allocator> Layout for DylinkItem<'a, A> {
    ghost Value = { ItemModel };

    ghost format = { dylink_item };

    ghost view = { dylink_view };

    #[tactic(auto, using(crate::proofs::DylinkLaws::dylink_unambiguous))]
    fn laws()
        ensures { Unambiguous dylink_item }
    {}
}

impl<'a, A: Allocator + Copy + 'a, G: Grammar> Readable<'a, A, G> for DylinkItem<'a, A> {
    #[tactic(auto, using(crate::proofs::DylinkLaws::dylink_steps))]
    fn read(bytes: &'a [u8], alloc: A) -> Result<(DylinkItem<'a, A>, &'a [u8]), DecodeError> {
        let (id, rest) = <u8 as Readable<'a, A, G>>::read(bytes, alloc)?;
        match id {
            1 => {
                let (SizePrefixed(memory), rest) = <SizePrefixed<DylinkMemory> as Readable<
                    'a,
                    A,
                    G,
                >>::read(rest, alloc)?;
                Ok((DylinkItem::Memory(memory), rest))
            }
            2 => {
                let (names, rest) = read_vector::<'a, &'a str, A, G>(rest, alloc)?;
                Ok((DylinkItem::Needed(names), rest))
            }
            3 => {
                let (exports, rest) = read_vector::<'a, DylinkExport<'a>, A, G>(rest, alloc)?;
                Ok((DylinkItem::ExportFlags(exports), rest))
            }
            4 => {
                let (imports, rest) = read_vector::<'a, DylinkImport<'a>, A, G>(rest, alloc)?;
                Ok((DylinkItem::ImportFlags(imports), rest))
            }
            5 => {
                let (paths, rest) = read_vector::<'a, &'a str, A, G>(rest, alloc)?;
                Ok((DylinkItem::RuntimePath(paths), rest))
            }
            _ => {
                require_standard::<G>(rest)?;
                let (bytes, rest) = <&'a [u8] as Readable<'a, A, G>>::read(rest, alloc)?;
                Ok((DylinkItem::Other { id, bytes }, rest))
            }
        }
    }
}

/// Decodes the payload of a dynamic library's section, in the grammar `G`: its subsections.
///
/// # Errors
///
/// Every error except `Memory` means that the bytes are not such a payload.
#[tactic(auto, using(crate::proofs::DylinkLaws::section_steps))]
pub fn read_dylink<'a, A: Allocator + Copy + 'a, G: Grammar>(
    bytes: &'a [u8],
    alloc: A,
) -> Result<Vec<DylinkItem<'a, A>, A>, DecodeError>
    ensures found { IfOk result (λ x. dylink_payload (padded_of G.grammar) bytes.now (map dylink_view x.items)) }
    ensures none { IfErr result (λ e. e.cause ≢ Memory → RejectsWhole dylink_payload (padded_of G.grammar) bytes.now) }
{
    let rest = after_name::<A, G>("dylink.0", bytes, alloc)?;
    let items = read_to_end::<'a, DylinkItem<'a, A>, A, G>(rest, alloc)?;
    Ok(items)
}

/// Appends the subsection of the memory and the table.
#[tactic(auto, using(crate::proofs::DylinkLaws::memory_appended, crate::proofs::DylinkLaws::memory_content))]
fn append_memory<B: Allocator>(memory: DylinkMemory, sink: &mut Vec<u8, B>) -> Result<()>
    ensures ok { OnOk result (AppendsMinimal both_grammars (prefixed (1 ∷ []) (size_prefixed needs)) memory sink.old.items sink.new.items) }
    ensures front { IsFrontOf sink.old.items sink.new.items }
    ensures too_long { HasEncoding both_grammars (prefixed (1 ∷ []) (size_prefixed needs)) memory → result ≢ Err TooLong }
{
    1u8.encode(sink)?;
    SizePrefixed(memory).write_minimal(sink)
}

impl<'a, A: Allocator> Shorten for DylinkItem<'a, A> {
    ghost grammars = { both_grammars };

    #[tactic(auto, using(crate::proofs::DylinkLaws::short_steps))]
    fn write_minimal<B: Allocator>(&self, sink: &mut Vec<u8, B>) -> Result<()> {
        match self {
            DylinkItem::Memory(memory) => append_memory(*memory, sink),
            DylinkItem::Needed(names) => append_vector(2, names, sink),
            DylinkItem::ExportFlags(exports) => append_vector(3, exports, sink),
            DylinkItem::ImportFlags(imports) => append_vector(4, imports, sink),
            DylinkItem::RuntimePath(paths) => append_vector(5, paths, sink),
            DylinkItem::Other { id, bytes } => append_other(*id, bytes, sink),
        }
    }
}

/// Writes the bytes that [`append_dylink`] appends. After an error, part of them may follow the old
/// bytes.
#[tactic(auto, using(crate::proofs::DylinkLaws::section_appended, crate::proofs::DylinkLaws::section_encoded))]
fn write_dylink<A: Allocator, B: Allocator>(
    items: &[DylinkItem<'_, A>],
    sink: &mut Vec<u8, B>,
) -> Result<()>
    ensures ok { OnOk result (AppendsMinimal both_grammars dylink_payload (map dylink_view items.now) sink.old.items sink.new.items) }
    ensures front { IsFrontOf sink.old.items sink.new.items }
    ensures too_long { HasEncoding both_grammars dylink_payload (map dylink_view items.now) → result ≢ Err TooLong }
{
    "dylink.0".encode(sink)?;
    append_all(items, sink)
}

/// Appends the minimal encoding of the payload of a dynamic library's section of these subsections.
/// On an error, the sink is unchanged.
pub fn append_dylink<A: Allocator, B: Allocator>(
    items: &[DylinkItem<'_, A>],
    sink: &mut Vec<u8, B>,
) -> Result<()>
    ensures ok { OnOk result (AppendsMinimal both_grammars dylink_payload (map dylink_view items.now) sink.old.items sink.new.items) }
    ensures err { OnErr result (sink.new.items ≡ sink.old.items) }
    ensures too_long { HasEncoding both_grammars dylink_payload (map dylink_view items.now) → result ≢ Err TooLong }
{
    let start = sink.len();
    let written = write_dylink(items, sink);
    if written.is_err() {
        sink.truncate(start);
    }
    written
}
