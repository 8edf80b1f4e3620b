// The linking section: its builder, its reader and its minimizer.
ghost use Rattle.std.specs.Prelude.{◌≡◌, [], ◌∷◌, false, ⊤, ◌≢◌, IfOk, IfErr, Err, OnOk, OnErr, map};
ghost use Rattle.wasm_base.specs.Calls.{AddsTo};
ghost use Rattle.wasm_base.specs.Formats.{any_bytes, u32 as u32_format, just, name as name_format, prefixed, size_prefixed, vec};
ghost use Rattle.wasm_base.specs.Continuing.{RejectsWhole};
ghost use Rattle.wasm_base.specs.Numbers.{padded_of};
ghost use Rattle.wasm_base.specs.Decoding.{Unambiguous, Decodes, Rejects};
ghost use Rattle.wasm_base.specs.Encodings.{size_prefixed_encoding, HasEncodableSize};
ghost use Rattle.wasm_custom.specs.Customs.{subsection_encoding};
ghost use Rattle.wasm_custom.specs.Linking.{link_items, LinkItem as LinkModel, link, linking_name, version, link_view, linking_payload};
ghost use Rattle.wasm_custom.specs.Lists.{list_encoding};
ghost use Rattle.wasm_base.specs.declared.refused.Refused.TheVariants.{TooLong};
ghost use Rattle.wasm_base.specs.Minimal.{AppendsMinimal, IsFrontOf, HasEncoding, both_grammars};
ghost use Rattle.wasm_base.specs.declared.fault.ReadFault.TheVariants.{Memory};

use crate::comdats::Comdat;
use crate::entries::{CustomEntries, CustomKind};
use crate::init_functions::InitFunction;
use crate::lists::CountedList;
use crate::named::after_name;
use crate::segments::SegmentInfo;
use crate::standard::require_standard;
use crate::subsections::Subsection;
use crate::symbols::{Symbol, SymbolMembers};
use std::alloc::{Allocator, Global};
use wasm_base::{
    DecodeError, Encode, Grammar, Kind, Layout, Pieces, ReadFault, Readable, Result, Shorten,
    SizePrefixed, Store, append_all, prefix_size_since, read_to_end,
};

/// The linking section: the symbols and target of a module for a linker, in version 2 of the
/// format. Each call adds a subsection, and `new` allocates nothing.
///
/// ```rust
/// let mut symbols = SymbolTable::new(alloc);
/// symbols.function(SymbolTable::WASM_SYM_EXPORTED, 0, Some("f"))?;
/// let mut linking = LinkingSection::new(alloc);
/// linking.symbol_table(&symbols)?;
/// module.section(&linking)?;
/// ```
pub type LinkingSection<A = Global> = CustomEntries<LinkingItems, Pieces<A>>;

/// The kind of a linking section's items: subsections.
#[derive(Clone, Copy, Debug)]
pub struct LinkingItems;

impl Kind for LinkingItems {
    ghost Record = { LinkModel };

    ghost Item = { LinkModel };

    ghost kind = { link_items };

    #[tactic(auto, using(crate::proofs::LinkLaws::link_laws))]
    fn laws() {}
}

impl CustomKind for LinkingItems {
    ghost name = { linking_name };

    ghost front = { version ∷ [] };

    ghost front_format = { just version u32_format };

    ghost counted = { false };

    fn name() -> &'static str {
        "linking"
    }

    fn front() -> &'static [u8] {
        &[2]
    }

    fn counted() -> bool {
        false
    }

    #[tactic(auto, using(crate::proofs::LinkLaws::link_layout))]
    fn layout_laws() {}
}

impl<S: Store> CustomEntries<LinkingItems, S> {
    /// Adds the symbols.
    pub fn symbol_table<T: Store>(&mut self, symbols: &CountedList<SymbolMembers, T>) -> Result<()>
        ensures { AddsTo S.model (subsection_encoding 8 (list_encoding (T.model.joins symbols.now))) (HasEncodableSize (list_encoding (T.model.joins symbols.now)) × ⊤) self.old self.new result }
    {
        self.add_record(symbols)
    }

    /// Adds the architecture of the target.
    pub fn target_arch(&mut self, name: &str) -> Result<()>
        ensures { AddsTo S.model (subsection_encoding 9 (size_prefixed_encoding name.now)) (HasEncodableSize (size_prefixed_encoding name.now) × HasEncodableSize name.now) self.old self.new result }
    {
        self.add_record(&Subsection {
            id: 9,
            content: &name,
        })
    }
}

/// The version of linking sections.
pub(crate) const VERSION: u32 = 2;

/// A decoded subsection of a linking section. The builders' grammar has symbol tables and
/// architectures alone. In the standard's grammar, a subsection of an unknown id is kept as bytes.
#[derive(Debug, Drop)]
pub enum LinkItem<'a, A: Allocator = Global> {
    /// The data segments, in the order of the data section.
    Segments(Vec<SegmentInfo<'a>, A>),
    /// The functions that the linked module calls when it starts.
    InitFunctions(Vec<InitFunction, A>),
    /// The COMDAT groups.
    Comdats(Vec<Comdat<'a, A>, A>),
    /// The symbol table.
    Symbols(Vec<Symbol<'a>, A>),
    /// The architecture of the target.
    Arch(&'a str),
    /// A subsection of another id, whose content is not decoded.
    Other { id: u8, bytes: &'a [u8] },
}

/// Decodes a size-prefixed vector, which is the content of most subsections.
pub(crate) fn read_vector<'a, T: Readable<'a, A, G>, A: Allocator + Copy, G: Grammar>(
    bytes: &'a [u8],
    alloc: A,
) -> Result<(Vec<T, A>, &'a [u8]), DecodeError>
    ensures found { IfOk result (λ x. Decodes (size_prefixed (vec T.format)) (padded_of G.grammar) bytes.now (map T.view x.0.items) x.1.now) }
    ensures none { IfErr result (λ e. e.cause ≢ Memory → Rejects (size_prefixed (vec T.format)) (padded_of G.grammar) bytes.now) }
{
    let (SizePrefixed(items), rest) = <SizePrefixed<Vec<T, A>> as Readable<'a, A, G>>::read(
        bytes, alloc,
    )?;
    Ok((items, rest))
}

impl<'a, A: Allocator> Layout for LinkItem<'a, A> {
    ghost Value = { LinkModel };

    ghost format = { link };

    ghost view = { link_view };

    #[tactic(auto, using(crate::proofs::LinkLaws::link_unambiguous))]
    fn laws()
        ensures { Unambiguous link }
    {}
}

impl<'a, A: Allocator + Copy + 'a, G: Grammar> Readable<'a, A, G> for LinkItem<'a, A> {
    #[tactic(auto, using(crate::proofs::LinkLaws::link_steps))]
    fn read(bytes: &'a [u8], alloc: A) -> Result<(LinkItem<'a, A>, &'a [u8]), DecodeError> {
        let (id, rest) = <u8 as Readable<'a, A, G>>::read(bytes, alloc)?;
        match id {
            5 => {
                require_standard::<G>(rest)?;
                let (segments, rest) = read_vector::<'a, SegmentInfo<'a>, A, G>(rest, alloc)?;
                Ok((LinkItem::Segments(segments), rest))
            }
            6 => {
                require_standard::<G>(rest)?;
                let (functions, rest) = read_vector::<'a, InitFunction, A, G>(rest, alloc)?;
                Ok((LinkItem::InitFunctions(functions), rest))
            }
            7 => {
                require_standard::<G>(rest)?;
                let (comdats, rest) = read_vector::<'a, Comdat<'a, A>, A, G>(rest, alloc)?;
                Ok((LinkItem::Comdats(comdats), rest))
            }
            8 => {
                let (symbols, rest) = read_vector::<'a, Symbol<'a>, A, G>(rest, alloc)?;
                Ok((LinkItem::Symbols(symbols), rest))
            }
            9 => {
                let (SizePrefixed(name), rest) = <SizePrefixed<&'a str> as Readable<
                    'a,
                    A,
                    G,
                >>::read(rest, alloc)?;
                Ok((LinkItem::Arch(name), rest))
            }
            _ => {
                require_standard::<G>(rest)?;
                let (bytes, rest) = <&'a [u8] as Readable<'a, A, G>>::read(rest, alloc)?;
                Ok((LinkItem::Other { id, bytes }, rest))
            }
        }
    }
}

/// Skips the version, and returns the remaining bytes.
#[tactic(auto, using(crate::proofs::LinkLaws::version_steps))]
pub(crate) fn after_version<'a, A: Allocator + Copy, G: Grammar>(
    bytes: &'a [u8],
    alloc: A,
) -> Result<&'a [u8], DecodeError>
    ensures found { IfOk result (λ rest. Decodes (just version u32_format) (padded_of G.grammar) bytes.now tt rest.now) }
    ensures none { IfErr result (λ e. e.cause ≢ Memory → Rejects (just version u32_format) (padded_of G.grammar) bytes.now) }
    ensures no_memory { IfErr result (λ e. e.cause ≢ Memory) }
{
    let (known, rest) = <u32 as Readable<'a, A, G>>::read(bytes, alloc)?;
    if known == VERSION {
        Ok(rest)
    } else {
        Err(ReadFault::UnknownTag.just_before(rest))
    }
}

/// Decodes the payload of a linking section, in the grammar `G`: its subsections.
///
/// # Errors
///
/// Every error except `Memory` means that the bytes are not such a payload.
#[tactic(auto, using(crate::proofs::LinkLaws::section_steps))]
pub fn read_links<'a, A: Allocator + Copy + 'a, G: Grammar>(
    bytes: &'a [u8],
    alloc: A,
) -> Result<Vec<LinkItem<'a, A>, A>, DecodeError>
    ensures found { IfOk result (λ x. linking_payload (padded_of G.grammar) bytes.now (map link_view x.items)) }
    ensures none { IfErr result (λ e. e.cause ≢ Memory → RejectsWhole linking_payload (padded_of G.grammar) bytes.now) }
{
    let rest = after_name::<A, G>("linking", bytes, alloc)?;
    let rest = after_version::<A, G>(rest, alloc)?;
    let items = read_to_end::<'a, LinkItem<'a, A>, A, G>(rest, alloc)?;
    Ok(items)
}

/// Appends the subsection of this id, whose content is the vector of the items.
#[tactic(auto, using(crate::proofs::LinkLaws::vector_appended, crate::proofs::LinkLaws::vector_encoded, crate::proofs::LinkLaws::vector_encodable))]
pub(crate) fn append_vector<T: Shorten, A: Allocator, B: Allocator>(
    id: u8,
    items: &Vec<T, A>,
    sink: &mut Vec<u8, B>,
) -> Result<()>
    ensures ok { OnOk result (AppendsMinimal T.grammars (prefixed (id ∷ []) (size_prefixed (vec T.format))) (map T.view items.now.items) sink.old.items sink.new.items) }
    ensures front { IsFrontOf sink.old.items sink.new.items }
    ensures too_long { HasEncoding T.grammars (prefixed (id ∷ []) (size_prefixed (vec T.format))) (map T.view items.now.items) → result ≢ Err TooLong }
{
    T::laws();
    id.encode(sink)?;
    let start = sink.len();
    items.write_minimal(sink)?;
    prefix_size_since(sink, start)
}

/// Appends the subsection of this id and this content.
#[tactic(auto, using(crate::proofs::LinkLaws::other_appended, crate::proofs::LinkLaws::other_encoded))]
pub(crate) fn append_other<B: Allocator>(
    id: u8,
    content: &[u8],
    sink: &mut Vec<u8, B>,
) -> Result<()>
    ensures ok { OnOk result (AppendsMinimal both_grammars (prefixed (id ∷ []) (size_prefixed any_bytes)) content.now sink.old.items sink.new.items) }
    ensures front { IsFrontOf sink.old.items sink.new.items }
    ensures too_long { HasEncoding both_grammars (prefixed (id ∷ []) (size_prefixed any_bytes)) content.now → result ≢ Err TooLong }
{
    id.encode(sink)?;
    content.write_minimal(sink)
}

/// Appends the subsection of an architecture.
#[tactic(auto, using(crate::proofs::LinkLaws::target_appended, crate::proofs::LinkLaws::target_encoded))]
fn append_target<B: Allocator>(name: &str, sink: &mut Vec<u8, B>) -> Result<()>
    ensures ok { OnOk result (AppendsMinimal both_grammars (prefixed (9 ∷ []) (size_prefixed name_format)) name.now sink.old.items sink.new.items) }
    ensures front { IsFrontOf sink.old.items sink.new.items }
    ensures too_long { HasEncoding both_grammars (prefixed (9 ∷ []) (size_prefixed name_format)) name.now → result ≢ Err TooLong }
{
    9u8.encode(sink)?;
    SizePrefixed(name).write_minimal(sink)
}

impl<'a, A: Allocator> Shorten for LinkItem<'a, A> {
    ghost grammars = { both_grammars };

    #[tactic(auto, using(crate::proofs::LinkLaws::short_steps))]
    fn write_minimal<B: Allocator>(&self, sink: &mut Vec<u8, B>) -> Result<()> {
        match self {
            LinkItem::Segments(segments) => append_vector(5, segments, sink),
            LinkItem::InitFunctions(functions) => append_vector(6, functions, sink),
            LinkItem::Comdats(comdats) => append_vector(7, comdats, sink),
            LinkItem::Symbols(symbols) => append_vector(8, symbols, sink),
            LinkItem::Arch(name) => append_target(name, sink),
            LinkItem::Other { id, bytes } => append_other(*id, bytes, sink),
        }
    }
}

/// Writes the bytes that [`append_links`] appends. After an error, part of them may follow the old
/// bytes.
#[tactic(auto, using(crate::proofs::LinkLaws::links_appended, crate::proofs::LinkLaws::links_encoded))]
fn write_links<A: Allocator, B: Allocator>(
    items: &[LinkItem<'_, A>],
    sink: &mut Vec<u8, B>,
) -> Result<()>
    ensures ok { OnOk result (AppendsMinimal both_grammars linking_payload (map link_view items.now) sink.old.items sink.new.items) }
    ensures front { IsFrontOf sink.old.items sink.new.items }
    ensures too_long { HasEncoding both_grammars linking_payload (map link_view items.now) → result ≢ Err TooLong }
{
    "linking".encode(sink)?;
    VERSION.encode(sink)?;
    append_all(items, sink)
}

/// Appends the minimal encoding of the payload of a linking section of these subsections. On an
/// error, the sink is unchanged.
pub fn append_links<A: Allocator, B: Allocator>(
    items: &[LinkItem<'_, A>],
    sink: &mut Vec<u8, B>,
) -> Result<()>
    ensures ok { OnOk result (AppendsMinimal both_grammars linking_payload (map link_view items.now) sink.old.items sink.new.items) }
    ensures err { OnErr result (sink.new.items ≡ sink.old.items) }
    ensures too_long { HasEncoding both_grammars linking_payload (map link_view items.now) → result ≢ Err TooLong }
{
    let start = sink.len();
    let written = write_links(items, sink);
    if written.is_err() {
        sink.truncate(start);
    }
    written
}
