// The name section: its builder, its reader and its minimizer.
ghost use Rattle.std.specs.Prelude.{None, ◌≡◌, ◌++◌, [], false, ⊤, ◌≢◌, IfOk, IfErr, Err, OnOk, OnErr, map};
ghost use Rattle.wasm_base.specs.Calls.{AddsTo};
ghost use Rattle.wasm_base.specs.Cow.{items_of, utf8_of};
ghost use Rattle.wasm_base.specs.Formats.{fixed, u32};
ghost use Rattle.wasm_base.specs.Continuing.{RejectsWhole};
ghost use Rattle.wasm_base.specs.Numbers.{unsigned_encoding, padded_of};
ghost use Rattle.wasm_base.specs.Pieces.{joined};
ghost use Rattle.wasm_base.specs.Decoding.{Unambiguous};
ghost use Rattle.wasm_base.specs.Encodings.{size_prefixed_encoding, HasEncodableSize};
ghost use Rattle.wasm_custom.specs.Customs.{subsection_encoding};
ghost use Rattle.wasm_custom.specs.Lists.{list_encoding};
ghost use Rattle.wasm_custom.specs.Names.{name_items, Naming, naming_encoding, IsNaming, Inside, inside_encoding, IsInside, NameItem as NameModel, subsection, name_name, name_kind_of as kind_of_id, kind_as, inside, held_by, id_of, name_item_view, name_payload};
ghost use Rattle.wasm_base.specs.declared.refused.Refused.TheVariants.{TooLong};
ghost use Rattle.wasm_base.specs.Minimal.{AppendsMinimal, IsFrontOf, HasEncoding, both_grammars};
ghost use Rattle.wasm_base.specs.declared.fault.ReadFault.TheVariants.{Memory};

use crate::custom_section::CustomSection;
use crate::entries::{CustomEntries, CustomKind};
use crate::lists::{CountedList, Entries, ListKind};
use crate::named::after_name;
use crate::subsections::{RawContent, Subsection};
use std::alloc::{Allocator, Global};
use wasm_base::{
    CowSlice, CowStr, DecodeError, Encode, Grammar, Kind, Layout, Lent, Pieces, Readable, Result,
    Shorten, Store, append_all, prefix_size_since, read_before, read_to_end,
};

/// A name map: indices and their names. The calls check neither their order nor whether an index is
/// repeated.
pub type NameMap<A = Global> = CountedList<NameMembers, Pieces<A>>;

/// The kind of a name map's members: an index, and its name.
#[derive(Clone, Copy, Debug)]
pub struct NameMembers;

impl ListKind for NameMembers {
    ghost Member = { Naming };

    ghost member_encoding = { naming_encoding };

    ghost is_member = { IsNaming };

    ghost subsection = { None };

    fn subsection() -> Option<u8> {
        None
    }
}

impl<S: Store> CountedList<NameMembers, S> {
    /// Adds the name of this index.
    pub fn append(&mut self, index: u32, name: &str) -> Result<()>
        ensures { AddsTo S.model (unsigned_encoding index ++ size_prefixed_encoding name.now) (HasEncodableSize name.now) self.old self.new result }
    {
        self.add_record(&IndexedName { index, name })
    }
}

/// A member of a name map: an index, and its name.
#[derive(Clone, Copy)]
struct IndexedName<'a> {
    index: u32,
    name: &'a str,
}

/// Encodes the index, and then the name. An index and a size of one byte each are written after one
/// test of the spare capacity.
impl Encode for IndexedName<'_> {
    ghost encoding = { λ n. unsigned_encoding n.index ++ size_prefixed_encoding n.name.now };

    ghost encodable = { λ n. HasEncodableSize n.name.now };

    #[tactic(auto, using(wasm_base::proofs::NumberEncodings::one_group))]
    fn encode<A: Allocator>(&self, sink: &mut Vec<u8, A>) -> Result<()> {
        let bytes = self.name.as_bytes();
        let size = bytes.len();
        if self.index >= 0x80 || size >= 0x80 {
            return (self.index, self.name).encode(sink);
        }
        sink.reserve(size + 2)?;
        sink.push_reserved(self.index as u8);
        sink.push_reserved(size as u8);
        sink.extend_from_slice(bytes).unwrap();
        Ok(())
    }
}

/// An indirect name map: indices, each with a name map for the items in it, such as the locals of
/// functions. The calls check neither their order nor whether an index is repeated.
pub type IndirectNameMap<A = Global> = CountedList<IndirectMembers, Pieces<A>>;

/// The kind of an indirect name map's members: an index, and the names of the items in it.
#[derive(Clone, Copy, Debug)]
pub struct IndirectMembers;

impl ListKind for IndirectMembers {
    ghost Member = { Inside };

    ghost member_encoding = { inside_encoding };

    ghost is_member = { IsInside };

    ghost subsection = { None };

    fn subsection() -> Option<u8> {
        None
    }
}

impl<S: Store> CountedList<IndirectMembers, S> {
    /// Adds the names of the items in this index.
    pub fn append<T: Store>(
        &mut self,
        index: u32,
        names: &CountedList<NameMembers, T>,
    ) -> Result<()>
        ensures { AddsTo S.model (unsigned_encoding index ++ list_encoding (T.model.joins names.now)) ⊤ self.old self.new result }
    {
        names.members_law();
        self.add_record(&(index, Lent(names)))
    }
}

/// The name section: the names of a module and of its items. Each call adds a subsection, in the
/// order of the calls.
///
/// ```rust
/// let mut functions = NameMap::new(alloc);
/// functions.append(0, "f")?;
/// let mut names = NameSection::new(alloc);
/// names.module("m")?;
/// names.functions(&functions)?;
/// module.section(&names)?;
/// ```
pub type NameSection<A = Global> = CustomEntries<NameItems, Pieces<A>>;

/// The kind of a name section's items: subsections.
#[derive(Clone, Copy, Debug)]
pub struct NameItems;

impl Kind for NameItems {
    ghost Record = { NameModel };

    ghost Item = { NameModel };

    ghost kind = { name_items };

    #[tactic(auto, using(crate::proofs::NameLaws::name_laws))]
    fn laws() {}
}

impl CustomKind for NameItems {
    ghost name = { name_name };

    ghost front = { [] };

    ghost front_format = { fixed [] (tt {0}) };

    ghost counted = { false };

    fn name() -> &'static str {
        "name"
    }

    fn front() -> &'static [u8] {
        &[]
    }

    fn counted() -> bool {
        false
    }

    #[tactic(auto, using(crate::proofs::NameLaws::name_layout))]
    fn layout_laws() {}
}

impl<S: Store> CustomEntries<NameItems, S> {
    /// Adds a subsection with a name map.
    fn map<T: Store>(&mut self, id: u8, names: &CountedList<NameMembers, T>) -> Result<()>
        ensures { AddsTo S.model (subsection_encoding id (list_encoding (T.model.joins names.now))) (HasEncodableSize (list_encoding (T.model.joins names.now)) × ⊤) self.old self.new result }
    {
        let content = &Entries(names);
        self.add_record(&Subsection { id, content })
    }

    /// Adds a subsection with an indirect name map.
    fn indirect_map<T: Store>(
        &mut self,
        id: u8,
        names: &CountedList<IndirectMembers, T>,
    ) -> Result<()>
        ensures { AddsTo S.model (subsection_encoding id (list_encoding (T.model.joins names.now))) (HasEncodableSize (list_encoding (T.model.joins names.now)) × ⊤) self.old self.new result }
    {
        let content = &Entries(names);
        self.add_record(&Subsection { id, content })
    }

    /// Adds the name of the module.
    pub fn module(&mut self, name: &str) -> Result<()>
        ensures { AddsTo S.model (subsection_encoding 0 (size_prefixed_encoding name.now)) (HasEncodableSize (size_prefixed_encoding name.now) × HasEncodableSize name.now) self.old self.new result }
    {
        self.add_record(&Subsection {
            id: 0,
            content: &name,
        })
    }

    /// Adds the names of functions.
    pub fn functions<T: Store>(&mut self, names: &CountedList<NameMembers, T>) -> Result<()>
        ensures { AddsTo S.model (subsection_encoding 1 (list_encoding (T.model.joins names.now))) (HasEncodableSize (list_encoding (T.model.joins names.now)) × ⊤) self.old self.new result }
    {
        self.map(1, names)
    }

    /// Adds the names of types.
    pub fn types<T: Store>(&mut self, names: &CountedList<NameMembers, T>) -> Result<()>
        ensures { AddsTo S.model (subsection_encoding 4 (list_encoding (T.model.joins names.now))) (HasEncodableSize (list_encoding (T.model.joins names.now)) × ⊤) self.old self.new result }
    {
        self.map(4, names)
    }

    /// Adds the names of tables.
    pub fn tables<T: Store>(&mut self, names: &CountedList<NameMembers, T>) -> Result<()>
        ensures { AddsTo S.model (subsection_encoding 5 (list_encoding (T.model.joins names.now))) (HasEncodableSize (list_encoding (T.model.joins names.now)) × ⊤) self.old self.new result }
    {
        self.map(5, names)
    }

    /// Adds the names of memories.
    pub fn memories<T: Store>(&mut self, names: &CountedList<NameMembers, T>) -> Result<()>
        ensures { AddsTo S.model (subsection_encoding 6 (list_encoding (T.model.joins names.now))) (HasEncodableSize (list_encoding (T.model.joins names.now)) × ⊤) self.old self.new result }
    {
        self.map(6, names)
    }

    /// Adds the names of globals.
    pub fn globals<T: Store>(&mut self, names: &CountedList<NameMembers, T>) -> Result<()>
        ensures { AddsTo S.model (subsection_encoding 7 (list_encoding (T.model.joins names.now))) (HasEncodableSize (list_encoding (T.model.joins names.now)) × ⊤) self.old self.new result }
    {
        self.map(7, names)
    }

    /// Adds the names of element segments.
    pub fn elements<T: Store>(&mut self, names: &CountedList<NameMembers, T>) -> Result<()>
        ensures { AddsTo S.model (subsection_encoding 8 (list_encoding (T.model.joins names.now))) (HasEncodableSize (list_encoding (T.model.joins names.now)) × ⊤) self.old self.new result }
    {
        self.map(8, names)
    }

    /// Adds the names of data segments.
    pub fn data<T: Store>(&mut self, names: &CountedList<NameMembers, T>) -> Result<()>
        ensures { AddsTo S.model (subsection_encoding 9 (list_encoding (T.model.joins names.now))) (HasEncodableSize (list_encoding (T.model.joins names.now)) × ⊤) self.old self.new result }
    {
        self.map(9, names)
    }

    /// Adds the names of tags, as `tags` does.
    pub fn tag<T: Store>(&mut self, names: &CountedList<NameMembers, T>) -> Result<()>
        ensures { AddsTo S.model (subsection_encoding 11 (list_encoding (T.model.joins names.now))) (HasEncodableSize (list_encoding (T.model.joins names.now)) × ⊤) self.old self.new result }
    {
        self.tags(names)
    }

    /// Adds the names of tags.
    pub fn tags<T: Store>(&mut self, names: &CountedList<NameMembers, T>) -> Result<()>
        ensures { AddsTo S.model (subsection_encoding 11 (list_encoding (T.model.joins names.now))) (HasEncodableSize (list_encoding (T.model.joins names.now)) × ⊤) self.old self.new result }
    {
        self.map(11, names)
    }

    /// Adds the names of the locals of functions, including parameters.
    pub fn locals<T: Store>(&mut self, names: &CountedList<IndirectMembers, T>) -> Result<()>
        ensures { AddsTo S.model (subsection_encoding 2 (list_encoding (T.model.joins names.now))) (HasEncodableSize (list_encoding (T.model.joins names.now)) × ⊤) self.old self.new result }
    {
        self.indirect_map(2, names)
    }

    /// Adds the names of the labels of functions.
    pub fn labels<T: Store>(&mut self, names: &CountedList<IndirectMembers, T>) -> Result<()>
        ensures { AddsTo S.model (subsection_encoding 3 (list_encoding (T.model.joins names.now))) (HasEncodableSize (list_encoding (T.model.joins names.now)) × ⊤) self.old self.new result }
    {
        self.indirect_map(3, names)
    }

    /// Adds the names of the fields of types.
    pub fn fields<T: Store>(&mut self, names: &CountedList<IndirectMembers, T>) -> Result<()>
        ensures { AddsTo S.model (subsection_encoding 10 (list_encoding (T.model.joins names.now))) (HasEncodableSize (list_encoding (T.model.joins names.now)) × ⊤) self.old self.new result }
    {
        self.indirect_map(10, names)
    }

    /// Adds the names of the parameters of function types.
    pub fn parameters<T: Store>(&mut self, names: &CountedList<IndirectMembers, T>) -> Result<()>
        ensures { AddsTo S.model (subsection_encoding 12 (list_encoding (T.model.joins names.now))) (HasEncodableSize (list_encoding (T.model.joins names.now)) × ⊤) self.old self.new result }
    {
        self.indirect_map(12, names)
    }

    /// Adds the names of the parameters of tags.
    pub fn tag_parameters<T: Store>(
        &mut self,
        names: &CountedList<IndirectMembers, T>,
    ) -> Result<()>
        ensures { AddsTo S.model (subsection_encoding 13 (list_encoding (T.model.joins names.now))) (HasEncodableSize (list_encoding (T.model.joins names.now)) × ⊤) self.old self.new result }
    {
        self.indirect_map(13, names)
    }

    /// Adds a subsection of this id, whose content is already encoded. The call does not check the
    /// content.
    pub fn raw(&mut self, id: u8, content: &[u8]) -> Result<()>
        ensures { AddsTo S.model (subsection_encoding id content.now) (HasEncodableSize content.now × ⊤) self.old self.new result }
    {
        self.add_record(&Subsection {
            id,
            content: &RawContent(content),
        })
    }

    /// Returns the section as a custom section that borrows the entries, and allocates nothing.
    pub fn as_custom(&self) -> CustomSection<'_>
        ensures name { utf8_of result.name ≡ name_name }
        ensures bytes { items_of result.bytes ≡ (S.model.joins self.now).content }
    {
        CustomSection {
            name: CowStr::Borrowed("name"),
            bytes: CowSlice::Borrowed(self.content()),
        }
    }
}

/// A decoded subsection of a name section.
#[derive(Debug, Drop)]
pub enum NameItem<'a, A: Allocator = Global> {
    /// The name of the module.
    Module(&'a str),
    /// A name map: indices of the kind that the id selects, such as functions, and their names.
    Map {
        id: u8,
        names: Vec<(u32, &'a str), A>,
    },
    /// An indirect name map: indices of the outer kind, such as functions for locals, each with the
    /// indices and names in it.
    Indirect {
        id: u8,
        maps: Vec<(u32, Vec<(u32, &'a str), A>), A>,
    },
    /// A subsection of another id.
    Other {
        id: u8,
        bytes: &'a [u8],
    },
}

/// The content of a subsection.
#[derive(Clone, Copy, Debug)]
pub(crate) enum NameKind {
    Module,
    Map,
    Indirect,
    Other,
}

/// Returns the content of a subsection of this id.
pub(crate) fn name_kind_of(id: u8) -> NameKind
    ensures { kind_as result ≡ kind_of_id id }
{
    match id {
        0 => NameKind::Module,
        1 | 4..=9 | 11 => NameKind::Map,
        2 | 3 | 10 | 12 | 13 => NameKind::Indirect,
        _ => NameKind::Other,
    }
}

/// Decodes the content of a subsection of this kind and id. `rest` are the bytes after the content.
#[tactic(auto, using(crate::proofs::NameLaws::kind_steps))]
fn fill_subsection<'a, A: Allocator + Copy + 'a, G: Grammar>(
    kind: NameKind,
    id: u8,
    bytes: &'a [u8],
    rest: &[u8],
    alloc: A,
) -> Result<NameItem<'a, A>, DecodeError>
    ensures found { IfOk result (λ x. inside (kind_as kind) id (padded_of G.grammar) bytes.now (name_item_view x)) }
    ensures none { IfErr result (λ e. e.cause ≢ Memory → RejectsWhole (inside (kind_as kind) id) (padded_of G.grammar) bytes.now) }
{
    match kind {
        NameKind::Module => {
            let name = read_before::<&'a str, A, G>(bytes, rest, alloc)?;
            Ok(NameItem::Module(name))
        }
        NameKind::Map => {
            let names = read_before::<Vec<(u32, &'a str), A>, A, G>(bytes, rest, alloc)?;
            Ok(NameItem::Map { id, names })
        }
        NameKind::Indirect => {
            let maps = read_before::<Vec<(u32, Vec<(u32, &'a str), A>), A>, A, G>(
                bytes, rest, alloc,
            )?;
            Ok(NameItem::Indirect { id, maps })
        }
        NameKind::Other => Ok(NameItem::Other { id, bytes }),
    }
}

impl<'a, A: Allocator> Layout for NameItem<'a, A> {
    ghost Value = { NameModel };

    ghost format = { subsection };

    ghost view = { name_item_view };

    #[tactic(auto, using(crate::proofs::NameLaws::subsection_unambiguous))]
    fn laws()
        ensures { Unambiguous subsection }
    {}
}

impl<'a, A: Allocator + Copy + 'a, G: Grammar> Readable<'a, A, G> for NameItem<'a, A> {
    #[tactic(auto, using(crate::proofs::NameLaws::subsection_decodes))]
    fn read(bytes: &'a [u8], alloc: A) -> Result<(NameItem<'a, A>, &'a [u8]), DecodeError> {
        let (id, rest) = <u8 as Readable<'a, A, G>>::read(bytes, alloc)?;
        let (content, rest) = <&'a [u8] as Readable<'a, A, G>>::read(rest, alloc)?;
        let item = fill_subsection::<A, G>(name_kind_of(id), id, content, rest, alloc)?;
        Ok((item, rest))
    }
}

/// Decodes the payload of a name section, in the grammar `G`: its subsections.
///
/// # Errors
///
/// Every error except `Memory` means that the bytes are not such a payload.
#[tactic(auto, using(crate::proofs::NameLaws::name_steps))]
pub fn read_names<'a, A: Allocator + Copy + 'a, G: Grammar>(
    bytes: &'a [u8],
    alloc: A,
) -> Result<Vec<NameItem<'a, A>, A>, DecodeError>
    ensures found { IfOk result (λ x. name_payload (padded_of G.grammar) bytes.now (map name_item_view x.items)) }
    ensures none { IfErr result (λ e. e.cause ≢ Memory → RejectsWhole name_payload (padded_of G.grammar) bytes.now) }
{
    let rest = after_name::<A, G>("name", bytes, alloc)?;
    let items = read_to_end::<'a, NameItem<'a, A>, A, G>(rest, alloc)?;
    Ok(items)
}

impl<'a, A: Allocator> NameItem<'a, A> {
    /// Returns the id of the subsection.
    fn id(&self) -> u8
        ensures { result ≡ id_of (name_item_view self.now) }
    {
        match self {
            NameItem::Module(_) => 0,
            NameItem::Map { id, .. } => *id,
            NameItem::Indirect { id, .. } => *id,
            NameItem::Other { id, .. } => *id,
        }
    }

    /// Appends the content of the subsection, without its size prefix.
    #[tactic(auto, using(crate::proofs::NameLaws::module_appended, crate::proofs::NameLaws::map_appended, crate::proofs::NameLaws::indirect_appended, crate::proofs::NameLaws::other_appended, crate::proofs::NameLaws::module_encoded, crate::proofs::NameLaws::map_encoded, crate::proofs::NameLaws::indirect_encoded))]
    fn append_content<B: Allocator>(&self, sink: &mut Vec<u8, B>) -> Result<()>
        ensures ok { OnOk result (AppendsMinimal both_grammars (inside (held_by (name_item_view self.now)) (id_of (name_item_view self.now))) (name_item_view self.now) sink.old.items sink.new.items) }
        ensures front { IsFrontOf sink.old.items sink.new.items }
        ensures too_long { HasEncoding both_grammars (inside (held_by (name_item_view self.now)) (id_of (name_item_view self.now))) (name_item_view self.now) → result ≢ Err TooLong }
    {
        match self {
            NameItem::Module(name) => name.write_minimal(sink),
            NameItem::Map { names, .. } => names.write_minimal(sink),
            NameItem::Indirect { maps, .. } => maps.write_minimal(sink),
            NameItem::Other { bytes, .. } => {
                sink.extend_from_slice(bytes)?;
                Ok(())
            }
        }
    }
}

impl<'a, A: Allocator> Shorten for NameItem<'a, A> {
    ghost grammars = { both_grammars };

    #[tactic(auto, using(crate::proofs::NameLaws::subsection_appended, crate::proofs::NameLaws::held_encoded, crate::proofs::NameLaws::held_encodable))]
    fn write_minimal<B: Allocator>(&self, sink: &mut Vec<u8, B>) -> Result<()> {
        self.id().encode(sink)?;
        let start = sink.len();
        self.append_content(sink)?;
        prefix_size_since(sink, start)
    }
}

/// Writes the bytes that [`append_names`] appends. After an error, part of them may follow the old
/// bytes.
#[tactic(auto, using(crate::proofs::NameLaws::names_appended, crate::proofs::NameLaws::names_encoded))]
fn write_names<A: Allocator, B: Allocator>(
    items: &[NameItem<'_, A>],
    sink: &mut Vec<u8, B>,
) -> Result<()>
    ensures ok { OnOk result (AppendsMinimal both_grammars name_payload (map name_item_view items.now) sink.old.items sink.new.items) }
    ensures front { IsFrontOf sink.old.items sink.new.items }
    ensures too_long { HasEncoding both_grammars name_payload (map name_item_view items.now) → result ≢ Err TooLong }
{
    "name".encode(sink)?;
    append_all(items, sink)
}

/// Appends the minimal encoding of the payload of a name section of these subsections. On an error,
/// the sink is unchanged.
pub fn append_names<A: Allocator, B: Allocator>(
    items: &[NameItem<'_, A>],
    sink: &mut Vec<u8, B>,
) -> Result<()>
    ensures ok { OnOk result (AppendsMinimal both_grammars name_payload (map name_item_view items.now) sink.old.items sink.new.items) }
    ensures err { OnErr result (sink.new.items ≡ sink.old.items) }
    ensures too_long { HasEncoding both_grammars name_payload (map name_item_view items.now) → result ≢ Err TooLong }
{
    let start = sink.len();
    let written = write_names(items, sink);
    if written.is_err() {
        sink.truncate(start);
    }
    written
}
