// Core dump sections: the process, its modules and its instances.
ghost use Rattle.std.specs.Prelude.{◌≡◌, ◌≢◌, ℕ, List, [], ◌∷◌, ◌++◌, IfOk, true, ⊤, IfErr, Err, OnOk, OnErr, map};
ghost use Rattle.wasm_base.specs.Calls.{Adds, AddsTo, DecodesBack};
ghost use Rattle.wasm_base.specs.Cow.{items_of, utf8_of};
ghost use Rattle.wasm_base.specs.Formats.{fixed};
ghost use Rattle.wasm_base.specs.Continuing.{RejectsWhole};
ghost use Rattle.wasm_base.specs.Iterators.{HasKnownLength};
ghost use Rattle.wasm_base.specs.Numbers.{unsigned_encoding, padded_of};
ghost use Rattle.wasm_base.specs.Decoding.{Unambiguous};
ghost use Rattle.wasm_base.specs.Encodings.{HasEncodableSize, vec_encoding};
ghost use Rattle.wasm_base.specs.declared.refused.Refused.TheVariants.{TooLong};
ghost use Rattle.wasm_custom.specs.Adding.{AddsTwoLists};
ghost use Rattle.wasm_custom.specs.CoreDumps.{instance_items, module_items, marked_encoding, core_name, core_section, SaysProcess, marked_name, modules_name, Instance, instance, instances_name, instance_view, core_payload, modules_payload, instances_payload};
ghost use Rattle.wasm_custom.specs.Customs.{named_encoding, IsEncodableNamed};
ghost use Rattle.wasm_custom.specs.Entries.{joined_data};
ghost use Rattle.wasm_base.specs.Minimal.{AppendsMinimal, IsFrontOf, HasEncoding, both_grammars};
ghost use Rattle.wasm_base.specs.declared.fault.ReadFault.TheVariants.{Memory};

use crate::counted::{DecodesItems, ItemsAs, append_counted, read_counted};
use crate::custom_section::{CustomSection, begin_custom};
use crate::entries::{CustomEntries, CustomKind};
use crate::marked::{MarkedName, read_marked};
use crate::named::after_name;
use std::alloc::{Allocator, Global};
use std::marker::Model;
use wasm_base::{
    DecodeError, Encode, Grammar, Kind, Layout, Pieces, Readable, Result, Section, SectionId,
    Shorten, Store, read_whole, vec_of,
};

/// The `core` section of a dumped process, modelled as its data: the byte 00, and the name of the
/// process.
///
/// ```rust
/// module.section(&CoreDumpSection::new(alloc, "a.wasm")?)?;
/// ```
///
/// # Errors
///
/// The error of `new` is `TooLong` only if the name is too long, and `Memory` only if an allocation
/// fails.
#[derive(Drop, Debug)]
pub struct CoreDumpSection<A: Allocator = Global> {
    data: Vec<u8, A>,
}

impl<A: Allocator> Model for CoreDumpSection<A> {
    ghost Value = { List ℕ };

    ghost view = { λ s. s.data.items };
}

impl<A: Allocator> CoreDumpSection<A> {
    /// Returns the section of the process of this name.
    pub fn new(alloc: A, name: &str) -> Result<Self>
        ensures is { IfOk result (λ s. s ≡ marked_encoding name.now) }
        ensures was_encodable { IfOk result (λ _. HasEncodableSize name.now) }
        ensures too_long { HasEncodableSize name.now → result ≢ Err TooLong }
    {
        let mut data = Vec::new(alloc);
        (0x00u8, name).encode(&mut data)?;
        Ok(CoreDumpSection { data })
    }

    /// Returns the same section, in memory of its own.
    pub fn clone(&self) -> Result<Self>
    where
        A: Copy,
        ensures same { IfOk result (λ s. s ≡ self.now) }
        ensures memory { result ≢ Err TooLong }
    {
        Ok(CoreDumpSection {
            data: Vec::from_slice(*self.data.allocator(), &self.data)?,
        })
    }
}

/// Encodes the size prefix, the name of the section, and the data.
impl<A: Allocator> Encode for CoreDumpSection<A> {
    ghost encoding = { λ s. named_encoding core_name s };

    ghost encodable = { λ s. IsEncodableNamed core_name s };

    ghost decoding = { λ s. DecodesBack core_section (SaysProcess s) (named_encoding core_name s) };

    #[tactic(auto, unfolding(crate::specs::Customs::named_encoding))]
    fn encode<B: Allocator>(&self, sink: &mut Vec<u8, B>) -> Result<()> {
        let data = self.data.as_slice();
        begin_custom(sink, "core", data.len())?;
        sink.extend_from_slice(data).unwrap();
        Ok(())
    }
}

impl<A: Allocator> Section for CoreDumpSection<A> {
    ghost use Rattle.wasm_base.specs.SectionId.{number_of};
    ghost use Rattle.wasm_base.specs.declared.section_id.SectionId.TheVariants as ids;
    ghost use Rattle.wasm_custom.specs.CoreDumps.{core_name, core_section, SaysProcess};
    ghost use Rattle.wasm_custom.specs.Customs.{NamedPayload, named_sized};

    ghost id_of = { λ _. number_of ids.Custom };

    ghost Items = { List ℕ };

    ghost format = { core_section };

    ghost says = { SaysProcess };

    ghost payload = { NamedPayload core_name };

    fn id(&self) -> u8 {
        SectionId::Custom.into()
    }

    ghost sized = { λ s bytes encodable pays. named_sized core_name s bytes encodable pays };

    ghost decodes_back = { λ s promised. promised };
}

/// The `coremodules` section: the modules of the process, by their names.
///
/// ```rust
/// let mut modules = CoreDumpModulesSection::new(alloc);
/// modules.module("a.wasm")?;
/// module.section(&modules)?;
/// ```
pub type CoreDumpModulesSection<A = Global> = CustomEntries<ModuleItems, Pieces<A>>;

/// The kind of the items of a modules section: their names.
#[derive(Clone, Copy, Debug)]
pub struct ModuleItems;

impl Kind for ModuleItems {
    ghost Record = { List ℕ };

    ghost Item = { List ℕ };

    ghost kind = { module_items };

    #[tactic(auto, using(crate::proofs::CoreDumpLaws::module_laws))]
    fn laws() {}
}

impl CustomKind for ModuleItems {
    ghost name = { modules_name };

    ghost front = { [] };

    ghost front_format = { fixed [] (tt {0}) };

    ghost counted = { true };

    fn name() -> &'static str {
        "coremodules"
    }

    fn front() -> &'static [u8] {
        &[]
    }

    fn counted() -> bool {
        true
    }

    #[tactic(auto, using(crate::proofs::CoreDumpLaws::module_layout))]
    fn layout_laws() {}
}

impl<S: Store> CustomEntries<ModuleItems, S> {
    /// Adds a module.
    pub fn module(&mut self, name: &str) -> Result<()>
        ensures { AddsTo S.model (marked_encoding name.now) (⊤ × HasEncodableSize name.now) self.old self.new result }
    {
        self.add_record(&(0x00u8, name))
    }

    /// Returns the section as a custom section, which owns a copy of the data.
    pub fn as_custom<B: Allocator>(&self, alloc: B) -> Result<CustomSection<'_, B>>
        ensures same { IfOk result (λ s. (utf8_of s.name ≡ modules_name) × (items_of s.bytes ≡ joined_data [] true (S.model.joins self.now))) }
        ensures memory { result ≢ Err TooLong }
    {
        self.owned(alloc)
    }
}

/// The `coreinstances` section: the instances of the process. `len` is their number.
///
/// ```rust
/// let mut instances = CoreDumpInstancesSection::new(alloc);
/// instances.instance(0, [0], [0, 1])?;
/// module.section(&instances)?;
/// ```
pub type CoreDumpInstancesSection<A = Global> = CustomEntries<InstanceItems, Pieces<A>>;

/// The kind of the items of an instances section.
#[derive(Clone, Copy, Debug)]
pub struct InstanceItems;

impl Kind for InstanceItems {
    ghost Record = { Instance };

    ghost Item = { Instance };

    ghost kind = { instance_items };

    #[tactic(auto, using(crate::proofs::CoreDumpLaws::instance_laws))]
    fn laws() {}
}

impl CustomKind for InstanceItems {
    ghost name = { instances_name };

    ghost front = { [] };

    ghost front_format = { fixed [] (tt {0}) };

    ghost counted = { true };

    fn name() -> &'static str {
        "coreinstances"
    }

    fn front() -> &'static [u8] {
        &[]
    }

    fn counted() -> bool {
        true
    }

    #[tactic(auto, using(crate::proofs::CoreDumpLaws::instance_layout))]
    fn layout_laws() {}
}

impl<S: Store> CustomEntries<InstanceItems, S> {
    /// Adds an instance of the module, with these memories and globals.
    ///
    /// If there are more than 4294967295 memories or globals, the call returns `TooLong` and
    /// requests none of either, as tests show.
    pub fn instance<M: IntoIterator<Item = u32>, G: IntoIterator<Item = u32> + Drop>(
        &mut self,
        module_index: u32,
        memories: M,
        globals: G,
    ) -> Result<()>
    where
        M::IntoIter: ExactSizeIterator + Drop,
        G::IntoIter: ExactSizeIterator + Drop,
        requires memories { HasKnownLength M.into_iter_gives M.IntoIter.can_next M.IntoIter.next_gives M.IntoIter.remaining memories }
        requires globals { HasKnownLength G.into_iter_gives G.IntoIter.can_next G.IntoIter.next_gives G.IntoIter.remaining globals }
        ensures { AddsTwoLists S.model M.into_iter_gives M.IntoIter.next_gives M.IntoIter.remaining memories G.into_iter_gives G.IntoIter.next_gives G.IntoIter.remaining globals (λ _. ⊤) (λ _. ⊤)
            (λ xs ys. (0x00 ∷ unsigned_encoding module_index) ++ (vec_encoding unsigned_encoding xs ++ vec_encoding unsigned_encoding ys)) self.old self.new result }
    {
        let memories = vec_of(memories)?;
        let globals = vec_of(globals)?;
        self.add_once(((0x00u8, module_index), memories, globals))
    }

    /// Returns the section as a custom section, which owns a copy of the data.
    pub fn as_custom<B: Allocator>(&self, alloc: B) -> Result<CustomSection<'_, B>>
        ensures same { IfOk result (λ s. (utf8_of s.name ≡ instances_name) × (items_of s.bytes ≡ joined_data [] true (S.model.joins self.now))) }
        ensures memory { result ≢ Err TooLong }
    {
        self.owned(alloc)
    }
}

/// Decodes the payload of a process section, in the grammar `G`: the name of the process.
///
/// # Errors
///
/// An error means that the bytes are not such a payload.
#[tactic(auto, using(crate::proofs::CoreDumpLaws::process_steps))]
pub fn read_process<'a, A: Allocator + Copy, G: Grammar>(
    bytes: &'a [u8],
    alloc: A,
) -> Result<&'a str, DecodeError>
    ensures found { IfOk result (λ x. core_payload (padded_of G.grammar) bytes.now x.now) }
    ensures none { IfErr result (λ e. e.cause ≢ Memory → RejectsWhole core_payload (padded_of G.grammar) bytes.now) }
    ensures no_memory { IfErr result (λ e. e.cause ≢ Memory) }
{
    let rest = after_name::<A, G>("core", bytes, alloc)?;
    let MarkedName(name) = read_whole::<'a, MarkedName<'a>, A, G>(rest, alloc)?;
    Ok(name)
}

impl<'a> ItemsAs<&'a str> for ModuleItems {
    ghost Said = { List ℕ };

    ghost format = { marked_name };

    ghost view = { λ name. name.now };

    #[tactic(auto, using(crate::proofs::CoreDumpLaws::marked_unambiguous))]
    fn unique()
        ensures { Unambiguous marked_name }
    {}

    fn append_item<B: Allocator>(item: &&'a str, sink: &mut Vec<u8, B>) -> Result<()> {
        append_marked(item, sink)
    }
}

impl<'a, A: Allocator + Copy, G: Grammar> DecodesItems<'a, &'a str, A, G> for ModuleItems {
    fn read_item(bytes: &'a [u8], alloc: A) -> Result<(&'a str, &'a [u8]), DecodeError> {
        let (MarkedName(name), rest) = <MarkedName<'a> as Readable<'a, A, G>>::read(bytes, alloc)?;
        Ok((name, rest))
    }
}

/// Decodes the payload of a modules section, in the grammar `G`: the names of the modules.
///
/// # Errors
///
/// Every error except `Memory` means that the bytes are not such a payload.
pub fn read_modules<'a, A: Allocator + Copy, G: Grammar>(
    bytes: &'a [u8],
    alloc: A,
) -> Result<Vec<&'a str, A>, DecodeError>
    ensures found { IfOk result (λ x. modules_payload (padded_of G.grammar) bytes.now (map (λ name. name.now) x.items)) }
    ensures none { IfErr result (λ e. e.cause ≢ Memory → RejectsWhole modules_payload (padded_of G.grammar) bytes.now) }
{
    read_counted::<'a, ModuleItems, &'a str, A, G>(bytes, alloc)
}

/// A decoded instance: the index of its module, its memories and its globals.
#[derive(Debug, Drop)]
pub(crate) struct CoreInstance<A: Allocator>(pub (u32, Vec<u32, A>, Vec<u32, A>));

impl<A: Allocator> Layout for CoreInstance<A> {
    ghost Value = { Instance };

    ghost format = { instance };

    ghost view = { λ i. instance_view i.0 };

    #[tactic(auto, using(crate::proofs::CoreDumpLaws::instance_unambiguous))]
    fn laws() {}
}

impl<'a, A: Allocator + Copy, G: Grammar> Readable<'a, A, G> for CoreInstance<A> {
    #[tactic(auto, using(crate::proofs::CoreDumpLaws::instance_steps))]
    fn read(bytes: &'a [u8], alloc: A) -> Result<(CoreInstance<A>, &'a [u8]), DecodeError> {
        let ((module_index, (memories, globals)), rest) = read_marked::<
            'a,
            (u32, (Vec<u32, A>, Vec<u32, A>)),
            A,
            G,
        >(0x00, bytes, alloc)?;
        Ok((CoreInstance((module_index, memories, globals)), rest))
    }
}

impl<A: Allocator> ItemsAs<(u32, Vec<u32, A>, Vec<u32, A>)> for InstanceItems {
    ghost Said = { Instance };

    ghost format = { instance };

    ghost view = { instance_view };

    #[tactic(auto, using(crate::proofs::CoreDumpLaws::instance_unambiguous))]
    fn unique() {}

    #[tactic(auto, using(crate::proofs::CoreDumpLaws::instance_appended, crate::proofs::CoreDumpLaws::memories_encoded, crate::proofs::CoreDumpLaws::globals_encoded))]
    fn append_item<B: Allocator>(
        item: &(u32, Vec<u32, A>, Vec<u32, A>),
        sink: &mut Vec<u8, B>,
    ) -> Result<()> {
        let (index, memories, globals) = item;
        0x00u8.encode(sink)?;
        index.write_minimal(sink)?;
        memories.write_minimal(sink)?;
        globals.write_minimal(sink)
    }
}

impl<'a, A: Allocator + Copy, G: Grammar> DecodesItems<'a, (u32, Vec<u32, A>, Vec<u32, A>), A, G>
    for InstanceItems {
    fn read_item(
        bytes: &'a [u8],
        alloc: A,
    ) -> Result<((u32, Vec<u32, A>, Vec<u32, A>), &'a [u8]), DecodeError> {
        let (CoreInstance(instance), rest) = <CoreInstance<A> as Readable<'a, A, G>>::read(
            bytes, alloc,
        )?;
        Ok((instance, rest))
    }
}

/// Decodes the payload of an instances section, in the grammar `G`: for each instance the index of
/// its module, its memories and its globals.
///
/// # Errors
///
/// Every error except `Memory` means that the bytes are not such a payload.
pub fn read_instances<'a, A: Allocator + Copy, G: Grammar>(
    bytes: &'a [u8],
    alloc: A,
) -> Result<Vec<(u32, Vec<u32, A>, Vec<u32, A>), A>, DecodeError>
    ensures found { IfOk result (λ x. instances_payload (padded_of G.grammar) bytes.now (map instance_view x.items)) }
    ensures none { IfErr result (λ e. e.cause ≢ Memory → RejectsWhole instances_payload (padded_of G.grammar) bytes.now) }
{
    read_counted::<'a, InstanceItems, (u32, Vec<u32, A>, Vec<u32, A>), A, G>(bytes, alloc)
}

/// Appends the byte 00 and a name.
#[tactic(auto, using(crate::proofs::CoreDumpLaws::marked_appended, crate::proofs::CoreDumpLaws::marked_encoded))]
pub(crate) fn append_marked<B: Allocator>(name: &str, sink: &mut Vec<u8, B>) -> Result<()>
    ensures ok { OnOk result (AppendsMinimal both_grammars marked_name name.now sink.old.items sink.new.items) }
    ensures front { IsFrontOf sink.old.items sink.new.items }
    ensures too_long { HasEncoding both_grammars marked_name name.now → result ≢ Err TooLong }
{
    0x00u8.encode(sink)?;
    name.write_minimal(sink)
}

/// Writes the bytes that [`append_process`] appends. After an error, part of them may follow the
/// old bytes.
#[tactic(auto, using(crate::proofs::CoreDumpLaws::process_appended, crate::proofs::CoreDumpLaws::process_encoded))]
fn write_process<B: Allocator>(name: &str, sink: &mut Vec<u8, B>) -> Result<()>
    ensures ok { OnOk result (AppendsMinimal both_grammars core_payload name.now sink.old.items sink.new.items) }
    ensures front { IsFrontOf sink.old.items sink.new.items }
    ensures too_long { HasEncoding both_grammars core_payload name.now → result ≢ Err TooLong }
{
    "core".encode(sink)?;
    append_marked(name, sink)
}

/// Appends the minimal encoding of the payload of the section of this process. On an error, the
/// sink is unchanged.
pub fn append_process<B: Allocator>(name: &str, sink: &mut Vec<u8, B>) -> Result<()>
    ensures ok { OnOk result (AppendsMinimal both_grammars core_payload name.now sink.old.items sink.new.items) }
    ensures err { OnErr result (sink.new.items ≡ sink.old.items) }
    ensures too_long { HasEncoding both_grammars core_payload name.now → result ≢ Err TooLong }
{
    let start = sink.len();
    let written = write_process(name, sink);
    if written.is_err() {
        sink.truncate(start);
    }
    written
}

/// Appends the minimal encoding of the payload of a section of these modules. On an error, the sink
/// is unchanged.
pub fn append_modules<B: Allocator>(names: &[&str], sink: &mut Vec<u8, B>) -> Result<()>
    ensures ok { OnOk result (AppendsMinimal both_grammars modules_payload (map (λ n. n.now) names.now) sink.old.items sink.new.items) }
    ensures err { OnErr result (sink.new.items ≡ sink.old.items) }
    ensures too_long { HasEncoding both_grammars modules_payload (map (λ n. n.now) names.now) → result ≢ Err TooLong }
{
    append_counted::<ModuleItems, &str, _>(names, sink)
}

/// Appends the minimal encoding of the payload of a section of these instances. On an error, the
/// sink is unchanged.
pub fn append_instances<A: Allocator, B: Allocator>(
    instances: &[(u32, Vec<u32, A>, Vec<u32, A>)],
    sink: &mut Vec<u8, B>,
) -> Result<()>
    ensures ok { OnOk result (AppendsMinimal both_grammars instances_payload (map instance_view instances.now) sink.old.items sink.new.items) }
    ensures err { OnErr result (sink.new.items ≡ sink.old.items) }
    ensures too_long { HasEncoding both_grammars instances_payload (map instance_view instances.now) → result ≢ Err TooLong }
{
    append_counted::<InstanceItems, (u32, Vec<u32, A>, Vec<u32, A>), _>(instances, sink)
}
