// Kinds of sections: the reader of each, and the encoder of its items.
ghost use Rattle.std.specs.Prelude.{◌≡◌, ◌≢◌, Err, IfOk, IfErr, OnOk, OnErr};
ghost use Rattle.wasm_base.specs.Continuing.{RejectsWhole};
ghost use Rattle.wasm_base.specs.Numbers.{padded_of};
ghost use Rattle.wasm_base.specs.Minimal.{AppendsMinimal, HasEncoding, both_grammars};
ghost use Rattle.wasm_base.specs.declared.fault.ReadFault.TheVariants.{Memory};
ghost use Rattle.wasm_base.specs.declared.refused.Refused.TheVariants.{TooLong};
ghost use Rattle.wasm_reader.specs.Kinds.{Contents, Custom, content, contents_of, grammars_of, kind_among_names, kind_in, kind_named, known_names, kind_numbered, kind_of_id as kind_among_ids};
ghost use Rattle.wasm_reader.specs.declared.kinds.SectionKind.TheVariants as kinds;

use std::alloc::{Allocator, Global};
use wasm_base::{DecodeError, Encode, Grammar, Readable, Result, Shorten, read_whole};
use wasm_code::Body;
// begin: written by tools/kinds
use wasm_custom::{
    BranchHint, CallTarget, CodeHint, CompilationOrder, CoreFrame, DylinkItem, FeaturePrefix,
    InstructionFrequency, LinkItem, NameItem, Relocation, append_build_id, append_call_targets,
    append_debug_file, append_dylink, append_features, append_frequencies, append_hints,
    append_instances, append_links, append_modules, append_names, append_orders, append_process,
    append_producers, append_relocations, append_source_map, append_stack, read_build_id,
    read_call_targets, read_debug_file, read_dylink, read_features, read_frequencies, read_hints,
    read_instances, read_links, read_modules, read_names, read_orders, read_process,
    read_producers, read_relocations, read_source_map, read_stack,
};
// end: written by tools/kinds
use wasm_sections::{
    ElementItem, Export, GlobalItem, Imports, MemoryType, Segment, TableItem, TagType,
    append_imports, read_imports, read_segments,
};
use wasm_types::{TypeEntry, append_types, read_types};

/// A kind of section, which selects the reader of its payload.
#[derive(Clone, Copy, PartialEq, Eq, Debug)]
pub enum SectionKind {
    /// The code section: function bodies.
    Bodies,
    /// The data section.
    Segments,
    DataCount,
    Elements,
    Exports,
    Functions,
    Globals,
    Imports,
    Memories,
    Start,
    Tables,
    Tags,
    /// The name section: names of the module and of its items.
    Names,
    /// The linking section: symbols, and the architecture of the target.
    Linking,
    /// The producers section: the tools that produced the module.
    Producers,
    /// The branch hint section.
    Hints,
    /// The process section of a core dump.
    Core,
    /// The modules section of a core dump.
    CoreModules,
    /// The instances section of a core dump.
    CoreInstances,
    /// The stack section of a core dump: the stack of a thread.
    CoreStack,
    /// A custom section of any name.
    Custom,
    /// A section of any bytes.
    Raw,
    Types,
    /// The target features section.
    TargetFeatures,
    /// The section of a source map.
    SourceMappingUrl,
    /// The section of a file of debug information.
    ExternalDebugInfo,
    /// The section of a build's identity.
    BuildId,
    /// The section of a dynamic library: its requirements at load time.
    Dylink,
    /// A relocation section, whose name begins with `reloc.`.
    Relocations,
    /// The section of instruction frequencies.
    InstructionFrequencies,
    /// The section of compilation orders.
    CompilationOrders,
    /// The section of call targets.
    CallTargets,
}

impl SectionKind {
    /// Returns the kind of this number, in the order of the enum's declaration. C callers use these
    /// numbers.
    pub fn numbered(number: u32) -> Option<SectionKind>
        ensures { result ≡ kind_numbered number }
    {
        match number {
            // begin: written by tools/kinds
            0 => Some(SectionKind::Bodies),
            1 => Some(SectionKind::Segments),
            2 => Some(SectionKind::DataCount),
            3 => Some(SectionKind::Elements),
            4 => Some(SectionKind::Exports),
            5 => Some(SectionKind::Functions),
            6 => Some(SectionKind::Globals),
            7 => Some(SectionKind::Imports),
            8 => Some(SectionKind::Memories),
            9 => Some(SectionKind::Start),
            10 => Some(SectionKind::Tables),
            11 => Some(SectionKind::Tags),
            12 => Some(SectionKind::Names),
            13 => Some(SectionKind::Linking),
            14 => Some(SectionKind::Producers),
            15 => Some(SectionKind::Hints),
            16 => Some(SectionKind::Core),
            17 => Some(SectionKind::CoreModules),
            18 => Some(SectionKind::CoreInstances),
            19 => Some(SectionKind::CoreStack),
            20 => Some(SectionKind::Custom),
            21 => Some(SectionKind::Raw),
            22 => Some(SectionKind::Types),
            23 => Some(SectionKind::TargetFeatures),
            24 => Some(SectionKind::SourceMappingUrl),
            25 => Some(SectionKind::ExternalDebugInfo),
            26 => Some(SectionKind::BuildId),
            27 => Some(SectionKind::Dylink),
            28 => Some(SectionKind::Relocations),
            29 => Some(SectionKind::InstructionFrequencies),
            30 => Some(SectionKind::CompilationOrders),
            31 => Some(SectionKind::CallTargets),
            // end: written by tools/kinds
            _ => None,
        }
    }
}

/// The decoded items of a section. Names, data and raw bytes are slices of the input; lists are in
/// memory of the allocator. They can be changed in place, and [`encode_items`] encodes them.
#[derive(Debug, Drop)]
pub enum Items<'a, A: Allocator = Global> {
    Bodies(Vec<Body<A>, A>),
    Segments(Vec<Segment<'a, A>, A>),
    DataCount(u32),
    Elements(Vec<ElementItem<A>, A>),
    Exports(Vec<Export<'a>, A>),
    /// The indices of the functions' types.
    Functions(Vec<u32, A>),
    Globals(Vec<GlobalItem<A>, A>),
    /// Imports and groups of imports, whose lists are owned.
    Imports(Vec<Imports<'a, A>, A>),
    Memories(Vec<MemoryType, A>),
    /// The index of a function.
    Start(u32),
    Tables(Vec<TableItem<A>, A>),
    Tags(Vec<TagType, A>),
    Names(Vec<NameItem<'a, A>, A>),
    Linking(Vec<LinkItem<'a, A>, A>),
    /// The name of each field, and its values, which are a name and a version.
    Producers(Vec<(&'a str, Vec<(&'a str, &'a str), A>), A>),
    /// The index of each function with hints, and its hints.
    Hints(Vec<(u32, Vec<BranchHint, A>), A>),
    /// The name of the process.
    Core(&'a str),
    /// The names of the modules.
    CoreModules(Vec<&'a str, A>),
    /// For each instance the index of its module, its memories and its globals.
    CoreInstances(Vec<(u32, Vec<u32, A>, Vec<u32, A>), A>),
    /// The name of the thread, and the frames of its stack.
    CoreStack {
        thread: &'a str,
        frames: Vec<CoreFrame<A>, A>,
    },
    Custom {
        name: &'a str,
        bytes: &'a [u8],
    },
    Raw(&'a [u8]),
    /// Types and recursion groups.
    Types(Vec<TypeEntry<A>, A>),
    /// The prefix of each feature, and its name.
    TargetFeatures(Vec<(FeaturePrefix, &'a str), A>),
    /// The URL of the source map.
    SourceMappingUrl(&'a str),
    /// The path of the file of debug information.
    ExternalDebugInfo(&'a str),
    /// The bytes that identify the build.
    BuildId(&'a [u8]),
    Dylink(Vec<DylinkItem<'a, A>, A>),
    Relocations {
        /// The whole name of the custom section, such as `reloc.CODE`.
        name: &'a str,
        /// The index of the section that is relocated.
        section: u32,
        relocations: Vec<Relocation, A>,
    },
    /// For each function its index, and the frequencies of its instructions.
    InstructionFrequencies(Vec<(u32, Vec<CodeHint<InstructionFrequency>, A>), A>),
    /// For each function its index, and its compilation orders.
    CompilationOrders(Vec<(u32, Vec<CodeHint<CompilationOrder>, A>), A>),
    /// For each function its index, and the targets of its calls.
    CallTargets(Vec<(u32, Vec<CodeHint<Vec<CallTarget, A>>, A>), A>),
}

impl<'a, A: Allocator> Items<'a, A> {
    /// Returns the kind of section that has these items.
    pub fn kind(&self) -> SectionKind
        ensures { result ≡ kind_in (contents_of self.now) }
    {
        match self {
            // begin: written by tools/kinds
            Items::Bodies(_) => SectionKind::Bodies,
            Items::Segments(_) => SectionKind::Segments,
            Items::DataCount(_) => SectionKind::DataCount,
            Items::Elements(_) => SectionKind::Elements,
            Items::Exports(_) => SectionKind::Exports,
            Items::Functions(_) => SectionKind::Functions,
            Items::Globals(_) => SectionKind::Globals,
            Items::Imports(_) => SectionKind::Imports,
            Items::Memories(_) => SectionKind::Memories,
            Items::Start(_) => SectionKind::Start,
            Items::Tables(_) => SectionKind::Tables,
            Items::Tags(_) => SectionKind::Tags,
            Items::Names(_) => SectionKind::Names,
            Items::Linking(_) => SectionKind::Linking,
            Items::Producers(_) => SectionKind::Producers,
            Items::Hints(_) => SectionKind::Hints,
            Items::Core(_) => SectionKind::Core,
            Items::CoreModules(_) => SectionKind::CoreModules,
            Items::CoreInstances(_) => SectionKind::CoreInstances,
            Items::CoreStack { .. } => SectionKind::CoreStack,
            Items::Custom { .. } => SectionKind::Custom,
            Items::Raw(_) => SectionKind::Raw,
            Items::Types(_) => SectionKind::Types,
            Items::TargetFeatures(_) => SectionKind::TargetFeatures,
            Items::SourceMappingUrl(_) => SectionKind::SourceMappingUrl,
            Items::ExternalDebugInfo(_) => SectionKind::ExternalDebugInfo,
            Items::BuildId(_) => SectionKind::BuildId,
            Items::Dylink(_) => SectionKind::Dylink,
            Items::Relocations { .. } => SectionKind::Relocations,
            Items::InstructionFrequencies(_) => SectionKind::InstructionFrequencies,
            Items::CompilationOrders(_) => SectionKind::CompilationOrders,
            Items::CallTargets(_) => SectionKind::CallTargets,
            // end: written by tools/kinds
        }
    }
}

/// Returns the kind of a section of this id.
#[tactic(auto, using(crate::proofs::KindLaws::kind_steps))]
pub(crate) fn kind_of_id(id: u8) -> SectionKind
    ensures { result ≡ kind_among_ids id }
{
    match id {
        // begin: written by tools/kinds
        0 => SectionKind::Custom,
        2 => SectionKind::Imports,
        3 => SectionKind::Functions,
        4 => SectionKind::Tables,
        5 => SectionKind::Memories,
        6 => SectionKind::Globals,
        7 => SectionKind::Exports,
        8 => SectionKind::Start,
        9 => SectionKind::Elements,
        10 => SectionKind::Bodies,
        11 => SectionKind::Segments,
        12 => SectionKind::DataCount,
        13 => SectionKind::Tags,
        // end: written by tools/kinds
        _ => SectionKind::Raw,
    }
}

/// Returns the kind of a custom section of one of these names, and `Custom` for all others.
fn kind_of_whole_name(name: &str) -> SectionKind
    ensures { result ≡ kind_among_names known_names name.now }
{
    match name {
        // begin: written by tools/kinds
        "name" => SectionKind::Names,
        "linking" => SectionKind::Linking,
        "producers" => SectionKind::Producers,
        "target_features" => SectionKind::TargetFeatures,
        "metadata.code.branch_hint" => SectionKind::Hints,
        "core" => SectionKind::Core,
        "coremodules" => SectionKind::CoreModules,
        "coreinstances" => SectionKind::CoreInstances,
        "corestack" => SectionKind::CoreStack,
        "sourceMappingURL" => SectionKind::SourceMappingUrl,
        "external_debug_info" => SectionKind::ExternalDebugInfo,
        "build_id" => SectionKind::BuildId,
        "dylink.0" => SectionKind::Dylink,
        "metadata.code.instr_freq" => SectionKind::InstructionFrequencies,
        "metadata.code.compilation_order" => SectionKind::CompilationOrders,
        "metadata.code.call_targets" => SectionKind::CallTargets,
        // end: written by tools/kinds
        _ => SectionKind::Custom,
    }
}

/// Returns the kind of a custom section of this name.
pub(crate) fn kind_of_name(name: &str) -> SectionKind
    ensures { result ≡ kind_named name.now }
{
    if name.as_bytes().starts_with(b"reloc.") {
        SectionKind::Relocations
    } else {
        kind_of_whole_name(name)
    }
}

/// Decodes the payload of a section of this kind.
#[tactic(auto, using(crate::proofs::KindLaws::content_steps))]
pub(crate) fn read_content<'a, A: Allocator + Copy + 'a, G: Grammar>(
    kind: SectionKind,
    bytes: &'a [u8],
    alloc: A,
) -> Result<Items<'a, A>, DecodeError>
    ensures found { IfOk result (λ x. content kind (padded_of G.grammar) bytes.now (contents_of x)) }
    ensures none { IfErr result (λ e. e.cause ≢ Memory → RejectsWhole (content kind) (padded_of G.grammar) bytes.now) }
{
    match kind {
        // begin: written by tools/kinds
        SectionKind::Bodies => Ok(Items::Bodies(read_whole::<'a, Vec<Body<A>, A>, A, G>(
            bytes, alloc,
        )?)),
        SectionKind::Segments => Ok(Items::Segments(read_segments::<A, G>(bytes, alloc)?)),
        SectionKind::DataCount => Ok(Items::DataCount(read_whole::<'a, u32, A, G>(bytes, alloc)?)),
        SectionKind::Elements => Ok(Items::Elements(read_whole::<'a, Vec<ElementItem<A>, A>, A, G>(
            bytes, alloc,
        )?)),
        SectionKind::Exports => Ok(Items::Exports(read_whole::<'a, Vec<Export<'a>, A>, A, G>(
            bytes, alloc,
        )?)),
        SectionKind::Functions => Ok(Items::Functions(read_whole::<'a, Vec<u32, A>, A, G>(
            bytes, alloc,
        )?)),
        SectionKind::Globals => Ok(Items::Globals(read_whole::<'a, Vec<GlobalItem<A>, A>, A, G>(
            bytes, alloc,
        )?)),
        SectionKind::Imports => Ok(Items::Imports(read_imports::<A, G>(bytes, alloc)?)),
        SectionKind::Memories => Ok(Items::Memories(read_whole::<'a, Vec<MemoryType, A>, A, G>(
            bytes, alloc,
        )?)),
        SectionKind::Start => Ok(Items::Start(read_whole::<'a, u32, A, G>(bytes, alloc)?)),
        SectionKind::Tables => Ok(Items::Tables(read_whole::<'a, Vec<TableItem<A>, A>, A, G>(
            bytes, alloc,
        )?)),
        SectionKind::Tags => Ok(Items::Tags(read_whole::<'a, Vec<TagType, A>, A, G>(
            bytes, alloc,
        )?)),
        SectionKind::Names => Ok(Items::Names(read_names::<A, G>(bytes, alloc)?)),
        SectionKind::Linking => Ok(Items::Linking(read_links::<A, G>(bytes, alloc)?)),
        SectionKind::Producers => Ok(Items::Producers(read_producers::<A, G>(bytes, alloc)?)),
        SectionKind::Hints => Ok(Items::Hints(read_hints::<A, G>(bytes, alloc)?)),
        SectionKind::Core => Ok(Items::Core(read_process::<A, G>(bytes, alloc)?)),
        SectionKind::CoreModules => Ok(Items::CoreModules(read_modules::<A, G>(bytes, alloc)?)),
        SectionKind::CoreInstances => Ok(Items::CoreInstances(read_instances::<A, G>(
            bytes, alloc,
        )?)),
        SectionKind::CoreStack => {
            let (thread, frames) = read_stack::<A, G>(bytes, alloc)?;
            Ok(Items::CoreStack { thread, frames })
        }
        SectionKind::Custom => {
            let (name, bytes) = <&'a str as Readable<'a, A, G>>::read(bytes, alloc)?;
            Ok(Items::Custom { name, bytes })
        }
        SectionKind::Raw => Ok(Items::Raw(bytes)),
        SectionKind::Types => Ok(Items::Types(read_types::<A, G>(bytes, alloc)?)),
        SectionKind::TargetFeatures => Ok(Items::TargetFeatures(read_features::<A, G>(
            bytes, alloc,
        )?)),
        SectionKind::SourceMappingUrl => Ok(Items::SourceMappingUrl(read_source_map::<A, G>(
            bytes, alloc,
        )?)),
        SectionKind::ExternalDebugInfo => Ok(Items::ExternalDebugInfo(read_debug_file::<A, G>(
            bytes, alloc,
        )?)),
        SectionKind::BuildId => Ok(Items::BuildId(read_build_id::<A, G>(bytes, alloc)?)),
        SectionKind::Dylink => Ok(Items::Dylink(read_dylink::<A, G>(bytes, alloc)?)),
        SectionKind::Relocations => {
            let (name, section, relocations) = read_relocations::<A, G>(bytes, alloc)?;
            Ok(Items::Relocations {
                name,
                section,
                relocations,
            })
        }
        SectionKind::InstructionFrequencies => Ok(Items::InstructionFrequencies(read_frequencies::<
            A,
            G,
        >(bytes, alloc)?)),
        SectionKind::CompilationOrders => Ok(Items::CompilationOrders(read_orders::<A, G>(
            bytes, alloc,
        )?)),
        SectionKind::CallTargets => Ok(Items::CallTargets(read_call_targets::<A, G>(
            bytes, alloc,
        )?)),
        // end: written by tools/kinds
    }
}

/// Appends the minimal encoding of a custom section's payload: its name, and its data. On an error,
/// the sink is unchanged.
#[tactic(auto, using(crate::proofs::KindLaws::custom_fits))]
fn append_custom<B: Allocator>(name: &str, bytes: &[u8], sink: &mut Vec<u8, B>) -> Result<()>
    ensures ok { OnOk result (AppendsMinimal both_grammars (content kinds.Custom) (Custom (name.now, bytes.now)) sink.old.items sink.new.items) }
    ensures err { OnErr result (sink.new.items ≡ sink.old.items) }
    ensures too_long { HasEncoding both_grammars (content kinds.Custom) (Custom (name.now, bytes.now)) → result ≢ Err TooLong }
{
    let start = sink.len();
    name.append_minimal(sink)?;
    match sink.extend_from_slice(bytes) {
        Ok(()) => Ok(()),
        Err(error) => {
            sink.truncate(start);
            Err(error.into())
        }
    }
}

/// Appends the minimal encoding of a section's payload with these items. On an error, the sink is
/// unchanged.
///
/// Types, code, imports, tables, globals, elements and data are written as builders write them. The
/// standard's grammar has a shorter encoding of some of them, such as a nullable reference type.
///
/// [`read_section`](crate::read_section) and [`Section::items`](crate::Section::items) return such
/// items. [`RawSection`](wasm_base::RawSection) adds the id and the size prefix that make a section
/// of the payload.
///
/// The call promises nothing for items that no bytes encode: an instruction whose immediates are
/// not those of its opcode, say.
///
/// ```text
/// let mut payload = Vec::new(alloc);
/// encode_items(&Items::Functions(indices), &mut payload)?;
/// module.section(&RawSection { id: 3, bytes: &payload })?;
/// ```
///
/// # Errors
///
/// Returns `TooLong` only if no bytes decode to the items: in the builders' grammar for those
/// kinds, in either for the others. Returns `Memory` if an allocation fails.
#[tactic(auto, using(crate::proofs::KindValues::value_steps, crate::proofs::KindLaws::exports_appended, crate::proofs::KindLaws::functions_appended, crate::proofs::KindLaws::memories_appended, crate::proofs::KindLaws::tags_appended, crate::proofs::KindLaws::raw_appended, crate::proofs::KindLaws::exports_fit, crate::proofs::KindLaws::functions_fit, crate::proofs::KindLaws::memories_fit, crate::proofs::KindLaws::tags_fit))]
pub fn encode_items<A: Allocator, B: Allocator>(
    items: &Items<'_, A>,
    sink: &mut Vec<u8, B>,
) -> Result<()>
    ensures ok { OnOk result (AppendsMinimal (grammars_of (kind_in (contents_of items.now))) (content (kind_in (contents_of items.now))) (contents_of items.now) sink.old.items sink.new.items) }
    ensures err { OnErr result (sink.new.items ≡ sink.old.items) }
    ensures too_long { HasEncoding (grammars_of (kind_in (contents_of items.now))) (content (kind_in (contents_of items.now))) (contents_of items.now) → result ≢ Err TooLong }
{
    match items {
        // begin: written by tools/kinds
        Items::Bodies(items) => items.append_minimal(sink),
        Items::Segments(items) => items.append_minimal(sink),
        Items::DataCount(count) => count.append_minimal(sink),
        Items::Elements(items) => items.append_minimal(sink),
        Items::Exports(items) => items.as_slice().encode(sink),
        Items::Functions(items) => items.append_minimal(sink),
        Items::Globals(items) => items.append_minimal(sink),
        Items::Imports(items) => append_imports(items, sink),
        Items::Memories(items) => items.as_slice().encode(sink),
        Items::Start(index) => index.append_minimal(sink),
        Items::Tables(items) => items.append_minimal(sink),
        Items::Tags(items) => items.as_slice().encode(sink),
        Items::Names(items) => append_names(items, sink),
        Items::Linking(items) => append_links(items, sink),
        Items::Producers(items) => append_producers(items, sink),
        Items::Hints(items) => append_hints(items, sink),
        Items::Core(name) => append_process(name, sink),
        Items::CoreModules(items) => append_modules(items, sink),
        Items::CoreInstances(items) => append_instances(items, sink),
        Items::CoreStack { thread, frames } => append_stack(thread, frames, sink),
        Items::Custom { name, bytes } => append_custom(name, bytes, sink),
        Items::Raw(bytes) => {
            sink.extend_from_slice(bytes)?;
            Ok(())
        }
        Items::Types(items) => append_types(items, sink),
        Items::TargetFeatures(items) => append_features(items, sink),
        Items::SourceMappingUrl(url) => append_source_map(url, sink),
        Items::ExternalDebugInfo(path) => append_debug_file(path, sink),
        Items::BuildId(bytes) => append_build_id(bytes, sink),
        Items::Dylink(items) => append_dylink(items, sink),
        Items::Relocations {
            name,
            section,
            relocations,
        } => append_relocations(name, *section, relocations, sink),
        Items::InstructionFrequencies(items) => append_frequencies(items, sink),
        Items::CompilationOrders(items) => append_orders(items, sink),
        Items::CallTargets(items) => append_call_targets(items, sink),
        // end: written by tools/kinds
    }
}
