// Walks over the payloads of sections.
ghost use Rattle.std.specs.Prelude.{◌≡◌, ◌≢◌, List, length, Some, IfOk, IfErr, OnOk};
ghost use Rattle.wasm_base.specs.Continuing.{RejectsWhole};
ghost use Rattle.wasm_base.specs.Formats.{vec};
ghost use Rattle.wasm_base.specs.Numbers.{padded_of};
ghost use Rattle.wasm_base.specs.Walks.{Keeps, WalksWhole};
ghost use Rattle.wasm_base.specs.declared.fault.ReadFault.TheVariants.{Memory};
ghost use Rattle.wasm_reader.specs.Kinds.{Contents, content, number_in};
ghost use Rattle.wasm_reader.specs.declared.kinds.SectionKind.TheVariants as kinds;

use crate::kinds::SectionKind;
use std::alloc::Allocator;
use wasm_base::{
    DecodeError, Discard, Effect, Grammar, RawBytes, ReadFault, Walk, skip_many, walk_whole,
};
use wasm_code::Body;
// begin: written by tools/kinds
use wasm_custom::{
    walk_build_id, walk_call_targets, walk_debug_file, walk_dylink, walk_features,
    walk_frequencies, walk_hints, walk_instances, walk_links, walk_modules, walk_names,
    walk_orders, walk_process, walk_producers, walk_relocations, walk_source_map, walk_stack,
};
// end: written by tools/kinds
use wasm_sections::{
    ElementItem, Export, GlobalItem, Imports, MemoryType, Segment, TableItem, TagType,
};
use wasm_types::TypeEntry;

/// Walks over the name of a custom section, and then over its data, which are any bytes.
#[tactic(auto, using(wasm_base::proofs::WalkLaws::keep_steps, crate::proofs::WalkSections::custom_walks, crate::proofs::WalkSections::custom_none))]
fn walk_custom<A: Allocator + Copy, G: Grammar, E: Effect>(
    bytes: &[u8],
    alloc: A,
    effect: &mut E,
) -> Result<(), DecodeError>
    ensures found { OnOk result (WalksWhole E.seen G.grammar (content kinds.Custom) bytes.now effect.old effect.new) }
    ensures none { IfErr result (λ e. e.cause ≢ Memory → RejectsWhole (content kinds.Custom) (padded_of G.grammar) bytes.now) }
    ensures no_memory { IfErr result (λ e. e.cause ≡ Memory → E.may_fail) }
    ensures front { Keeps E.seen effect.old effect.new }
{
    let data = <&str as Walk<G>>::walk(bytes, alloc, effect)?;
    effect.put(&RawBytes(data))?;
    Ok(())
}

/// Gives the effect a payload that is any bytes.
#[tactic(auto, using(wasm_base::proofs::WalkLaws::keep_steps, crate::proofs::WalkSections::raw_walks))]
fn walk_raw<G: Grammar, E: Effect>(bytes: &[u8], effect: &mut E) -> Result<(), DecodeError>
    ensures found { OnOk result (WalksWhole E.seen G.grammar (content kinds.Raw) bytes.now effect.old effect.new) }
    ensures none { IfErr result (λ e. e.cause ≡ Memory) }
    ensures no_memory { IfErr result (λ e. e.cause ≡ Memory → E.may_fail) }
    ensures front { Keeps E.seen effect.old effect.new }
{
    effect.put(&RawBytes(bytes))?;
    Ok(())
}

/// Walks over the payload of a section of this kind. No list of items is kept.
#[tactic(auto, using(wasm_base::proofs::WalkLaws::keep_steps, crate::proofs::WalkSections::kind_steps))]
pub(crate) fn walk_content<A: Allocator + Copy, G: Grammar, E: Effect>(
    kind: SectionKind,
    bytes: &[u8],
    alloc: A,
    effect: &mut E,
) -> Result<(), DecodeError>
    ensures found { OnOk result (WalksWhole E.seen G.grammar (content kind) bytes.now effect.old effect.new) }
    ensures none { IfErr result (λ e. e.cause ≢ Memory → RejectsWhole (content kind) (padded_of G.grammar) bytes.now) }
    ensures no_memory { IfErr result (λ e. e.cause ≡ Memory → E.may_fail) }
    ensures front { Keeps E.seen effect.old effect.new }
{
    match kind {
        // begin: written by tools/kinds
        SectionKind::Bodies => walk_whole::<Vec<Body<A>, A>, A, G, _>(bytes, alloc, effect),
        SectionKind::Segments => walk_whole::<Vec<Segment<'_, A>, A>, A, G, _>(
            bytes, alloc, effect,
        ),
        SectionKind::DataCount => walk_whole::<u32, A, G, _>(bytes, alloc, effect),
        SectionKind::Elements => walk_whole::<Vec<ElementItem<A>, A>, A, G, _>(
            bytes, alloc, effect,
        ),
        SectionKind::Exports => walk_whole::<Vec<Export<'_>, A>, A, G, _>(bytes, alloc, effect),
        SectionKind::Functions => walk_whole::<Vec<u32, A>, A, G, _>(bytes, alloc, effect),
        SectionKind::Globals => walk_whole::<Vec<GlobalItem<A>, A>, A, G, _>(bytes, alloc, effect),
        SectionKind::Imports => walk_whole::<Vec<Imports<'_, A>, A>, A, G, _>(bytes, alloc, effect),
        SectionKind::Memories => walk_whole::<Vec<MemoryType, A>, A, G, _>(bytes, alloc, effect),
        SectionKind::Start => walk_whole::<u32, A, G, _>(bytes, alloc, effect),
        SectionKind::Tables => walk_whole::<Vec<TableItem<A>, A>, A, G, _>(bytes, alloc, effect),
        SectionKind::Tags => walk_whole::<Vec<TagType, A>, A, G, _>(bytes, alloc, effect),
        SectionKind::Names => walk_names::<A, G, _>(bytes, alloc, effect),
        SectionKind::Linking => walk_links::<A, G, _>(bytes, alloc, effect),
        SectionKind::Producers => walk_producers::<A, G, _>(bytes, alloc, effect),
        SectionKind::Hints => walk_hints::<A, G, _>(bytes, alloc, effect),
        SectionKind::Core => walk_process::<A, G, _>(bytes, alloc, effect),
        SectionKind::CoreModules => walk_modules::<A, G, _>(bytes, alloc, effect),
        SectionKind::CoreInstances => walk_instances::<A, G, _>(bytes, alloc, effect),
        SectionKind::CoreStack => walk_stack::<A, G, _>(bytes, alloc, effect),
        SectionKind::Custom => walk_custom::<A, G, _>(bytes, alloc, effect),
        SectionKind::Raw => walk_raw::<G, _>(bytes, effect),
        SectionKind::Types => walk_whole::<Vec<TypeEntry<A>, A>, A, G, _>(bytes, alloc, effect),
        SectionKind::TargetFeatures => walk_features::<A, G, _>(bytes, alloc, effect),
        SectionKind::SourceMappingUrl => walk_source_map::<A, G, _>(bytes, alloc, effect),
        SectionKind::ExternalDebugInfo => walk_debug_file::<A, G, _>(bytes, alloc, effect),
        SectionKind::BuildId => walk_build_id::<A, G, _>(bytes, alloc, effect),
        SectionKind::Dylink => walk_dylink::<A, G, _>(bytes, alloc, effect),
        SectionKind::Relocations => walk_relocations::<A, G, _>(bytes, alloc, effect),
        SectionKind::InstructionFrequencies => walk_frequencies::<A, G, _>(bytes, alloc, effect),
        SectionKind::CompilationOrders => walk_orders::<A, G, _>(bytes, alloc, effect),
        SectionKind::CallTargets => walk_call_targets::<A, G, _>(bytes, alloc, effect),
        // end: written by tools/kinds
    }
}

/// Skips the members of a vector that occupies all of the bytes, and returns their number.
fn count_members<'a, P: Walk<G>, A: Allocator + Copy, G: Grammar>(
    bytes: &'a [u8],
    alloc: A,
) -> Result<Option<u32>, DecodeError>
    ensures found { IfOk result (λ count. (xs : List P.Value) × vec P.format (padded_of G.grammar) bytes.now xs × (count ≡ Some (length xs))) }
    ensures none { IfErr result (λ e. e.cause ≢ Memory → RejectsWhole (vec P.format) (padded_of G.grammar) bytes.now) }
    ensures no_memory { IfErr result (λ e. e.cause ≢ Memory) }
{
    let (count, rest) = skip_many::<P, A, G>(bytes, alloc)?;
    P::laws();
    if rest.is_empty() {
        Ok(Some(count))
    } else {
        Err(ReadFault::SizeMismatch.at(rest))
    }
}

/// Returns the number of items in the payload of a section of this kind, or `None` if they are not
/// counted. No list of items is kept.
#[tactic(auto, using(crate::proofs::KindLaws::number_steps, crate::proofs::KindLaws::rejects))]
pub(crate) fn count_content<'a, A: Allocator + Copy, G: Grammar>(
    kind: SectionKind,
    bytes: &'a [u8],
    alloc: A,
) -> Result<Option<u32>, DecodeError>
    ensures found { IfOk result (λ number. (x : Contents) × content kind (padded_of G.grammar) bytes.now x × (number ≡ number_in x)) }
    ensures none { IfErr result (λ e. e.cause ≢ Memory → RejectsWhole (content kind) (padded_of G.grammar) bytes.now) }
    ensures no_memory { IfErr result (λ e. e.cause ≢ Memory) }
{
    match kind {
        // begin: written by tools/kinds
        SectionKind::Bodies => count_members::<Body<A>, A, G>(bytes, alloc),
        SectionKind::Segments => count_members::<Segment<'a, A>, A, G>(bytes, alloc),
        SectionKind::Elements => count_members::<ElementItem<A>, A, G>(bytes, alloc),
        SectionKind::Exports => count_members::<Export<'a>, A, G>(bytes, alloc),
        SectionKind::Functions => count_members::<u32, A, G>(bytes, alloc),
        SectionKind::Globals => count_members::<GlobalItem<A>, A, G>(bytes, alloc),
        SectionKind::Imports => count_members::<Imports<'a, A>, A, G>(bytes, alloc),
        SectionKind::Memories => count_members::<MemoryType, A, G>(bytes, alloc),
        SectionKind::Tables => count_members::<TableItem<A>, A, G>(bytes, alloc),
        SectionKind::Tags => count_members::<TagType, A, G>(bytes, alloc),
        SectionKind::Types => count_members::<TypeEntry<A>, A, G>(bytes, alloc),
        // end: written by tools/kinds
        SectionKind::DataCount | SectionKind::Start => {
            walk_content::<A, G, _>(kind, bytes, alloc, &mut Discard)?;
            Ok(Some(1))
        }
        _ => {
            walk_content::<A, G, _>(kind, bytes, alloc, &mut Discard)?;
            Ok(None)
        }
    }
}
