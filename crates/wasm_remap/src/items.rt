// The items of sections whose indices are mapped.
ghost use Rattle.std.specs.Prelude.{◌≡◌, ◌≢◌, true, Err, IfErr, OnOk, OnErr};
ghost use Rattle.wasm_base.specs.declared.refused.Refused.TheVariants.{TooLong};
ghost use Rattle.wasm_base.specs.Minimal.{both_grammars};
ghost use Rattle.wasm_base.specs.Numbers.{admitted};
ghost use Rattle.wasm_reader.specs.Kinds.{contents_of, grammars_of};
ghost use Rattle.wasm_reader.specs.Sections.{AppendsContentIn, HasContentIn};
ghost use Rattle.wasm_remap.specs.Errors.{ExplainsItems, ExplainsSection};
ghost use Rattle.wasm_remap.specs.Mapping.{ComesFrom, Follows, Mapping};
ghost use Rattle.wasm_remap.specs.Sections.{RemapsSection, remapped};

use crate::bodies::remap_bodies;
use crate::indexed::{Remap, RemapError, mapped, remap_each, remap_numbers};
use crate::spaces::IndexSpace;
use crate::streamed::Stopped;
use std::alloc::Allocator;
use wasm_base::{Refused, Standard};
use wasm_reader::{Items, Section, SectionKind, encode_items, encode_items_in};

/// Maps each index of the items of a section. After an error, some of them are mapped.
fn remap_content<A: Allocator + Copy, M: Remap>(
    items: &mut Items<'_, A>,
    alloc: A,
    indices: &M,
) -> Result<(), RemapError<M::Error>>
    ensures ok { OnOk result ((m : Mapping) → Follows (M.mapped indices.now) (M.rejects indices.now) m → contents_of items.new ≡ remapped m (contents_of items.old)) }
    ensures err { IfErr result (λ e. ComesFrom (M.rejects indices.now) e) }
{
    match items {
        Items::Bodies(items) => remap_each(items, alloc, indices),
        Items::Segments(items) => remap_each(items, alloc, indices),
        Items::Elements(items) => remap_each(items, alloc, indices),
        Items::Exports(items) => remap_each(items, alloc, indices),
        Items::Functions(items) => remap_numbers(items, IndexSpace::Types, indices),
        Items::Globals(items) => remap_each(items, alloc, indices),
        Items::Imports(items) => remap_each(items, alloc, indices),
        Items::Start(index) => {
            *index = mapped(indices, IndexSpace::Functions, *index)?;
            Ok(())
        }
        Items::Tables(items) => remap_each(items, alloc, indices),
        Items::Tags(items) => remap_each(items, alloc, indices),
        Items::Names(items) => remap_each(items, alloc, indices),
        Items::Linking(items) => remap_each(items, alloc, indices),
        Items::Hints(items) => remap_each(items, alloc, indices),
        Items::InstructionFrequencies(items) => remap_each(items, alloc, indices),
        Items::CompilationOrders(items) => remap_each(items, alloc, indices),
        Items::CallTargets(items) => remap_each(items, alloc, indices),
        Items::CoreInstances(items) => remap_each(items, alloc, indices),
        Items::Types(items) => remap_each(items, alloc, indices),
        Items::Relocations { relocations, .. } => remap_each(relocations, alloc, indices),
        // begin: written by tools/kinds
        Items::DataCount(_)
        | Items::Memories(_)
        | Items::Producers(_)
        | Items::Core(_)
        | Items::CoreModules(_)
        | Items::CoreStack { .. }
        | Items::Custom { .. }
        | Items::Raw(_)
        | Items::TargetFeatures(_)
        | Items::SourceMappingUrl(_)
        | Items::ExternalDebugInfo(_)
        | Items::BuildId(_)
        | Items::Dylink(_) => Ok(()),
        // end: written by tools/kinds
    }
}

/// Maps each index of the items of a section. After an error, some of them are mapped.
///
/// The items depend on the new indices of accepted ones alone: no index that the map rejects is among
/// those of the old items.
///
/// # Errors
///
/// Returns the error of the map if it rejects an index, and `Memory` if an allocation fails.
pub fn remap_items<A: Allocator + Copy, M: Remap>(
    items: &mut Items<'_, A>,
    alloc: A,
    indices: &M,
) -> Result<(), RemapError<M::Error>>
    ensures ok { OnOk result (contents_of items.new ≡ remapped (M.mapped indices.now) (contents_of items.old)) }
    ensures every { OnOk result ((m : Mapping) → Follows (M.mapped indices.now) (M.rejects indices.now) m → contents_of items.new ≡ remapped m (contents_of items.old)) }
    ensures err { IfErr result (λ e. ComesFrom (M.rejects indices.now) e) }
{
    remap_content(items, alloc, indices)
}

/// Returns `true` if the encoding that builders write of items of this kind is minimal in the
/// standard's grammar too.
fn is_minimal_when_built(kind: SectionKind) -> bool
    ensures { result ≡ true → grammars_of kind ≡ both_grammars }
{
    // begin: written by tools/kinds
    !matches!(
        kind,
        SectionKind::Bodies
            | SectionKind::Segments
            | SectionKind::Elements
            | SectionKind::Globals
            | SectionKind::Imports
            | SectionKind::Tables
            | SectionKind::Types
    )
    // end: written by tools/kinds
}

/// Appends the minimal encoding of the items in the standard's grammar. On an error, the sink is
/// unchanged.
fn append_items<A: Allocator + Copy, B: Allocator>(
    items: &Items<'_, A>,
    alloc: A,
    sink: &mut Vec<u8, B>,
) -> Result<(), Refused>
    ensures ok { OnOk result (AppendsContentIn admitted (contents_of items.now) sink.old.items sink.new.items) }
    ensures err { OnErr result (sink.new.items ≡ sink.old.items) }
    ensures too_long { HasContentIn admitted (contents_of items.now) → result ≢ Err TooLong }
{
    if is_minimal_when_built(items.kind()) {
        encode_items(items, sink)?;
    } else {
        encode_items_in::<Standard, _, _, _>(alloc, items, sink)?;
    }
    Ok(())
}

/// Maps each index of the items, and appends their minimal encoding in the standard's grammar. On an
/// error, the sink is unchanged.
pub(crate) fn append_mapped<A: Allocator + Copy, M: Remap, B: Allocator>(
    items: &mut Items<'_, A>,
    alloc: A,
    indices: &M,
    sink: &mut Vec<u8, B>,
) -> Result<(), RemapError<M::Error>>
    ensures ok { OnOk result ((m : Mapping) → Follows (M.mapped indices.now) (M.rejects indices.now) m → AppendsContentIn admitted (remapped m (contents_of items.old)) sink.old.items sink.new.items) }
    ensures err { OnErr result (sink.new.items ≡ sink.old.items) }
    ensures why { IfErr result (λ e. ExplainsItems (remapped (M.mapped indices.now)) (M.rejects indices.now) (contents_of items.old) e) }
{
    remap_content(items, alloc, indices)?;
    append_items(items, alloc, sink)?;
    Ok(())
}

/// Decodes the items of a section, maps each index, and appends the minimal encoding of the items.
/// On an error, the sink is unchanged.
#[tactic(auto, using(crate::proofs::MappedSections::section_remapped))]
fn remap_decoded<A: Allocator + Copy, M: Remap, B: Allocator>(
    section: &Section<'_, A>,
    alloc: A,
    indices: &M,
    sink: &mut Vec<u8, B>,
) -> Result<(), RemapError<M::Error>>
    ensures ok { OnOk result ((m : Mapping) → Follows (M.mapped indices.now) (M.rejects indices.now) m → RemapsSection m section.now.section sink.old.items sink.new.items) }
    ensures err { OnErr result (sink.new.items ≡ sink.old.items) }
    ensures why { IfErr result (λ e. ExplainsSection (M.mapped indices.now) (M.rejects indices.now) section.now.section e) }
{
    let mut items = section.items()?;
    append_mapped(&mut items, alloc, indices, sink)
}

/// Decodes the items of a section, maps each index, and appends the minimal encoding of the items
/// as a payload. On an error, the sink is unchanged.
///
/// Bodies are decoded, mapped and appended instruction by instruction, and not kept. If that fails,
/// they are decoded to a list, which gives the error.
///
/// ```text
/// let mut payload = Vec::new(alloc);
/// remap_section(&section, alloc, &indices, &mut payload)?;
/// module.section(&RawSection { id: section.id(), bytes: &payload })?;
/// ```
///
/// # Errors
///
/// Returns `Read` if the section does not decode, `Index` with the error of the map if it rejects an
/// index, and `Refused` if the encoding is too long or an allocation fails.
pub fn remap_section<A: Allocator + Copy, M: Remap, B: Allocator>(
    section: &Section<'_, A>,
    alloc: A,
    indices: &M,
    sink: &mut Vec<u8, B>,
) -> Result<(), RemapError<M::Error>>
    ensures ok { OnOk result (RemapsSection (M.mapped indices.now) section.now.section sink.old.items sink.new.items) }
    ensures every { OnOk result ((m : Mapping) → Follows (M.mapped indices.now) (M.rejects indices.now) m → RemapsSection m section.now.section sink.old.items sink.new.items) }
    ensures err { OnErr result (sink.new.items ≡ sink.old.items) }
    ensures why { IfErr result (λ e. ExplainsSection (M.mapped indices.now) (M.rejects indices.now) section.now.section e) }
{
    if let Some(SectionKind::Bodies) = section.kind() {
        match remap_bodies(section, alloc, indices, sink) {
            Ok(()) => return Ok(()),
            Err(Stopped::Memory) => return Err(Refused::Memory.into()),
            Err(Stopped::Other) => {}
        }
    }
    remap_decoded(section, alloc, indices, sink)
}
