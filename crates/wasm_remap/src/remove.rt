// Functions that are removed from a module.
ghost use Rattle.std.specs.Prelude.{◌≡◌, ◌≢◌, ℕ, List, ◌<◌, ◌^◌, [], drop, length, true, false, map, Err, IfOk, IfErr, OnOk, Option};
ghost use Rattle.wasm_base.specs.declared.refused.Refused.TheVariants.{TooLong};
ghost use Rattle.wasm_custom.specs.Words.{name_item_view};
ghost use Rattle.wasm_custom.specs.Names.{inside_view, names_view};
ghost use Rattle.wasm_reader.specs.Kinds.{contents_of};
ghost use Rattle.wasm_reader.specs.Outlines.{HasSections};
ghost use Rattle.wasm_reader.specs.Words.{Section as SectionModel};
ghost use Rattle.wasm_remap.specs.Mapping.{Follows, Mapping};
ghost use Rattle.wasm_remap.specs.Places.{sections_in};
ghost use Rattle.wasm_remap.specs.Removed.{ExplainsCount, ExplainsRemoval, ImportsFunctions, IsUse, IsTrimmed, RemovesFunctions, by_table, is_removed, numbered, staying, trimmed, trimmed_name, unflagged};
ghost use Rattle.wasm_remap.specs.Errors.{ExplainsContent};
ghost use Rattle.wasm_remap.specs.declared.remove.RemoveError.TheVariants.{Imported};
ghost use Rattle.wasm_remap.specs.Sections.{remapped};

use crate::customs::space_of_subsection;
use crate::imports::imported;
use crate::indexed::{Remap, RemapError};
use crate::items::append_mapped;
use crate::modules::{Change, change_module};
use crate::places::{found, sections_of};
use crate::spaces::IndexSpace;
use std::alloc::Allocator;
use wasm_base::{Refused, SectionId};
use wasm_custom::NameItem;
use wasm_reader::{Items, Offsets, Section};

/// Why functions are not removed.
#[derive(Clone, Copy, PartialEq, Eq, Debug)]
pub enum RemoveError {
    /// What stays refers to this function, which is to be removed.
    InUse(u32),
    /// The module refers to this function, which is past the end of the list.
    Unlisted(u32),
    /// This function is imported.
    Imported(u32),
}

/// Returns `true` if the function is to be removed. Functions past the end of the list stay.
fn is_removed(removed: &[bool], index: usize) -> bool
    ensures { result ≡ is_removed removed.now index }
{
    match removed.get(index) {
        Some(flag) => *flag,
        None => false,
    }
}

/// Returns the new index of each function, and `None` for those that are removed.
fn numbered<A: Allocator>(removed: &[bool], alloc: A) -> Result<Vec<Option<u32>, A>, Refused>
    ensures ok { IfOk result (λ table. table.items ≡ numbered 0 removed.now) }
    ensures too_long { length removed.now < 2 ^ 32 → result ≢ Err TooLong }
{
    let mut table = Vec::new(alloc);
    let mut next = 0u32;
    for flag in removed.iter() {
        if *flag {
            table.push(None)?;
        } else {
            table.push(Some(next))?;
            next = match next.checked_add(1) {
                Some(next) => next,
                None => return Err(Refused::TooLong),
            };
        }
    }
    Ok(table)
}

/// Removes the items whose flag is set. Items past the flags stay.
fn remove_flagged<T: Drop, A: Allocator>(items: &mut Vec<T, A>, flags: &[bool])
    ensures { items.new.items ≡ unflagged flags.now items.old.items }
{
    let mut kept = 0;
    for index in 0..items.len() {
        if !is_removed(flags, index) {
            items.swap(kept, index);
            kept += 1;
        }
    }
    items.truncate(kept);
}

/// Removes the pairs of removed functions, if the first numbers are functions.
fn remove_pairs<T: Drop, A: Allocator>(
    pairs: &mut Vec<(u32, T), A>,
    space: Option<IndexSpace>,
    removed: &[bool],
)
    ensures { pairs.new.items ≡ staying removed.now space pairs.old.items }
{
    if let Some(IndexSpace::Functions) = space {
        pairs.retain(|pair| !is_removed(removed, pair.0 as usize));
    }
}

/// Removes the names of removed functions, of their locals and of their labels.
fn remove_names<A: Allocator + Copy>(item: &mut NameItem<'_, A>, removed: &[bool])
    ensures { name_item_view item.new ≡ trimmed_name removed.now (name_item_view item.old) }
{
    let space = space_of_subsection(item);
    match item {
        NameItem::Module(_) | NameItem::Other { .. } => {}
        NameItem::Map { names, .. } => remove_pairs(names, space, removed),
        NameItem::Indirect { maps, .. } => remove_pairs(maps, space, removed),
    }
}

/// Removes the names of removed functions from each subsection.
fn remove_all_names<A: Allocator + Copy>(items: &mut [NameItem<'_, A>], removed: &[bool])
    ensures { map name_item_view items.new ≡ map (trimmed_name removed.now) (map name_item_view items.old) }
{
    for item in items.iter_mut() {
        remove_names(item, removed);
    }
}

/// Functions that are removed, and the new indices of the others.
#[derive(Clone, Copy)]
struct Removal<'r> {
    /// Whether a function is removed, by its index.
    removed: &'r [bool],
    /// The same of the functions that the module defines.
    defined: &'r [bool],
    /// The new index of each function that stays.
    indices: &'r [Option<u32>],
}

impl Remap for Removal<'_> {
    type Error = RemoveError;

    ghost mapped = { λ r. by_table r.indices.now };

    ghost rejects = { λ r space n e. IsUse r.indices.now space n e };

    fn index(&self, space: IndexSpace, index: u32) -> Result<u32, RemoveError> {
        if space != IndexSpace::Functions {
            return Ok(index);
        }
        match self.indices.get(index as usize) {
            Some(Some(new)) => Ok(*new),
            Some(None) => Err(RemoveError::InUse(index)),
            None => Err(RemoveError::Unlisted(index)),
        }
    }
}

/// Removes the functions from the items of a section.
fn trim<A: Allocator + Copy>(items: &mut Items<'_, A>, removed: &[bool], defined: &[bool])
    ensures { contents_of items.new ≡ trimmed removed.now defined.now (contents_of items.old) }
{
    match items {
        Items::Functions(types) => remove_flagged(types, defined),
        Items::Bodies(bodies) => remove_flagged(bodies, defined),
        Items::Names(names) => remove_all_names(names, removed),
        // begin: written by tools/kinds
        Items::Segments(_)
        | Items::DataCount(_)
        | Items::Elements(_)
        | Items::Exports(_)
        | Items::Globals(_)
        | Items::Imports(_)
        | Items::Memories(_)
        | Items::Start(_)
        | Items::Tables(_)
        | Items::Tags(_)
        | Items::Linking(_)
        | Items::Producers(_)
        | Items::Hints(_)
        | Items::Core(_)
        | Items::CoreModules(_)
        | Items::CoreInstances(_)
        | Items::CoreStack { .. }
        | Items::Custom { .. }
        | Items::Raw(_)
        | Items::Types(_)
        | Items::TargetFeatures(_)
        | Items::SourceMappingUrl(_)
        | Items::ExternalDebugInfo(_)
        | Items::BuildId(_)
        | Items::Dylink(_)
        | Items::Relocations { .. }
        | Items::InstructionFrequencies(_)
        | Items::CompilationOrders(_)
        | Items::CallTargets(_) => {}
        // end: written by tools/kinds
    }
}

impl Change for Removal<'_> {
    type Error = RemoveError;

    ghost changes = { λ r s payload. (m : Mapping) → Follows (by_table r.indices.now) (IsUse r.indices.now) m → IsTrimmed r.removed.now r.defined.now m s payload };

    ghost explains = { λ r. ExplainsContent (λ x. remapped (by_table r.indices.now) (trimmed r.removed.now r.defined.now x)) (IsUse r.indices.now) };

    fn payload<A: Allocator + Copy>(
        &self,
        section: &Section<'_, A>,
        alloc: A,
    ) -> Result<Vec<u8, A>, RemapError<RemoveError>> {
        let mut items = section.items()?;
        trim(&mut items, self.removed, self.defined);
        let mut payload = Vec::new(alloc);
        append_mapped(&mut items, alloc, self, &mut payload)?;
        Ok(payload)
    }

    ghost no_offsets = { λ it s offset h. h };
}

/// Returns the number of functions that the sections import.
fn imported_functions<A: Allocator + Copy>(
    sections: &[Section<'_, A>],
) -> Result<u32, RemapError<RemoveError>>
    ensures ok { IfOk result (λ n. ImportsFunctions (sections_in sections.now) n) }
    ensures why { (bytes : List ℕ) → HasSections bytes (sections_in sections.now) → IfErr result (λ e. ExplainsCount bytes e) }
{
    let section = match found(sections, u8::from(SectionId::Import)) {
        None => return Ok(0),
        Some((_, section, _)) => section,
    };
    let Items::Imports(entries) = section.items()? else {
        // Its items are imports.
        return Err(RemapError::Refused(Refused::Memory));
    };
    match imported(&entries, IndexSpace::Functions) {
        Some(count) => Ok(count),
        None => Err(RemapError::Refused(Refused::TooLong)),
    }
}

/// Returns an error if an imported function is to be removed.
fn check_imported(removed: &[bool], imported: u32) -> Result<(), RemoveError>
    ensures ok { OnOk result ((n : ℕ) → n < imported → is_removed removed.now n ≡ false) }
    ensures why { IfErr result (λ e. (n : ℕ) × (e ≡ Imported n) × (n < imported) × (is_removed removed.now n ≡ true)) }
{
    for index in 0..imported {
        if is_removed(removed, index as usize) {
            return Err(RemoveError::Imported(index));
        }
    }
    Ok(())
}

/// Returns a module without some of its functions. `removed` has `true` at the index of each
/// function to remove. Functions past its end stay, if nothing refers to them.
///
/// The entry of the function section, the body and the names of a removed function are left out, those
/// of its locals and labels too. In all other places each index is mapped, as by
/// [`remap_module`](crate::remap_module). If one is that of a removed function, it is an error. The
/// result has the same sections, each in its minimal encoding. Indices in custom sections of other
/// names are not mapped.
///
/// Custom sections that hold offsets would become wrong, as in
/// [`remap_module`](crate::remap_module).
///
/// ```text
/// let removed = [false, false, true];
/// let smaller = remove_functions(&module, alloc, &removed, Offsets::LeaveOut)?;
/// ```
///
/// # Errors
///
/// Returns `Index` with [`RemoveError::InUse`] if an export, an instruction or another place refers to
/// a removed function, with `Unlisted` if it refers to a function past the end of `removed`, and with
/// `Imported` if an imported function is to be removed. Other errors are those of
/// [`remap_module`](crate::remap_module).
pub fn remove_functions<A: Allocator + Copy>(
    bytes: &[u8],
    alloc: A,
    removed: &[bool],
    offsets: Offsets,
) -> Result<Vec<u8, A>, RemapError<RemoveError>>
    ensures ok { IfOk result (λ new. RemovesFunctions removed.now offsets bytes.now new.items) }
    ensures why { IfErr result (λ e. ExplainsRemoval removed.now offsets bytes.now e) }
{
    let sections = sections_of::<A, RemoveError>(bytes, alloc)?;
    let imported = imported_functions(&sections)?;
    match check_imported(removed, imported) {
        Ok(()) => {}
        Err(error) => return Err(RemapError::Index(error)),
    }
    let indices = numbered(removed, alloc)?;
    let (_, defined) = removed.split_at((imported as usize).min(removed.len()));
    let removal = Removal {
        removed,
        defined,
        indices: &indices,
    };
    change_module(bytes, alloc, &removal, offsets)
}
