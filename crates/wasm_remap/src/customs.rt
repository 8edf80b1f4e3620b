// Items of custom sections whose indices are mapped.
ghost use Rattle.std.specs.Prelude.{◌≡◌, ℕ, List, IfOk, IfErr, OnOk, Option, map};
ghost use Rattle.wasm_custom.specs.Words.{Comdat as ComdatModel, Hints, Instance, LinkItem as LinkModel, NameItem as NameModel, Symbol as SymbolModel, comdat_view, hints_view, instance_view, link_view, name_item_view};
ghost use Rattle.wasm_custom.specs.CodeMetadata.{Frequencies, HintedTargets, Orders, TargetItem, call_targets_view, frequencies_view, hint_as, orders_view, target_view, targets_view};
ghost use Rattle.wasm_custom.specs.Names.{id_of, inside_view, names_view};
ghost use Rattle.wasm_custom.specs.Symbols.{symbol_view};
ghost use Rattle.wasm_custom.specs.declared.comdats.ComdatSymbol.{ComdatSymbol};
ghost use Rattle.wasm_custom.specs.declared.relocations.Relocation.{Relocation};
ghost use Rattle.wasm_remap.specs.Mapping.{ComesFrom, Follows, Mapping, mapped_first};
ghost use Rattle.wasm_remap.specs.Customs.{comdat_spaces, name_spaces, remapped_comdat, remapped_hints, remapped_hints_in, remapped_instance, remapped_link, remapped_member, remapped_name, remapped_relocation, remapped_symbol, remapped_target, remapped_target_hint, remapped_targets, space_among, space_of_relocation as relocation_space};

use crate::indexed::{
    Indexed, Remap, RemapError, mapped, mapped_number, remap_each, remap_firsts, remap_numbers,
};
use crate::spaces::IndexSpace;
use std::alloc::Allocator;
use wasm_custom::{
    BranchHint, CallTarget, CodeHint, Comdat, ComdatSymbol, CompilationOrder, InstructionFrequency,
    LinkItem, NameItem, PlainRelocation, Relocation, Symbol,
};

/// Returns the index space of a name map, or of the outer indices of an indirect one, by its id.
fn space_of_names(id: u8) -> Option<IndexSpace>
    ensures { result ≡ space_among name_spaces id }
{
    match id {
        1..=3 => Some(IndexSpace::Functions),
        4 | 10 | 12 => Some(IndexSpace::Types),
        5 => Some(IndexSpace::Tables),
        6 => Some(IndexSpace::Memories),
        7 => Some(IndexSpace::Globals),
        8 => Some(IndexSpace::Elements),
        9 => Some(IndexSpace::Data),
        11 | 13 => Some(IndexSpace::Tags),
        _ => None,
    }
}

/// Returns the index space of the indices of a subsection, or of the outer ones.
pub(crate) fn space_of_subsection<A: Allocator>(item: &NameItem<'_, A>) -> Option<IndexSpace>
    ensures { result ≡ space_among name_spaces (id_of (name_item_view item.now)) }
{
    match item {
        NameItem::Module(_) => None,
        NameItem::Map { id, .. } | NameItem::Indirect { id, .. } | NameItem::Other { id, .. } => {
            space_of_names(*id)
        }
    }
}

/// Maps the indices of a name map.
#[tactic(auto, using(crate::proofs::FirstLaws::names_mapped))]
fn remap_names<M: Remap>(
    names: &mut [(u32, &str)],
    space: Option<IndexSpace>,
    indices: &M,
) -> Result<(), RemapError<M::Error>>
    ensures ok { OnOk result ((m : Mapping) → Follows (M.mapped indices.now) (M.rejects indices.now) m → names_view names.new ≡ map (mapped_first m space) (names_view names.old)) }
    ensures err { IfErr result (λ e. ComesFrom (M.rejects indices.now) e) }
{
    remap_firsts(names, space, indices)
}

/// Maps the outer indices of an indirect name map.
#[tactic(auto, using(crate::proofs::FirstLaws::maps_mapped))]
fn remap_maps<A: Allocator, M: Remap>(
    maps: &mut [(u32, Vec<(u32, &str), A>)],
    space: Option<IndexSpace>,
    indices: &M,
) -> Result<(), RemapError<M::Error>>
    ensures ok { OnOk result ((m : Mapping) → Follows (M.mapped indices.now) (M.rejects indices.now) m → map inside_view maps.new ≡ map (mapped_first m space) (map inside_view maps.old)) }
    ensures err { IfErr result (λ e. ComesFrom (M.rejects indices.now) e) }
{
    remap_firsts(maps, space, indices)
}

impl<A: Allocator + Copy> Indexed<A> for NameItem<'_, A> {
    ghost Value = { NameModel };

    ghost view = { name_item_view };

    ghost remapped = { remapped_name };

    fn remap<M: Remap>(&mut self, _alloc: A, indices: &M) -> Result<(), RemapError<M::Error>> {
        let space = space_of_subsection(self);
        match self {
            NameItem::Module(_) | NameItem::Other { .. } => Ok(()),
            NameItem::Map { names, .. } => remap_names(names, space, indices),
            NameItem::Indirect { maps, .. } => remap_maps(maps, space, indices),
        }
    }
}

impl<A: Allocator + Copy> Indexed<A> for (u32, Vec<BranchHint, A>) {
    ghost Value = { Hints };

    ghost view = { hints_view };

    ghost remapped = { remapped_hints };

    fn remap<M: Remap>(&mut self, _alloc: A, indices: &M) -> Result<(), RemapError<M::Error>> {
        self.0 = mapped(indices, IndexSpace::Functions, self.0)?;
        Ok(())
    }
}

impl<A: Allocator + Copy> Indexed<A> for (u32, Vec<CodeHint<InstructionFrequency>, A>) {
    ghost Value = { Frequencies };

    ghost view = { frequencies_view };

    ghost remapped = { remapped_hints_in };

    fn remap<M: Remap>(&mut self, _alloc: A, indices: &M) -> Result<(), RemapError<M::Error>> {
        self.0 = mapped(indices, IndexSpace::Functions, self.0)?;
        Ok(())
    }
}

impl<A: Allocator + Copy> Indexed<A> for (u32, Vec<CodeHint<CompilationOrder>, A>) {
    ghost Value = { Orders };

    ghost view = { orders_view };

    ghost remapped = { remapped_hints_in };

    fn remap<M: Remap>(&mut self, _alloc: A, indices: &M) -> Result<(), RemapError<M::Error>> {
        self.0 = mapped(indices, IndexSpace::Functions, self.0)?;
        Ok(())
    }
}

impl<A: Allocator + Copy> Indexed<A> for CallTarget {
    ghost Value = { TargetItem };

    ghost view = { target_view };

    ghost remapped = { remapped_target };

    fn remap<M: Remap>(&mut self, _alloc: A, indices: &M) -> Result<(), RemapError<M::Error>> {
        self.function_index = mapped(indices, IndexSpace::Functions, self.function_index)?;
        Ok(())
    }
}

impl<A: Allocator + Copy> Indexed<A> for CodeHint<Vec<CallTarget, A>> {
    ghost Value = { ℕ × List TargetItem };

    ghost view = { hint_as targets_view };

    ghost remapped = { remapped_target_hint };

    fn remap<M: Remap>(&mut self, alloc: A, indices: &M) -> Result<(), RemapError<M::Error>> {
        remap_each(&mut self.value, alloc, indices)
    }
}

impl<A: Allocator + Copy> Indexed<A> for (u32, Vec<CodeHint<Vec<CallTarget, A>>, A>) {
    ghost Value = { HintedTargets };

    ghost view = { call_targets_view };

    ghost remapped = { remapped_targets };

    fn remap<M: Remap>(&mut self, alloc: A, indices: &M) -> Result<(), RemapError<M::Error>> {
        self.0 = mapped(indices, IndexSpace::Functions, self.0)?;
        remap_each(&mut self.1, alloc, indices)
    }
}

/// An instance of a core dump: the index of its module, its memories and its globals.
impl<A: Allocator + Copy> Indexed<A> for (u32, Vec<u32, A>, Vec<u32, A>) {
    ghost Value = { Instance };

    ghost view = { instance_view };

    ghost remapped = { remapped_instance };

    fn remap<M: Remap>(&mut self, _alloc: A, indices: &M) -> Result<(), RemapError<M::Error>> {
        remap_numbers(&mut self.1, IndexSpace::Memories, indices)?;
        remap_numbers(&mut self.2, IndexSpace::Globals, indices)
    }
}

impl<A: Allocator + Copy> Indexed<A> for Symbol<'_> {
    ghost Value = { SymbolModel };

    ghost view = { symbol_view };

    ghost remapped = { remapped_symbol };

    fn remap<M: Remap>(&mut self, _alloc: A, indices: &M) -> Result<(), RemapError<M::Error>> {
        match self {
            Symbol::Function { index, .. } => {
                *index = mapped(indices, IndexSpace::Functions, *index)?;
            }
            Symbol::Global { index, .. } => {
                *index = mapped(indices, IndexSpace::Globals, *index)?;
            }
            Symbol::Table { index, .. } => {
                *index = mapped(indices, IndexSpace::Tables, *index)?;
            }
            Symbol::Tag { index, .. } => {
                *index = mapped(indices, IndexSpace::Tags, *index)?;
            }
            Symbol::DataSymbol { definition, .. } => {
                if let Some(definition) = definition {
                    definition.index = mapped(indices, IndexSpace::Data, definition.index)?;
                }
            }
            Symbol::Section { .. } => {}
        }
        Ok(())
    }
}

/// Returns the index space of the members of a COMDAT group of this kind.
fn space_of_members(kind: u8) -> Option<IndexSpace>
    ensures { result ≡ space_among comdat_spaces kind }
{
    match kind {
        0 => Some(IndexSpace::Data),
        1 => Some(IndexSpace::Functions),
        2 => Some(IndexSpace::Globals),
        3 => Some(IndexSpace::Tags),
        4 => Some(IndexSpace::Tables),
        _ => None,
    }
}

impl<A: Allocator + Copy> Indexed<A> for ComdatSymbol {
    ghost Value = { ComdatSymbol };

    ghost view = { λ s. s };

    ghost remapped = { remapped_member };

    fn remap<M: Remap>(&mut self, _alloc: A, indices: &M) -> Result<(), RemapError<M::Error>> {
        self.index = mapped_number(indices, space_of_members(self.kind), self.index)?;
        Ok(())
    }
}

impl<A: Allocator + Copy> Indexed<A> for Comdat<'_, A> {
    ghost Value = { ComdatModel };

    ghost view = { comdat_view };

    ghost remapped = { remapped_comdat };

    fn remap<M: Remap>(&mut self, alloc: A, indices: &M) -> Result<(), RemapError<M::Error>> {
        remap_each(&mut self.symbols, alloc, indices)
    }
}

impl<A: Allocator + Copy> Indexed<A> for LinkItem<'_, A> {
    ghost Value = { LinkModel };

    ghost view = { link_view };

    ghost remapped = { remapped_link };

    fn remap<M: Remap>(&mut self, alloc: A, indices: &M) -> Result<(), RemapError<M::Error>> {
        match self {
            LinkItem::Comdats(groups) => remap_each(groups, alloc, indices),
            LinkItem::Symbols(symbols) => remap_each(symbols, alloc, indices),
            LinkItem::Segments(_)
            | LinkItem::InitFunctions(_)
            | LinkItem::Arch(_)
            | LinkItem::Other { .. } => Ok(()),
        }
    }
}

/// Returns the index space of the index of a relocation. All but one have the index of a symbol.
fn space_of_relocation(kind: PlainRelocation) -> Option<IndexSpace>
    ensures { result ≡ relocation_space kind }
{
    match kind {
        PlainRelocation::TypeIndexLeb => Some(IndexSpace::Types),
        _ => None,
    }
}

impl<A: Allocator + Copy> Indexed<A> for Relocation {
    ghost Value = { Relocation };

    ghost view = { λ r. r };

    ghost remapped = { remapped_relocation };

    fn remap<M: Remap>(&mut self, _alloc: A, indices: &M) -> Result<(), RemapError<M::Error>> {
        match self {
            Relocation::Plain { kind, index, .. } => {
                *index = mapped_number(indices, space_of_relocation(*kind), *index)?;
                Ok(())
            }
            Relocation::Addend32 { .. } | Relocation::Addend64 { .. } => Ok(()),
        }
    }
}
