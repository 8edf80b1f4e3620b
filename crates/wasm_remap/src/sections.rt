// Items of the standard's sections whose indices are mapped.
ghost use Rattle.std.specs.Prelude.{◌≡◌, ℕ, List, IfOk, IfErr, Option, map};
ghost use Rattle.wasm_insn.specs.Words.{Plain};
ghost use Rattle.wasm_sections.specs.Elements.{ElementList as ElementsModel, SegmentMode, list_view, segment_mode_view};
ghost use Rattle.wasm_sections.specs.Words.{DataItem, ElementItem as ElementModel, ExportItem, GlobalItem as GlobalModel, ImportItem, TableItem as TableModel, element_view, global_view, imports_item, item_of, segment_view, table_view};
ghost use Rattle.wasm_sections.specs.Imports.{compact_item};
ghost use Rattle.wasm_sections.specs.declared.export.ExportKind.{ExportKind};
ghost use Rattle.wasm_sections.specs.declared.global.GlobalType.{GlobalType};
ghost use Rattle.wasm_sections.specs.declared.import.EntityType.{EntityType};
ghost use Rattle.wasm_sections.specs.declared.table.TableType.{TableType};
ghost use Rattle.wasm_sections.specs.declared.tag.TagType.{TagType};
ghost use Rattle.wasm_remap.specs.Items.{remapped_data, remapped_element, remapped_elements, remapped_entity, remapped_export, remapped_global, remapped_global_type, remapped_import, remapped_mode, remapped_table, remapped_table_index, remapped_table_type, remapped_tag, space_of_export};
ghost use Rattle.wasm_remap.specs.Mapping.{ComesFrom, Follows, Mapping};

use crate::indexed::{Indexed, Remap, RemapError, mapped, remap_each, remap_numbers};
use crate::spaces::IndexSpace;
use std::alloc::Allocator;
use wasm_base::CowSlice;
use wasm_sections::{
    ElementItem, ElementItemMode, ElementList, EntityType, Export, ExportKind, GlobalItem,
    GlobalType, ImportCompact, Imports, Segment, TableItem, TableType, TagType,
};

impl<A: Allocator + Copy> Indexed<A> for TableType {
    ghost Value = { TableType };

    ghost view = { λ ty. ty };

    ghost remapped = { remapped_table_type };

    fn remap<M: Remap>(&mut self, alloc: A, indices: &M) -> Result<(), RemapError<M::Error>> {
        self.element_type.remap(alloc, indices)
    }
}

impl<A: Allocator + Copy> Indexed<A> for GlobalType {
    ghost Value = { GlobalType };

    ghost view = { λ ty. ty };

    ghost remapped = { remapped_global_type };

    fn remap<M: Remap>(&mut self, alloc: A, indices: &M) -> Result<(), RemapError<M::Error>> {
        self.val_type.remap(alloc, indices)
    }
}

impl<A: Allocator + Copy> Indexed<A> for TagType {
    ghost Value = { TagType };

    ghost view = { λ ty. ty };

    ghost remapped = { remapped_tag };

    fn remap<M: Remap>(&mut self, _alloc: A, indices: &M) -> Result<(), RemapError<M::Error>> {
        self.func_type_idx = mapped(indices, IndexSpace::Types, self.func_type_idx)?;
        Ok(())
    }
}

impl<A: Allocator + Copy> Indexed<A> for EntityType {
    ghost Value = { EntityType };

    ghost view = { λ ty. ty };

    ghost remapped = { remapped_entity };

    fn remap<M: Remap>(&mut self, alloc: A, indices: &M) -> Result<(), RemapError<M::Error>> {
        match self {
            EntityType::Function(index) => {
                *index = mapped(indices, IndexSpace::Types, *index)?;
                Ok(())
            }
            EntityType::FunctionExact(index) => {
                *index = mapped(indices, IndexSpace::Types, *index)?;
                Ok(())
            }
            EntityType::Table(ty) => ty.remap(alloc, indices),
            EntityType::Memory(_) => Ok(()),
            EntityType::Global(ty) => ty.remap(alloc, indices),
            EntityType::Tag(ty) => ty.remap(alloc, indices),
        }
    }
}

impl<A: Allocator + Copy> Indexed<A> for ImportCompact<'_> {
    ghost Value = { List ℕ × EntityType };

    ghost view = { compact_item };

    ghost remapped = { λ m item. (item.0, remapped_entity m item.1) };

    fn remap<M: Remap>(&mut self, alloc: A, indices: &M) -> Result<(), RemapError<M::Error>> {
        self.ty.remap(alloc, indices)
    }
}

/// Decoded groups own their lists. A list that is borrowed is copied first.
impl<'a, A: Allocator + Copy> Indexed<A> for Imports<'a, A> {
    ghost Value = { ImportItem };

    ghost view = { imports_item };

    ghost remapped = { remapped_import };

    fn remap<M: Remap>(&mut self, alloc: A, indices: &M) -> Result<(), RemapError<M::Error>> {
        match self {
            Imports::Single(import) => import.ty.remap(alloc, indices),
            Imports::Compact1 { items, .. } => {
                let mut owned = Vec::from_slice(alloc, items.as_slice())?;
                remap_each(&mut owned, alloc, indices)?;
                *items = CowSlice::Owned(owned);
                Ok(())
            }
            Imports::Compact2 { ty, .. } => ty.remap(alloc, indices),
        }
    }
}

/// Returns the index space of an export.
fn space_of(kind: ExportKind) -> IndexSpace
    ensures { result ≡ space_of_export kind }
{
    match kind {
        ExportKind::Func => IndexSpace::Functions,
        ExportKind::Table => IndexSpace::Tables,
        ExportKind::Memory => IndexSpace::Memories,
        ExportKind::Global => IndexSpace::Globals,
        ExportKind::Tag => IndexSpace::Tags,
    }
}

impl<A: Allocator + Copy> Indexed<A> for Export<'_> {
    ghost Value = { ExportItem };

    ghost view = { item_of };

    ghost remapped = { remapped_export };

    fn remap<M: Remap>(&mut self, _alloc: A, indices: &M) -> Result<(), RemapError<M::Error>> {
        self.index = mapped(indices, space_of(self.kind), self.index)?;
        Ok(())
    }
}

impl<A: Allocator + Copy> Indexed<A> for TableItem<A> {
    ghost Value = { TableModel };

    ghost view = { table_view };

    ghost remapped = { remapped_table };

    fn remap<M: Remap>(&mut self, alloc: A, indices: &M) -> Result<(), RemapError<M::Error>> {
        self.table_type.remap(alloc, indices)?;
        match &mut self.init {
            Some(init) => init.remap(alloc, indices),
            None => Ok(()),
        }
    }
}

impl<A: Allocator + Copy> Indexed<A> for GlobalItem<A> {
    ghost Value = { GlobalModel };

    ghost view = { global_view };

    ghost remapped = { remapped_global };

    fn remap<M: Remap>(&mut self, alloc: A, indices: &M) -> Result<(), RemapError<M::Error>> {
        self.global_type.remap(alloc, indices)?;
        self.init.remap(alloc, indices)
    }
}

/// Returns the new table of an active element segment. If none is given, it is table 0.
fn mapped_table<M: Remap>(
    indices: &M,
    table: Option<u32>,
) -> Result<Option<u32>, RemapError<M::Error>>
    ensures ok { IfOk result (λ n. (m : Mapping) → Follows (M.mapped indices.now) (M.rejects indices.now) m → n ≡ remapped_table_index m table) }
    ensures err { IfErr result (λ e. ComesFrom (M.rejects indices.now) e) }
{
    match table {
        Some(index) => Ok(Some(mapped(indices, IndexSpace::Tables, index)?)),
        None => {
            let index = mapped(indices, IndexSpace::Tables, 0)?;
            if index == 0 {
                Ok(None)
            } else {
                Ok(Some(index))
            }
        }
    }
}

impl<A: Allocator + Copy> Indexed<A> for ElementItemMode<A> {
    ghost Value = { SegmentMode (List Plain) };

    ghost view = { segment_mode_view };

    ghost remapped = { remapped_mode };

    fn remap<M: Remap>(&mut self, alloc: A, indices: &M) -> Result<(), RemapError<M::Error>> {
        match self {
            ElementItemMode::Passive | ElementItemMode::Declared => Ok(()),
            ElementItemMode::Active { table, offset } => {
                *table = mapped_table(indices, *table)?;
                offset.remap(alloc, indices)
            }
        }
    }
}

impl<A: Allocator + Copy> Indexed<A> for ElementList<A> {
    ghost Value = { ElementsModel (List Plain) };

    ghost view = { list_view };

    ghost remapped = { remapped_elements };

    fn remap<M: Remap>(&mut self, alloc: A, indices: &M) -> Result<(), RemapError<M::Error>> {
        match self {
            ElementList::Functions(functions) => {
                remap_numbers(functions, IndexSpace::Functions, indices)
            }
            ElementList::Expressions(ty, expressions) => {
                ty.remap(alloc, indices)?;
                remap_each(expressions, alloc, indices)
            }
        }
    }
}

impl<A: Allocator + Copy> Indexed<A> for ElementItem<A> {
    ghost Value = { ElementModel (List Plain) };

    ghost view = { element_view };

    ghost remapped = { remapped_element };

    fn remap<M: Remap>(&mut self, alloc: A, indices: &M) -> Result<(), RemapError<M::Error>> {
        self.mode.remap(alloc, indices)?;
        self.elements.remap(alloc, indices)
    }
}

impl<A: Allocator + Copy> Indexed<A> for Segment<'_, A> {
    ghost Value = { DataItem };

    ghost view = { segment_view };

    ghost remapped = { remapped_data };

    fn remap<M: Remap>(&mut self, alloc: A, indices: &M) -> Result<(), RemapError<M::Error>> {
        match self {
            Segment::Active { memory, offset, .. } => {
                *memory = mapped(indices, IndexSpace::Memories, *memory)?;
                offset.remap(alloc, indices)
            }
            Segment::Passive { .. } => Ok(()),
        }
    }
}
