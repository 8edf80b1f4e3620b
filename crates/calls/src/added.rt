//! Calls that add an entry to a custom section: the contract states the entry's bytes.
ghost use Rattle.std.specs.Prelude.{◌≡◌, [], ◌∷◌, ◌++◌, OnOk};
ghost use Rattle.wasm_base.specs.Stores.{pieces_model};
ghost use Rattle.wasm_custom.specs.Customs.{subsection_encoding};
ghost use Rattle.wasm_custom.specs.Lists.{list_encoding};
ghost use Rattle.wasm_custom.specs.Symbols.{indexed_encoding};
ghost use Rattle.wasm_custom.specs.declared.symbols.SymbolKind.TheVariants as kinds;

use std::alloc::Allocator;
use wasm_base::Result;
use wasm_custom::{NameMap, NameSection, SymbolTable};

/// Adds names of types, in the subsection 4.
pub fn name_types<A: Allocator, B: Allocator>(
    section: &mut NameSection<A>,
    names: &NameMap<B>,
) -> Result<()>
    ensures { OnOk result (section.new ≡ section.old ++ subsection_encoding 4 (list_encoding (pieces_model.joins names.now)) ∷ []) }
{
    section.types(names)
}

/// Adds names of tables, in the subsection 5.
pub fn name_tables<A: Allocator, B: Allocator>(
    section: &mut NameSection<A>,
    names: &NameMap<B>,
) -> Result<()>
    ensures { OnOk result (section.new ≡ section.old ++ subsection_encoding 5 (list_encoding (pieces_model.joins names.now)) ∷ []) }
{
    section.tables(names)
}

/// Adds names of memories, in the subsection 6.
pub fn name_memories<A: Allocator, B: Allocator>(
    section: &mut NameSection<A>,
    names: &NameMap<B>,
) -> Result<()>
    ensures { OnOk result (section.new ≡ section.old ++ subsection_encoding 6 (list_encoding (pieces_model.joins names.now)) ∷ []) }
{
    section.memories(names)
}

/// Adds names of globals, in the subsection 7.
pub fn name_globals<A: Allocator, B: Allocator>(
    section: &mut NameSection<A>,
    names: &NameMap<B>,
) -> Result<()>
    ensures { OnOk result (section.new ≡ section.old ++ subsection_encoding 7 (list_encoding (pieces_model.joins names.now)) ∷ []) }
{
    section.globals(names)
}

/// Adds names of element segments, in the subsection 8.
pub fn name_elements<A: Allocator, B: Allocator>(
    section: &mut NameSection<A>,
    names: &NameMap<B>,
) -> Result<()>
    ensures { OnOk result (section.new ≡ section.old ++ subsection_encoding 8 (list_encoding (pieces_model.joins names.now)) ∷ []) }
{
    section.elements(names)
}

/// Adds names of tags, in the subsection 11.
pub fn name_tags<A: Allocator, B: Allocator>(
    section: &mut NameSection<A>,
    names: &NameMap<B>,
) -> Result<()>
    ensures { OnOk result (section.new ≡ section.old ++ subsection_encoding 11 (list_encoding (pieces_model.joins names.now)) ∷ []) }
{
    section.tag(names)
}

/// Adds a global that another module defines: its flags say that it is not defined here, and it has
/// no name.
pub fn import_global<A: Allocator>(table: &mut SymbolTable<A>, index: u32) -> Result<()>
    ensures { OnOk result (table.new ≡ table.old ++ indexed_encoding kinds.Global 0x10 index [] ∷ []) }
{
    table.global(0x10, index, None)
}

/// Adds a table that another module defines.
pub fn import_table<A: Allocator>(table: &mut SymbolTable<A>, index: u32) -> Result<()>
    ensures { OnOk result (table.new ≡ table.old ++ indexed_encoding kinds.Table 0x10 index [] ∷ []) }
{
    table.table(0x10, index, None)
}
