//! Callers that add items with initializer expressions, and prove to which items the sections
//! decode.
ghost use Rattle.std.specs.Prelude.{[], ◌∷◌, OnOk};
ghost use Rattle.wasm_base.specs.Entries.{counted_format};
ghost use Rattle.wasm_base.specs.Modules.{GainsDecoding};
ghost use Rattle.wasm_sections.specs.Globals.{global_item};
ghost use Rattle.wasm_sections.specs.Tables.{table_item};
ghost use Rattle.read_back.specs.FirstValues.{copied, null_table, nulled_table};

use std::alloc::Allocator;
use wasm_base::{Encode, HeapType, RefType, Result, ValType};
use wasm_code::ConstExpr;
use wasm_sections::{GlobalSection, GlobalType, TableSection, TableType};

/// Appends a global section of one immutable global, which has the value of the global at the
/// index.
pub fn encode_copied<A: Allocator + Copy>(sink: &mut Vec<u8, A>, index: u32) -> Result<()>
    ensures { OnOk result (GainsDecoding (counted_format global_item) (copied index ∷ []) sink.old.items sink.new.items) }
{
    let alloc = *sink.allocator();
    let constant = GlobalType {
        val_type: ValType::I32,
        mutable: false,
        shared: false,
    };
    let mut section = GlobalSection::new(alloc);
    section.global(constant, &ConstExpr::global_get(alloc, index)?)?;
    section.encode(sink)
}

/// Appends a table section of two tables of functions, all initially null.
pub fn encode_null_tables<A: Allocator + Copy>(sink: &mut Vec<u8, A>, minimum: u64) -> Result<()>
    ensures { OnOk result (GainsDecoding (counted_format table_item) (null_table minimum ∷ nulled_table minimum ∷ []) sink.old.items sink.new.items) }
{
    let alloc = *sink.allocator();
    let functions = TableType {
        element_type: RefType::FUNCREF,
        table64: false,
        minimum,
        maximum: None,
        shared: false,
    };
    let mut section = TableSection::new(alloc);
    section.table(functions)?;
    section.table_with_init(functions, &ConstExpr::ref_null(alloc, HeapType::FUNC)?)?;
    section.encode(sink)
}
