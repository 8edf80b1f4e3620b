// A module whose table and memory are filled.
ghost use Rattle.std.specs.Prelude.{IfOk, OnOk, [], ◌∷◌};
ghost use Rattle.wasm_base.specs.Modules.{DecodesSections};
ghost use Rattle.wasm_sections.specs.DataSegments.{ContainsSegments};
ghost use Rattle.wasm_sections.specs.Elements.{ContainsElements};
ghost use Rattle.wasm_sections.specs.Tables.{ContainsTables};
ghost use Rattle.examples.specs.Filled.{three_places, ready_at_0, bytes_at_8, bytes_later, empty_sections, filled_sections};

use crate::whole::{imports, memories};
use std::alloc::Allocator;
use wasm_base::{CowSlice, Module, RawSection, RefType, Result};
use wasm_code::ConstExpr;
use wasm_sections::{
    DataCountSection, DataSection, ElementSection, Elements, TableSection, TableType,
};

/// Returns a module that copies an imported function to a table, and bytes to a memory.
pub fn filled_module<A: Allocator + Copy>(alloc: A, bytes: &[u8]) -> Result<Vec<u8, A>>
    ensures { IfOk result (λ made. DecodesSections (filled_sections bytes.now) made.items) }
{
    let mut module = Module::new(alloc)?;
    add_empty(&mut module, alloc)?;
    module.section(&elements(alloc)?)?;
    module.section(&DataCountSection { count: 2 })?;
    module.section(&segments(alloc, bytes)?)?;
    Ok(module.finish())
}

/// Adds the imported function, the table and the memory.
fn add_empty<A: Allocator + Copy>(built: &mut Module<A>, alloc: A) -> Result<()>
    ensures { DecodesSections [] built.old → OnOk result (DecodesSections empty_sections built.new) }
{
    built.section(&RawSection {
        id: 1,
        bytes: &[0x01, 0x60, 0x00, 0x00],
    })?;
    built.section(&imports(alloc)?)?;
    built.section(&tables(alloc)?)?;
    built.section(&memories(alloc)?)?;
    Ok(())
}

/// Returns a table of three functions.
fn tables<A: Allocator + Copy>(alloc: A) -> Result<TableSection<A>>
    ensures { IfOk result (λ section. ContainsTables section (three_places ∷ [])) }
{
    let mut section = TableSection::new(alloc);
    section.table(TableType {
        element_type: RefType::FUNCREF,
        table64: false,
        minimum: 3,
        maximum: None,
        shared: false,
    })?;
    Ok(section)
}

/// Returns a segment of the function 0, at the front of the table.
fn elements<A: Allocator + Copy>(alloc: A) -> Result<ElementSection<A>>
    ensures { IfOk result (λ section. ContainsElements section (ready_at_0 ∷ [])) }
{
    let mut section = ElementSection::new(alloc);
    let offset = ConstExpr::i32_const(alloc, 0)?;
    let functions = Elements::Functions(CowSlice::Borrowed(&[0]));
    section.active(None, &offset, functions)?;
    Ok(section)
}

/// Returns a segment of the bytes at the offset 8, and another for a later call.
#[tactic(auto, using(wasm_base::proofs::KnownLengths::drained_array, wasm_base::proofs::KnownLengths::drained_copied))]
fn segments<A: Allocator + Copy>(alloc: A, bytes: &[u8]) -> Result<DataSection<A>>
    ensures { IfOk result (λ section. ContainsSegments section (bytes_at_8 bytes.now ∷ bytes_later ∷ [])) }
{
    let mut section = DataSection::new(alloc);
    let offset = ConstExpr::i32_const(alloc, 8)?;
    section.active(0, &offset, bytes.iter().copied())?;
    section.passive([1u8, 2, 3])?;
    Ok(section)
}
