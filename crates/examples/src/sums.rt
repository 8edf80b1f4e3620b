// Global sections whose initializer is a sum.
ghost use Rattle.std.specs.Prelude.{[], ◌∷◌, IfOk, OnOk, pos};
ghost use Rattle.wasm_base.specs.Entries.{counted_format};
ghost use Rattle.wasm_base.specs.Modules.{GainsDecoding, GainsDecodingPadded};
ghost use Rattle.wasm_code.specs.Expressions.{StoresInstructions};
ghost use Rattle.wasm_sections.specs.Globals.{global_item};
ghost use Rattle.examples.specs.Padded.{number};
ghost use Rattle.examples.specs.Sums.{sum_global, sum_code};

use std::alloc::Allocator;
use wasm_base::{Encode, Result, ValType};
use wasm_code::ConstExpr;
use wasm_sections::{GlobalSection, GlobalType};

const CONSTANT: GlobalType = GlobalType {
    val_type: ValType::I32,
    mutable: false,
    shared: false,
};

/// Returns the sum of the global of this index and 5.
fn sum_of<A: Allocator + Copy>(alloc: A, index: u32) -> Result<ConstExpr<A>>
    ensures { IfOk result (λ init. StoresInstructions init (sum_code index)) }
{
    let both = ConstExpr::global_get(alloc, index)?.with_i32_const(5)?;
    let sum = both.with_i32_add()?;
    Ok(sum)
}

/// Appends a global section of one global, whose initializer is the sum of the global of this index
/// and 5.
pub fn encode_sum<A: Allocator + Copy>(sink: &mut Vec<u8, A>, index: u32) -> Result<()>
    ensures { OnOk result (GainsDecoding (counted_format global_item) (sum_global index ∷ []) sink.old.items sink.new.items) }
{
    let alloc = *sink.allocator();
    let mut section = GlobalSection::new(alloc);
    section.global(CONSTANT, &sum_of(alloc, index)?)?;
    section.encode(sink)
}

/// Appends a global section of that global, and of one that is already encoded, whose number is
/// padded.
pub fn encode_sum_and_padded<A: Allocator + Copy>(sink: &mut Vec<u8, A>, index: u32) -> Result<()>
    ensures { OnOk result (GainsDecodingPadded (counted_format global_item) (sum_global index ∷ number (pos 0) ∷ []) sink.old.items sink.new.items) }
{
    let alloc = *sink.allocator();
    let mut section = GlobalSection::new(alloc);
    section.global(CONSTANT, &sum_of(alloc, index)?)?;
    section.raw(&[0x7F, 0x00, 0x41, 0x80, 0x00, 0x0B])?;
    section.encode(sink)
}
