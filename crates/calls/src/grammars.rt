//! Callers that decode one byte in each of the two grammars.
ghost use Rattle.std.specs.Prelude.{◌≡◌, IfOk};
ghost use Rattle.wasm_base.specs.Types.{nullable_abstract};
ghost use Rattle.wasm_base.specs.declared.types.AbstractHeapType.TheVariants.{Exn};
ghost use Rattle.wasm_immediates.specs.ImmediateFormats.{memory_0};

use std::alloc::Allocator;
use wasm_base::{DecodeError, Padded, Readable, RefType, Standard, laws};
use wasm_immediates::MemArg;

/// Decodes the byte 69 in the standard's grammar, where it is `exnref`.
pub fn exception_reference<A: Allocator + Copy>(alloc: A) -> Result<RefType, DecodeError>
    ensures { IfOk result (λ ty. ty ≡ nullable_abstract Exn) }
{
    laws::types();
    laws::standard_types();
    let (ty, _rest) = <RefType as Readable<'_, A, Standard>>::read(&[0x69], alloc)?;
    Ok(ty)
}

/// Decodes a memory argument that states memory 0, in the standard's grammar: the alignment with
/// bit 6, the index, and the offset.
pub fn explicit_memory<A: Allocator + Copy>(alloc: A) -> Result<MemArg, DecodeError>
    ensures { IfOk result (λ memory. memory ≡ memory_0 2 5) }
{
    wasm_immediates::laws::immediates();
    wasm_immediates::laws::standard();
    let (memory, _rest) = <MemArg as Readable<'_, A, Standard>>::read(&[0x42, 0x00, 0x05], alloc)?;
    Ok(memory)
}

/// Decodes the byte 69 in the builders' grammar, where it is no type.
pub fn no_exception_reference<A: Allocator + Copy>(alloc: A) -> Result<RefType, DecodeError>
    ensures { IfOk result (λ _. ⊥) }
{
    laws::standard_types();
    let (ty, _rest) = <RefType as Readable<'_, A, Padded>>::read(&[0x69], alloc)?;
    Ok(ty)
}
