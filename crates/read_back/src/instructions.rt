//! A caller that encodes a decoded instruction again.
ghost use Rattle.std.specs.Prelude.{◌≡◌, ◌++◌, true, false, IfOk};
ghost use Rattle.wasm_insn.specs.Plain.{plain_encoding};
ghost use Rattle.wasm_insn.specs.Views.{plain_view};
ghost use Rattle.wasm_reader.specs.Conversions.{IsNoInstruction};

use std::alloc::Allocator;
use wasm_base::{Encode, Result};
use wasm_insn::Plain;
use wasm_reader::instruction_of;

/// Appends the encoding of a decoded instruction, as that of the value that builders take. Returns
/// whether the opcode and its arguments are an instruction.
pub fn append_again<A: Allocator, B: Allocator>(
    plain: &Plain<A>,
    sink: &mut Vec<u8, B>,
) -> Result<bool>
    ensures appended { IfOk result (λ is. is ≡ true → sink.new.items ≡ sink.old.items ++ plain_encoding (plain_view plain.now)) }
    ensures other { IfOk result (λ is. is ≡ false → IsNoInstruction plain.now.op (plain_view plain.now).arguments) }
{
    let Some(instruction) = instruction_of(plain.op, &plain.args) else {
        return Ok(false);
    };
    instruction.encode(sink)?;
    Ok(true)
}
