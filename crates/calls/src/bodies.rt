//! A caller of a function's sinks: the contract states each byte of the body, and the offset in it.
ghost use Rattle.std.specs.Prelude.{◌≡◌, ◌+◌, [], ◌∷◌, ◌++◌, length, IfOk};

use std::alloc::Allocator;
use wasm_base::Result;
use wasm_code::Function;
use wasm_insn::BlockType;

/// Adds a constant, and then an empty block that is entered if it is not 0. Returns the offset of
/// the branch.
#[tactic(auto, using(crate::proofs::Branch::one_byte))]
pub fn branch_on_one<A: Allocator>(function: &mut Function<A>) -> Result<usize>
    ensures body { IfOk result (λ at. function.new ≡ function.old ++ 0x41 ∷ 0x01 ∷ 0x04 ∷ 0x40 ∷ 0x0B ∷ 0x0B ∷ []) }
    ensures offset { IfOk result (λ at. at ≡ length function.old + 2) }
{
    function.instructions().i32_const(1)?;
    let at = function.byte_len();
    let mut instructions = function.instructions();
    instructions.if_(BlockType::Empty)?;
    instructions.end()?;
    instructions.end()?;
    Ok(at)
}
