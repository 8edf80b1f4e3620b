// A module of one function.
ghost use Rattle.std.specs.Prelude.{[], ◌∷◌, IfOk};
ghost use Rattle.wasm_base.specs.Modules.{DecodesSections};
ghost use Rattle.wasm_code.specs.Code.{code_decoding};
ghost use Rattle.examples.specs.Bodies.{first_body};

use std::alloc::Allocator;
use wasm_base::{Module, Result, ValType};
use wasm_code::{CodeSection, Function};
use wasm_insn::Instruction;

/// Returns a module of a code section of one function, which has one local and does nothing.
pub fn first_module<A: Allocator + Copy>(alloc: A) -> Result<Vec<u8, A>>
    ensures { IfOk result (λ bytes. DecodesSections (code_decoding (first_body ∷ []) ∷ []) bytes.items) }
{
    let mut code = CodeSection::new(alloc);
    let mut function = Function::new(alloc, [(1, ValType::I32)])?;
    function.instruction(&Instruction::End)?;
    code.function(&function)?;
    let mut module = Module::new(alloc)?;
    module.section(&code)?;
    let bytes = module.finish();
    Ok(bytes)
}
