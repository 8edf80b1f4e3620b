// Functions that several examples add.
ghost use Rattle.std.specs.Prelude.{IfOk};
ghost use Rattle.wasm_code.specs.Bodies.{IsWellFormedBody};
ghost use Rattle.examples.specs.Bodies.{first_body, local_body};

use std::alloc::Allocator;
use wasm_base::{Result, ValType};
use wasm_code::Function;

/// Returns a function of one local, which does nothing.
pub(crate) fn first_function<A: Allocator>(alloc: A) -> Result<Function<A>>
    ensures { IfOk result (λ function. IsWellFormedBody function first_body) }
{
    let mut function = Function::new(alloc, [(1, ValType::I32)])?;
    let mut sink = function.instructions();
    sink.end()?;
    Ok(function)
}

/// Returns a function that returns the local of this index.
pub(crate) fn local_function<A: Allocator>(alloc: A, index: u32) -> Result<Function<A>>
    ensures { IfOk result (λ function. IsWellFormedBody function (local_body index)) }
{
    let mut function = Function::new(alloc, [])?;
    let mut sink = function.instructions();
    sink.local_get(index)?;
    sink.end()?;
    Ok(function)
}
