// Bodies that have no instructions yet.
use std::alloc::Global;
use wasm_base::{Result, ValType};
use wasm_code::Function;

/// Returns a function with these runs of locals.
pub(crate) fn with_locals(alloc: Global, runs: &[(u32, ValType)]) -> Result<Function> {
    Function::new(alloc, runs.iter().copied())
}
