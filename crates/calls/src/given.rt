//! Values that are made from their fields, and sections of core dumps and of relocations as custom
//! sections.
ghost use Rattle.std.specs.Prelude.{◌≡◌, [], IfOk, true};
ghost use Rattle.wasm_base.specs.Cow.{items_of, utf8_of};
ghost use Rattle.wasm_code.specs.Expressions.{Stores};
ghost use Rattle.wasm_custom.specs.CoreDumps.{instances_name, modules_name};
ghost use Rattle.wasm_custom.specs.CoreStacks.{stack_name};
ghost use Rattle.wasm_custom.specs.Entries.{entries_encoding};

use std::alloc::Allocator;
use wasm_base::{Result, ValType};
use wasm_code::ConstExpr;
use wasm_custom::{
    CoreDumpInstancesSection, CoreDumpModulesSection, CoreDumpStackSection, CustomSection,
    RelocationSection,
};
use wasm_immediates::{Ieee32, Ieee64};
use wasm_insn::{Instruction, VectorImmediate};
use wasm_types::FuncType;

/// Returns a constant of 32 bits.
pub fn single_constant<A: Allocator>(alloc: A, float: Ieee32) -> Result<ConstExpr<A>>
    ensures { IfOk result (Stores (Instruction.F32Const float) []) }
{
    ConstExpr::f32_const(alloc, float)
}

/// Returns a constant of 64 bits.
pub fn double_constant<A: Allocator>(alloc: A, float: Ieee64) -> Result<ConstExpr<A>>
    ensures { IfOk result (Stores (Instruction.F64Const float) []) }
{
    ConstExpr::f64_const(alloc, float)
}

/// Returns a constant of 128 bits.
pub fn vector_constant<A: Allocator>(alloc: A, vector: i128) -> Result<ConstExpr<A>>
    ensures { IfOk result (Stores (Instruction.VectorImmediate (VectorImmediate.V128Const vector)) []) }
{
    ConstExpr::v128_const(alloc, vector)
}

/// Returns the type of a function with these parameters and results.
pub fn function_type<A: Allocator>(params: Vec<ValType, A>, results: Vec<ValType, A>) -> FuncType<A>
    ensures params { result.params.items ≡ params.items }
    ensures results { result.results.items ≡ results.items }
{
    FuncType::of(params, results)
}

/// Returns the modules of a process as a custom section.
pub fn custom_modules<'a, A: Allocator, B: Allocator>(
    modules: &'a CoreDumpModulesSection<A>,
    alloc: B,
) -> Result<CustomSection<'a, B>>
    ensures { IfOk result (λ s. (utf8_of s.name ≡ modules_name) × (items_of s.bytes ≡ entries_encoding [] true modules.now)) }
{
    modules.as_custom(alloc)
}

/// Returns the instances of a process as a custom section.
pub fn custom_instances<'a, A: Allocator, B: Allocator>(
    instances: &'a CoreDumpInstancesSection<A>,
    alloc: B,
) -> Result<CustomSection<'a, B>>
    ensures { IfOk result (λ s. (utf8_of s.name ≡ instances_name) × (items_of s.bytes ≡ entries_encoding [] true instances.now)) }
{
    instances.as_custom(alloc)
}

/// Returns the stack of a thread as a custom section.
pub fn custom_stack<'a, A: Allocator, B: Allocator>(
    stack: &'a CoreDumpStackSection<A>,
    alloc: B,
) -> Result<CustomSection<'a, B>>
    ensures { IfOk result (λ s. (utf8_of s.name ≡ stack_name) × (items_of s.bytes ≡ entries_encoding stack.now.0 true stack.now.1)) }
{
    stack.as_custom(alloc)
}

/// Returns relocations as a custom section.
pub fn custom_relocations<'a, A: Allocator, B: Allocator>(
    relocations: &'a RelocationSection<A>,
    alloc: B,
) -> Result<CustomSection<'a, B>>
    ensures { IfOk result (λ s. (utf8_of s.name ≡ relocations.now.0.0) × (items_of s.bytes ≡ entries_encoding relocations.now.0.1 true relocations.now.1)) }
{
    relocations.as_custom(alloc)
}
