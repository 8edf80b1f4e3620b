//! Copies of builders and values: each has the same content as the original.
ghost use Rattle.std.specs.Prelude.{◌≡◌, IfOk, map};
ghost use Rattle.wasm_base.specs.Cow.{items_of, utf8_of};
ghost use Rattle.wasm_insn.specs.Instructions.{row_of};
ghost use Rattle.wasm_types.specs.Given.{composite_in, func_in, shape_in, sub_in};
ghost use Rattle.wasm_types.specs.Items.{entry_encoding};

use std::alloc::Allocator;
use wasm_base::{Module, Result, add_all};
use wasm_code::{CodeSection, Function};
use wasm_custom::{
    CoreDumpSection, CoreDumpStackSection, CustomSection, NameMap, NameSection, RelocationSection,
};
use wasm_insn::Instruction;
use wasm_types::{
    CompositeInnerType, CompositeType, FuncType, StructType, SubType, TypeEntry, TypeSection,
};

/// Returns a module of the same sections.
pub fn copied_module<A: Allocator + Clone>(module: &Module<A>) -> Result<Module<A>>
    ensures { IfOk result (λ copy. copy ≡ module.now) }
{
    module.clone()
}

/// Returns a code section of the same bodies.
pub fn copied_code<A: Allocator + Copy>(code: &CodeSection<A>) -> Result<CodeSection<A>>
    ensures { IfOk result (λ copy. copy ≡ code.now) }
{
    code.clone()
}

/// Returns a function of the same raw body.
pub fn copied_function<A: Allocator + Copy>(function: &Function<A>) -> Result<Function<A>>
    ensures { IfOk result (λ copy. copy ≡ function.now) }
{
    function.clone()
}

/// Returns an instruction of the same opcode and immediates.
pub fn copied_instruction<'a, A: Allocator + Copy>(
    instruction: &Instruction<'a, A>,
) -> Result<Instruction<'a, A>>
    ensures { IfOk result (λ copy. row_of copy ≡ row_of instruction.now) }
{
    instruction.clone()
}

/// Returns a type section of the same entries.
pub fn copied_types<A: Allocator + Copy>(types: &TypeSection<A>) -> Result<TypeSection<A>>
    ensures { IfOk result (λ copy. copy ≡ types.now) }
{
    types.clone()
}

/// Returns two function types of the same parameters and results.
pub fn copied_function_types<A: Allocator + Copy>(
    first: &FuncType<A>,
    second: &FuncType<A>,
) -> Result<(FuncType<A>, FuncType<A>)>
    ensures { IfOk result (λ copies. (func_in copies.0 ≡ func_in first.now) × (func_in copies.1 ≡ func_in second.now)) }
{
    let copy = first.clone()?;
    Ok((copy, second.clone()?))
}

/// Returns a structure of the same fields.
pub fn copied_structure<A: Allocator + Copy>(structure: &StructType<A>) -> Result<StructType<A>>
    ensures { IfOk result (λ copy. copy.fields.items ≡ structure.now.fields.items) }
{
    structure.clone()
}

/// Returns the same function, array, structure or continuation.
pub fn copied_shape<A: Allocator + Copy>(
    shape: &CompositeInnerType<A>,
) -> Result<CompositeInnerType<A>>
    ensures { IfOk result (λ copy. shape_in copy ≡ shape_in shape.now) }
{
    shape.clone()
}

/// Returns the same composite type.
pub fn copied_composite<A: Allocator + Copy>(
    composite: &CompositeType<A>,
) -> Result<CompositeType<A>>
    ensures { IfOk result (λ copy. composite_in copy ≡ composite_in composite.now) }
{
    composite.clone()
}

/// Returns the same subtype.
pub fn copied_subtype<A: Allocator + Copy>(subtype: &SubType<A>) -> Result<SubType<A>>
    ensures { IfOk result (λ copy. sub_in copy ≡ sub_in subtype.now) }
{
    subtype.clone()
}

/// Returns a custom section of the same name and data.
pub fn copied_custom<'a, A: Allocator + Copy>(
    custom: &CustomSection<'a, A>,
) -> Result<CustomSection<'a, A>>
    ensures { IfOk result (λ copy. (utf8_of copy.name ≡ utf8_of custom.now.name) × (items_of copy.bytes ≡ items_of custom.now.bytes)) }
{
    custom.clone()
}

/// Returns a name section of the same subsections.
pub fn copied_names<A: Allocator + Copy>(names: &NameSection<A>) -> Result<NameSection<A>>
    ensures { IfOk result (λ copy. copy ≡ names.now) }
{
    names.clone()
}

/// Returns a map of the same indices and names.
pub fn copied_map<A: Allocator + Copy>(map: &NameMap<A>) -> Result<NameMap<A>>
    ensures { IfOk result (λ copy. copy ≡ map.now) }
{
    map.clone()
}

/// Returns the same two processes.
pub fn copied_processes<A: Allocator + Copy>(
    one: &CoreDumpSection<A>,
    other: &CoreDumpSection<A>,
) -> Result<(CoreDumpSection<A>, CoreDumpSection<A>)>
    ensures { IfOk result (λ copies. (copies.0 ≡ one.now) × (copies.1 ≡ other.now)) }
{
    let copy = one.clone()?;
    Ok((copy, other.clone()?))
}

/// Returns a stack of the same thread and frames.
pub fn copied_stack<A: Allocator + Copy>(
    stack: &CoreDumpStackSection<A>,
) -> Result<CoreDumpStackSection<A>>
    ensures { IfOk result (λ copy. copy ≡ stack.now) }
{
    stack.clone()
}

/// Returns a relocation section of the same name, section index and relocations.
pub fn copied_relocations<A: Allocator + Copy>(
    relocations: &RelocationSection<A>,
) -> Result<RelocationSection<A>>
    ensures { IfOk result (λ copy. copy ≡ relocations.now) }
{
    relocations.clone()
}

/// Returns a type section of decoded entries: the encoding of each, in order.
pub fn types_again<A: Allocator + Copy>(alloc: A, types: &[TypeEntry<A>]) -> Result<TypeSection<A>>
    ensures { IfOk result (λ section. section ≡ map entry_encoding types.now) }
{
    let mut section = TypeSection::new(alloc);
    match add_all(&mut section, types) {
        Ok(()) => Ok(section),
        Err((_, refused)) => Err(refused),
    }
}
