// A module with names for debuggers.
ghost use Rattle.std.specs.Prelude.{[], ◌∷◌, IfOk};
ghost use Rattle.wasm_base.specs.Modules.{DecodesSections};
ghost use Rattle.wasm_code.specs.Code.{EncodesBodies, code_decoding};
ghost use Rattle.wasm_custom.specs.Names.{AreNamings, AreInsides, ContainsNames, name_decoding};
ghost use Rattle.examples.specs.Bodies.{first_body};
ghost use Rattle.examples.specs.Named.{x_at_0, names_of};

use crate::bodies::first_function;
use std::alloc::Allocator;
use wasm_base::{Module, Result};
use wasm_code::CodeSection;
use wasm_custom::{IndirectNameMap, NameMap, NameSection};

/// Returns a module of one function, which does nothing, and of its names.
pub fn named_module<A: Allocator + Copy>(alloc: A, name: &str) -> Result<Vec<u8, A>>
    ensures { IfOk result (λ bytes. DecodesSections (code_decoding (first_body ∷ []) ∷ name_decoding (names_of name.now) ∷ []) bytes.items) }
{
    let mut module = Module::new(alloc)?;
    module.section(&code(alloc)?)?;
    module.section(&names(alloc, name)?)?;
    Ok(module.finish())
}

/// Returns a function of one local.
fn code<A: Allocator + Copy>(alloc: A) -> Result<CodeSection<A>>
    ensures { IfOk result (λ section. EncodesBodies section (first_body ∷ [])) }
{
    let mut section = CodeSection::new(alloc);
    section.function(&first_function(alloc)?)?;
    Ok(section)
}

/// Returns the name of the function 0.
fn functions<A: Allocator + Copy>(alloc: A, name: &str) -> Result<NameMap<A>>
    ensures { IfOk result (λ names. AreNamings names ((0, name.now) ∷ [])) }
{
    let mut names = NameMap::new(alloc);
    names.append(0, name)?;
    Ok(names)
}

/// Returns the name of the local of the function 0.
fn locals<A: Allocator + Copy>(alloc: A) -> Result<IndirectNameMap<A>>
    ensures { IfOk result (λ names. AreInsides names ((0, x_at_0) ∷ [])) }
{
    let mut inside = NameMap::new(alloc);
    inside.append(0, "x")?;
    let mut names = IndirectNameMap::new(alloc);
    names.append(0, &inside)?;
    Ok(names)
}

/// Returns the names of the module, of its function, and of the function's local.
fn names<A: Allocator + Copy>(alloc: A, name: &str) -> Result<NameSection<A>>
    ensures { IfOk result (λ section. ContainsNames section (names_of name.now)) }
{
    let mut section = NameSection::new(alloc);
    section.module("m")?;
    section.functions(&functions(alloc, name)?)?;
    section.locals(&locals(alloc)?)?;
    Ok(section)
}
