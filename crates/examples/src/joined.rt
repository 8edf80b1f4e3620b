// The module of `adding.rt`, and a name section, of builders that keep their entries' bytes and
// number alone.
ghost use Rattle.std.specs.Prelude.{IfOk, [], ◌∷◌, codes};
ghost use Rattle.wasm_base.specs.Modules.{DecodesSections};
ghost use Rattle.wasm_base.specs.Stores.{Cut};
ghost use Rattle.wasm_code.specs.Code.{EncodesBodies};
ghost use Rattle.wasm_custom.specs.Names.{AreNamings, ContainsNames, Map};
ghost use Rattle.wasm_sections.specs.Exports.{ContainsExports};
ghost use Rattle.wasm_sections.specs.Functions.{ContainsFunctions};
ghost use Rattle.wasm_types.specs.RecTypes.{ContainsTypes};
ghost use Rattle.examples.specs.Adding.{adding_sections, adding_type, add_export, adding_body};

use crate::adding::sum;
use std::alloc::Allocator;
use wasm_base::{Module, Result, ValType};
use wasm_code::joined::CodeSection;
use wasm_custom::joined::{NameMap, NameSection};
use wasm_sections::ExportKind;
use wasm_sections::joined::{ExportSection, FunctionSection};
use wasm_types::joined::TypeSection;

/// Returns a module that exports, as `add`, the sum of two numbers.
pub fn joined_module<A: Allocator + Copy>(alloc: A) -> Result<Vec<u8, A>>
    ensures { IfOk result (λ bytes. DecodesSections adding_sections bytes.items) }
{
    let mut module = Module::new(alloc)?;
    module.section(&types(alloc)?)?;
    module.section(&functions(alloc)?)?;
    module.section(&exports(alloc)?)?;
    module.section(&code(alloc)?)?;
    Ok(module.finish())
}

/// Returns the type of the function.
fn types<A: Allocator + Copy>(alloc: A) -> Result<TypeSection<A>>
    ensures { IfOk result (λ section. Cut (λ entries. ContainsTypes entries (adding_type ∷ [])) section) }
{
    let mut section = TypeSection::new(alloc);
    section
        .ty()
        .function([ValType::I32, ValType::I32], [ValType::I32])?;
    Ok(section)
}

/// The function is of the type 0.
fn functions<A: Allocator + Copy>(alloc: A) -> Result<FunctionSection<A>>
    ensures { IfOk result (λ section. Cut (λ entries. ContainsFunctions entries (0 ∷ [])) section) }
{
    let mut section = FunctionSection::new(alloc);
    section.function(0)?;
    Ok(section)
}

/// Exports the function 0 as `add`.
fn exports<A: Allocator + Copy>(alloc: A) -> Result<ExportSection<A>>
    ensures { IfOk result (λ section. Cut (λ entries. ContainsExports entries (add_export ∷ [])) section) }
{
    let mut section = ExportSection::new(alloc);
    section.export("add", ExportKind::Func, 0)?;
    Ok(section)
}

/// Returns the body of the function.
fn code<A: Allocator + Copy>(alloc: A) -> Result<CodeSection<A>>
    ensures { IfOk result (λ section. Cut (λ entries. EncodesBodies entries (adding_body ∷ [])) section) }
{
    let mut section = CodeSection::new(alloc);
    section.function(&sum(alloc)?)?;
    Ok(section)
}

/// Returns the name of the function.
fn function_names<A: Allocator + Copy>(alloc: A) -> Result<NameMap<A>>
    ensures { IfOk result (λ names. Cut (λ entries. AreNamings entries ((0, codes "add") ∷ [])) names) }
{
    let mut names = NameMap::new(alloc);
    names.append(0, "add")?;
    Ok(names)
}

/// Returns a name section of the name of that function.
pub fn joined_names<A: Allocator + Copy>(alloc: A) -> Result<NameSection<A>>
    ensures { IfOk result (λ section. Cut (λ entries. ContainsNames entries (Map 1 ((0, codes "add") ∷ []) ∷ [])) section) }
{
    let mut section = NameSection::new(alloc);
    section.functions(&function_names(alloc)?)?;
    Ok(section)
}
