// A whole module by builders alone: a function that adds two numbers.
ghost use Rattle.std.specs.Prelude.{IfOk, [], ◌∷◌};
ghost use Rattle.wasm_base.specs.Modules.{DecodesSections};
ghost use Rattle.wasm_code.specs.Bodies.{IsWellFormedBody};
ghost use Rattle.wasm_code.specs.Code.{EncodesBodies};
ghost use Rattle.wasm_sections.specs.Exports.{ContainsExports};
ghost use Rattle.wasm_sections.specs.Functions.{ContainsFunctions};
ghost use Rattle.wasm_types.specs.RecTypes.{ContainsTypes};
ghost use Rattle.examples.specs.Adding.{adding_sections, adding_type, add_export, adding_body};

use std::alloc::Allocator;
use wasm_base::{Module, Result, ValType};
use wasm_code::{CodeSection, Function};
use wasm_sections::{ExportKind, ExportSection, FunctionSection};
use wasm_types::TypeSection;

/// Returns a module that exports, as `add`, the sum of two numbers.
pub fn adding_module<A: Allocator + Copy>(alloc: A) -> Result<Vec<u8, A>>
    ensures { IfOk result (λ bytes. DecodesSections adding_sections bytes.items) }
{
    let mut module = Module::new(alloc)?;
    module.section(&types(alloc)?)?;
    module.section(&functions(alloc)?)?;
    module.section(&exports(alloc)?)?;
    module.section(&code(alloc)?)?;
    Ok(module.finish())
}

/// Returns the type of the function.
fn types<A: Allocator + Copy>(alloc: A) -> Result<TypeSection<A>>
    ensures { IfOk result (λ section. ContainsTypes section (adding_type ∷ [])) }
{
    let mut section = TypeSection::new(alloc);
    section
        .ty()
        .function([ValType::I32, ValType::I32], [ValType::I32])?;
    Ok(section)
}

/// The function is of the type 0.
fn functions<A: Allocator + Copy>(alloc: A) -> Result<FunctionSection<A>>
    ensures { IfOk result (λ section. ContainsFunctions section (0 ∷ [])) }
{
    let mut section = FunctionSection::new(alloc);
    section.function(0)?;
    Ok(section)
}

/// Exports the function 0 as `add`.
fn exports<A: Allocator + Copy>(alloc: A) -> Result<ExportSection<A>>
    ensures { IfOk result (λ section. ContainsExports section (add_export ∷ [])) }
{
    let mut section = ExportSection::new(alloc);
    section.export("add", ExportKind::Func, 0)?;
    Ok(section)
}

/// Returns the body of the function.
fn code<A: Allocator + Copy>(alloc: A) -> Result<CodeSection<A>>
    ensures { IfOk result (λ section. EncodesBodies section (adding_body ∷ [])) }
{
    let mut section = CodeSection::new(alloc);
    section.function(&sum(alloc)?)?;
    Ok(section)
}

/// Returns the sum of the two parameters.
pub(crate) fn sum<A: Allocator>(alloc: A) -> Result<Function<A>>
    ensures { IfOk result (λ function. IsWellFormedBody function adding_body) }
{
    let mut function = Function::new(alloc, [])?;
    let mut sink = function.instructions();
    sink.local_get(0)?;
    sink.local_get(1)?;
    sink.i32_add()?;
    sink.end()?;
    Ok(function)
}
