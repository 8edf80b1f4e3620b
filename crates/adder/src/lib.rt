//! A module of one exported function.
#![tactic(auto, using(dolzhytik::proofs::KnownLengths::drained_array))]

ghost use Rattle.std.specs.Prelude.{IfOk, [], ◌∷◌};
ghost use Rattle.dolzhytik.specs.base.Modules.{DecodesSections};
ghost use Rattle.dolzhytik.specs.code.Bodies.{IsWellFormedBody};
ghost use Rattle.dolzhytik.specs.code.Code.{EncodesBodies};
ghost use Rattle.dolzhytik.specs.sections.Exports.{ContainsExports};
ghost use Rattle.dolzhytik.specs.sections.Functions.{ContainsFunctions};
ghost use Rattle.dolzhytik.specs.types.RecTypes.{ContainsTypes};
ghost use Rattle.adder.specs.Items.{add_type, add_export, sum_body, add_sections};

use dolzhytik::{
    CodeSection, ExportKind, ExportSection, Function, FunctionSection, Module, Result, TypeSection,
    ValType,
};
use std::alloc::Allocator;

/// Returns the body of `add`: the sum of its two parameters.
pub fn sum<A: Allocator>(alloc: A) -> Result<Function<A>>
    ensures { IfOk result (λ function. IsWellFormedBody function sum_body) }
{
    let mut function = Function::new(alloc, [])?;
    let mut sink = function.instructions();
    sink.local_get(0)?;
    sink.local_get(1)?;
    sink.i32_add()?;
    sink.end()?;
    Ok(function)
}

/// Returns the type section: the type of `add`.
pub fn types<A: Allocator + Copy>(alloc: A) -> Result<TypeSection<A>>
    ensures { IfOk result (λ section. ContainsTypes section (add_type ∷ [])) }
{
    let mut section = TypeSection::new(alloc);
    section
        .ty()
        .function([ValType::I32, ValType::I32], [ValType::I32])?;
    Ok(section)
}

/// Returns the function section: `add` has type 0.
pub fn functions<A: Allocator + Copy>(alloc: A) -> Result<FunctionSection<A>>
    ensures { IfOk result (λ section. ContainsFunctions section (0 ∷ [])) }
{
    let mut section = FunctionSection::new(alloc);
    section.function(0)?;
    Ok(section)
}

/// Returns the export section: function 0 as `add`.
pub fn exports<A: Allocator + Copy>(alloc: A) -> Result<ExportSection<A>>
    ensures { IfOk result (λ section. ContainsExports section (add_export ∷ [])) }
{
    let mut section = ExportSection::new(alloc);
    section.export("add", ExportKind::Func, 0)?;
    Ok(section)
}

/// Returns the code section: the body of `add`.
pub fn code<A: Allocator + Copy>(alloc: A) -> Result<CodeSection<A>>
    ensures { IfOk result (λ section. EncodesBodies section (sum_body ∷ [])) }
{
    let mut section = CodeSection::new(alloc);
    section.function(&sum(alloc)?)?;
    Ok(section)
}

/// Returns a module that exports `add`.
pub fn add_module<A: Allocator + Copy>(alloc: A) -> Result<Vec<u8, A>>
    ensures { IfOk result (λ bytes. DecodesSections add_sections bytes.items) }
{
    let mut module = Module::new(alloc)?;
    module.section(&types(alloc)?)?;
    module.section(&functions(alloc)?)?;
    module.section(&exports(alloc)?)?;
    module.section(&code(alloc)?)?;
    Ok(module.finish())
}
