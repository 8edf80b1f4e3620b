// A module of eight sections.
ghost use Rattle.std.specs.Prelude.{IfOk, OnOk, [], ◌∷◌};
ghost use Rattle.wasm_base.specs.Modules.{DecodesSections};
ghost use Rattle.wasm_code.specs.Bodies.{IsWellFormedBody};
ghost use Rattle.wasm_code.specs.Code.{EncodesBodies};
ghost use Rattle.wasm_sections.specs.Exports.{ContainsExports};
ghost use Rattle.wasm_sections.specs.Functions.{ContainsFunctions};
ghost use Rattle.wasm_sections.specs.Globals.{ContainsGlobals};
ghost use Rattle.wasm_sections.specs.Imports.{ContainsImports};
ghost use Rattle.wasm_sections.specs.Memories.{ContainsMemories};
ghost use Rattle.examples.specs.Bodies.{factorial_body};
ghost use Rattle.examples.specs.Whole.{ready, one_page, five, factorial_export, memory_export, start_body, declared_sections, stored_sections, whole_sections};

use crate::recursion::factorial;
use std::alloc::Allocator;
use wasm_base::{Module, RawSection, Result, ValType};
use wasm_code::{CodeSection, ConstExpr, Function};
use wasm_sections::{
    EntityType, ExportKind, ExportSection, FunctionSection, GlobalSection, GlobalType,
    ImportSection, MemorySection, MemoryType, StartSection,
};

/// Returns a module that imports a function, has a global and a memory, and replaces the global by
/// its factorial when it starts.
pub fn whole_module<A: Allocator + Copy>(alloc: A) -> Result<Vec<u8, A>>
    ensures { IfOk result (λ bytes. DecodesSections whole_sections bytes.items) }
{
    let mut module = Module::new(alloc)?;
    add_declared(&mut module, alloc)?;
    add_stored(&mut module, alloc)?;
    module.section(&StartSection { function_index: 2 })?;
    module.section(&code(alloc)?)?;
    Ok(module.finish())
}

/// Adds the types, the imported function, and the types of the others.
fn add_declared<A: Allocator + Copy>(built: &mut Module<A>, alloc: A) -> Result<()>
    ensures { DecodesSections [] built.old → OnOk result (DecodesSections declared_sections built.new) }
{
    built.section(&RawSection {
        id: 1,
        bytes: &[0x02, 0x60, 0x00, 0x00, 0x60, 0x01, 0x7F, 0x01, 0x7F],
    })?;
    built.section(&imports(alloc)?)?;
    built.section(&functions(alloc)?)?;
    Ok(())
}

/// Adds the memory, the global, and the exports.
fn add_stored<A: Allocator + Copy>(built: &mut Module<A>, alloc: A) -> Result<()>
    ensures { DecodesSections declared_sections built.old → OnOk result (DecodesSections stored_sections built.new) }
{
    built.section(&memories(alloc)?)?;
    built.section(&globals(alloc)?)?;
    built.section(&exports(alloc)?)?;
    Ok(())
}

/// Imports the function 0 from the host.
pub(crate) fn imports<A: Allocator + Copy>(alloc: A) -> Result<ImportSection<A>>
    ensures { IfOk result (λ section. ContainsImports section (ready ∷ [])) }
{
    let mut section = ImportSection::new(alloc);
    section.import("host", "ready", EntityType::Function(0))?;
    Ok(section)
}

/// Returns the types of the functions 1 and 2.
fn functions<A: Allocator + Copy>(alloc: A) -> Result<FunctionSection<A>>
    ensures { IfOk result (λ section. ContainsFunctions section (1 ∷ 0 ∷ [])) }
{
    let mut section = FunctionSection::new(alloc);
    section.function(1)?;
    section.function(0)?;
    Ok(section)
}

/// Returns a memory of one page.
pub(crate) fn memories<A: Allocator + Copy>(alloc: A) -> Result<MemorySection<A>>
    ensures { IfOk result (λ section. ContainsMemories section (one_page ∷ [])) }
{
    let mut section = MemorySection::new(alloc);
    section.memory(MemoryType {
        minimum: 1,
        maximum: None,
        memory64: false,
        shared: false,
        page_size_log2: None,
    })?;
    Ok(section)
}

/// Returns a mutable number, initially 5.
fn globals<A: Allocator + Copy>(alloc: A) -> Result<GlobalSection<A>>
    ensures { IfOk result (λ section. ContainsGlobals section (five ∷ [])) }
{
    let global_type = GlobalType {
        val_type: ValType::I32,
        mutable: true,
        shared: false,
    };
    let mut section = GlobalSection::new(alloc);
    section.global(global_type, &ConstExpr::i32_const(alloc, 5)?)?;
    Ok(section)
}

/// Exports the factorial and the memory.
fn exports<A: Allocator + Copy>(alloc: A) -> Result<ExportSection<A>>
    ensures { IfOk result (λ section. ContainsExports section (factorial_export ∷ memory_export ∷ [])) }
{
    let mut section = ExportSection::new(alloc);
    section.export("factorial", ExportKind::Func, 1)?;
    section.export("memory", ExportKind::Memory, 0)?;
    Ok(section)
}

/// Returns the bodies of the functions 1 and 2.
fn code<A: Allocator + Copy>(alloc: A) -> Result<CodeSection<A>>
    ensures { IfOk result (λ section. EncodesBodies section (factorial_body 1 ∷ start_body ∷ [])) }
{
    let mut section = CodeSection::new(alloc);
    section.function(&factorial(alloc, 1)?)?;
    section.function(&start(alloc)?)?;
    Ok(section)
}

/// Returns the start function: it replaces the global by its factorial, and calls the host.
fn start<A: Allocator>(alloc: A) -> Result<Function<A>>
    ensures { IfOk result (λ function. IsWellFormedBody function start_body) }
{
    let mut function = Function::new(alloc, [])?;
    let mut sink = function.instructions();
    sink.global_get(0)?;
    sink.call(1)?;
    sink.global_set(0)?;
    sink.call(0)?;
    sink.end()?;
    Ok(function)
}
