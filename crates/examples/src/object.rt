// A module for a linker: code, hints, symbols and producers.
ghost use Rattle.std.specs.Prelude.{[], ◌∷◌, IfOk, OnOk};
ghost use Rattle.wasm_base.specs.Modules.{DecodesSections};
ghost use Rattle.wasm_code.specs.Bodies.{IsWellFormedBody};
ghost use Rattle.wasm_code.specs.Code.{EncodesBodies};
ghost use Rattle.wasm_custom.specs.Symbols.{AreSymbols};
ghost use Rattle.wasm_custom.specs.Linking.{ContainsLinks};
ghost use Rattle.wasm_custom.specs.Producers.{ContainsFields};
ghost use Rattle.wasm_custom.specs.Hints.{ContainsHints};
ghost use Rattle.wasm_sections.specs.Functions.{ContainsFunctions};
ghost use Rattle.wasm_types.specs.RecTypes.{ContainsTypes};
ghost use Rattle.examples.specs.Object.{address_type, count_down_body, unlikely_hints, count_down_symbol, links, producers_fields, object_types, object_sections};

use crate::whole::memories;
use std::alloc::Allocator;
use wasm_base::{Module, Result, ValType};
use wasm_code::{CodeSection, Function};
use wasm_custom::{
    BranchHint, BranchHints, LinkingSection, ProducersField, ProducersSection, SymbolTable,
};
use wasm_immediates::{BlockType, MemArg, MemArgTarget};
use wasm_sections::FunctionSection;
use wasm_types::TypeSection;

/// The number of 32 bits that is 8 bytes after an address.
const NUMBER: MemArg = MemArg {
    offset: 8,
    align: 2,
    target: MemArgTarget::Memory(0),
    ordering: None,
};

/// Returns a module for a linker: a function that counts down a number in memory, a hint of its
/// branch, its symbol, and its producer.
pub fn object_module<A: Allocator + Copy>(alloc: A) -> Result<Vec<u8, A>>
    ensures { IfOk result (λ bytes. DecodesSections object_sections bytes.items) }
{
    let mut module = Module::new(alloc)?;
    add_types(&mut module, alloc)?;
    module.section(&hints(alloc)?)?;
    module.section(&code(alloc)?)?;
    module.section(&linking(alloc)?)?;
    module.section(&producers(alloc)?)?;
    Ok(module.finish())
}

/// Adds the types, the functions and the memory.
fn add_types<A: Allocator + Copy>(module: &mut Module<A>, alloc: A) -> Result<()>
    ensures { DecodesSections [] module.old → OnOk result (DecodesSections object_types module.new) }
{
    module.section(&types(alloc)?)?;
    module.section(&functions(alloc)?)?;
    module.section(&memories(alloc)?)?;
    Ok(())
}

/// Returns the type of the function.
fn types<A: Allocator + Copy>(alloc: A) -> Result<TypeSection<A>>
    ensures { IfOk result (λ section. ContainsTypes section (address_type ∷ [])) }
{
    let mut section = TypeSection::new(alloc);
    section.ty().function([ValType::I32], [])?;
    Ok(section)
}

/// The function is of the type 0.
fn functions<A: Allocator + Copy>(alloc: A) -> Result<FunctionSection<A>>
    ensures { IfOk result (λ section. ContainsFunctions section (0 ∷ [])) }
{
    let mut section = FunctionSection::new(alloc);
    section.function(0)?;
    Ok(section)
}

/// The branch of the function 0, at the offset 9 of its raw body, is not likely to be taken. Before
/// it are the count of locals (1 byte), `block` (2), `local.get` (2), `i32.load` (3) and `i32.eqz`
/// (1).
fn hints<A: Allocator + Copy>(alloc: A) -> Result<BranchHints<A>>
    ensures { IfOk result (λ section. ContainsHints section unlikely_hints) }
{
    let hint = BranchHint {
        branch_func_offset: 9,
        branch_hint_value: 0,
    };
    let mut section = BranchHints::new(alloc);
    section.function_hints(0, [hint])?;
    Ok(section)
}

/// Returns the body of the function.
fn code<A: Allocator + Copy>(alloc: A) -> Result<CodeSection<A>>
    ensures { IfOk result (λ section. EncodesBodies section (count_down_body ∷ [])) }
{
    let mut section = CodeSection::new(alloc);
    section.function(&count_down(alloc)?)?;
    Ok(section)
}

/// Decrements the number if it is not 0.
fn count_down<A: Allocator>(alloc: A) -> Result<Function<A>>
    ensures { IfOk result (λ function. IsWellFormedBody function count_down_body) }
{
    let mut function = Function::new(alloc, [])?;
    let mut sink = function.instructions();
    sink.block(BlockType::Empty)?;
    sink.local_get(0)?;
    sink.i32_load(NUMBER)?;
    sink.i32_eqz()?;
    sink.br_if(0)?;
    sink.local_get(0)?;
    sink.local_get(0)?;
    sink.i32_load(NUMBER)?;
    sink.i32_const(1)?;
    sink.i32_sub()?;
    sink.i32_store(NUMBER)?;
    sink.end()?;
    sink.end()?;
    Ok(function)
}

/// Returns the symbol of the function 0, which is exported from the linked module.
fn symbols<A: Allocator + Copy>(alloc: A) -> Result<SymbolTable<A>>
    ensures { IfOk result (λ table. AreSymbols table (count_down_symbol ∷ [])) }
{
    let mut table = SymbolTable::new(alloc);
    table.function(SymbolTable::WASM_SYM_EXPORTED, 0, Some("count_down"))?;
    Ok(table)
}

/// Returns the linking section: the symbols.
fn linking<A: Allocator + Copy>(alloc: A) -> Result<LinkingSection<A>>
    ensures { IfOk result (λ section. ContainsLinks section links) }
{
    let mut section = LinkingSection::new(alloc);
    section.symbol_table(&symbols(alloc)?)?;
    Ok(section)
}

/// Returns the producers of the module.
fn producers<A: Allocator + Copy>(alloc: A) -> Result<ProducersSection<A>>
    ensures { IfOk result (λ section. ContainsFields section producers_fields) }
{
    let mut values = ProducersField::new(alloc);
    values.value("dolzhytik", "0.1.0")?;
    let mut section = ProducersSection::new(alloc);
    section.field("processed-by", &values)?;
    Ok(section)
}
