// A module with numbers of 64 bits.
ghost use Rattle.std.specs.Prelude.{[], ◌∷◌, IfOk};
ghost use Rattle.wasm_base.specs.Modules.{DecodesSections};
ghost use Rattle.wasm_sections.specs.Globals.{ContainsGlobals};
ghost use Rattle.wasm_sections.specs.Memories.{ContainsMemories};
ghost use Rattle.examples.specs.Large.{large_memory, large_constant, large_sections};

use std::alloc::Allocator;
use wasm_base::{Module, Result, ValType};
use wasm_code::ConstExpr;
use wasm_sections::{GlobalSection, GlobalType, MemorySection, MemoryType};

/// Returns a module of a memory whose addresses have 64 bits, and of a constant that needs more
/// than 32.
pub fn large_module<A: Allocator + Copy>(alloc: A) -> Result<Vec<u8, A>>
    ensures { IfOk result (λ bytes. DecodesSections large_sections bytes.items) }
{
    let mut module = Module::new(alloc)?;
    module.section(&memories(alloc)?)?;
    module.section(&globals(alloc)?)?;
    Ok(module.finish())
}

/// Returns a memory of 1 page, which grows to 8589934592 at most.
fn memories<A: Allocator + Copy>(alloc: A) -> Result<MemorySection<A>>
    ensures { IfOk result (λ section. ContainsMemories section (large_memory ∷ [])) }
{
    let mut section = MemorySection::new(alloc);
    section.memory(MemoryType {
        minimum: 1,
        maximum: Some(8589934592),
        memory64: true,
        shared: false,
        page_size_log2: None,
    })?;
    Ok(section)
}

/// Returns a global of the number -1099511627776.
fn globals<A: Allocator + Copy>(alloc: A) -> Result<GlobalSection<A>>
    ensures { IfOk result (λ section. ContainsGlobals section (large_constant ∷ [])) }
{
    let global_type = GlobalType {
        val_type: ValType::I64,
        mutable: false,
        shared: false,
    };
    let mut section = GlobalSection::new(alloc);
    section.global(global_type, &ConstExpr::i64_const(alloc, -1099511627776)?)?;
    Ok(section)
}
