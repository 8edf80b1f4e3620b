// Modules into which sections are inserted.
ghost use Rattle.std.specs.Prelude.{[], IfOk};
ghost use Rattle.std.proofs.Common.{refl};
ghost use Rattle.read_back.specs.Inserted.{CallsHit, HasCounter, StartsAt, calling, traced, traced_closed};
ghost use Rattle.wasm_remap.specs.Begun.{InsertsCode};
ghost use Rattle.wasm_remap.specs.Instrumented.{InstrumentsCode};

use std::alloc::Allocator;
use wasm_base::{Result as Written, ValType};
use wasm_code::ConstExpr;
use wasm_insn::{InstructionSink, Op};
use wasm_reader::Offsets;
use wasm_remap::{
    IndexTooLarge, Instrument, Position, Prologue, RemapError, Visited, insert_code, insert_import,
    insert_section, instrument_code,
};
use wasm_sections::{EntityType, GlobalSection, GlobalType, Import, StartSection};

/// Returns the module with an import of the function `hit` of `host`, of type 0, before all others.
pub fn with_hit<A: Allocator + Copy>(
    module: &[u8],
    alloc: A,
) -> Result<Vec<u8, A>, RemapError<IndexTooLarge>>
    ensures { IfOk result (λ new. CallsHit module.now new.items) }
{
    let hit = Import {
        module: "host",
        name: "hit",
        ty: EntityType::Function(0),
    };
    insert_import(module, alloc, &hit, Offsets::LeaveOut)
}

/// Returns the module with a mutable global of 32 bits after its own.
pub fn with_counter<A: Allocator + Copy>(
    module: &[u8],
    alloc: A,
) -> Result<Vec<u8, A>, RemapError<IndexTooLarge>>
    ensures { IfOk result (λ new. HasCounter module.now new.items) }
{
    let counter = GlobalType {
        val_type: ValType::I32,
        mutable: true,
        shared: false,
    };
    let mut globals = GlobalSection::new(alloc);
    globals.global(counter, &ConstExpr::i32_const(alloc, 0)?)?;
    insert_section(module, alloc, &globals, Position::Last)
}

/// Returns the module with another start function.
pub fn with_start<A: Allocator + Copy>(
    module: &[u8],
    function_index: u32,
    alloc: A,
) -> Result<Vec<u8, A>, RemapError<IndexTooLarge>>
    ensures { IfOk result (λ new. StartsAt function_index module.now new.items) }
{
    let start = StartSection { function_index };
    insert_section(module, alloc, &start, Position::Instead)
}

/// A call of function 0.
#[derive(Clone, Copy, Debug)]
pub struct CallsFirst;

impl Prologue for CallsFirst {
    ghost code = { λ _ _. calling };

    ghost closed = { λ _ _. refl };

    fn append<A: Allocator>(&self, _body: u32, sink: &mut Vec<u8, A>) -> Written<()> {
        InstructionSink::new(sink).call(0)
    }
}

/// Returns the module whose bodies first call function 0.
pub fn with_calls<A: Allocator + Copy>(
    module: &[u8],
    alloc: A,
) -> Result<Vec<u8, A>, RemapError<IndexTooLarge>>
    ensures { IfOk result (λ new. InsertsCode (λ _. calling) module.now new.items) }
{
    insert_code(module, alloc, &CallsFirst)
}

/// A call of function 0 before each call.
#[derive(Clone, Copy, Debug)]
pub struct TracesCalls;

impl Instrument for TracesCalls {
    ghost before = { λ _ _ _ i. traced i.op };

    ghost after = { λ _ _ _ _. [] };

    ghost before_closed = { λ _ _ _ i. traced_closed i.op };

    ghost after_closed = { λ _ _ _ _. refl };

    fn append_before<A: Allocator>(
        &self,
        visited: &Visited<'_>,
        sink: &mut Vec<u8, A>,
    ) -> Written<()> {
        match visited.op {
            Op::Byte(0x10) => InstructionSink::new(sink).call(0),
            _ => Ok(()),
        }
    }

    fn append_after<A: Allocator>(
        &self,
        _visited: &Visited<'_>,
        _sink: &mut Vec<u8, A>,
    ) -> Written<()> {
        Ok(())
    }
}

/// Returns the module that calls function 0 before each of its own calls.
pub fn with_traces<A: Allocator + Copy>(
    module: &[u8],
    alloc: A,
) -> Result<Vec<u8, A>, RemapError<IndexTooLarge>>
    ensures { IfOk result (λ new. InstrumentsCode (λ _ _ i. traced i.op) (λ _ _ _. []) module.now new.items) }
{
    instrument_code(module, alloc, &TracesCalls)
}
