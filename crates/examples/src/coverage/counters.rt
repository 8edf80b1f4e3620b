// Counters, their exports, and the instructions that count.
ghost use Rattle.std.specs.Prelude.{◌≡◌, ◌+◌, ◌++◌, IfOk, codes, decimal, replicate, string_bytes};
ghost use Rattle.std.proofs.Common.{refl};
ghost use Rattle.wasm_sections.specs.Exports.{ContainsExports};
ghost use Rattle.wasm_sections.specs.Globals.{ContainsGlobals};
ghost use Rattle.examples.specs.Coverage.{counter, counter_exports, counting};

use super::numbers::Numbers;
use std::alloc::Allocator;
use wasm_base::{Refused, Result as Written, ValType};
use wasm_code::ConstExpr;
use wasm_insn::InstructionSink;
use wasm_remap::Prologue;
use wasm_sections::{ExportKind, ExportSection, GlobalSection, GlobalType};

/// Returns this many counters: mutable globals of 32 bits, initially 0.
pub(super) fn counters<A: Allocator + Copy>(number: u32, alloc: A) -> Written<GlobalSection<A>>
    ensures { IfOk result (λ section. ContainsGlobals section (replicate number counter)) }
{
    let global_type = GlobalType {
        val_type: ValType::I32,
        mutable: true,
        shared: false,
    };
    let zero = ConstExpr::i32_const(alloc, 0)?;
    let mut section = GlobalSection::new(alloc);
    for _done in 0..number {
        section.global(global_type, &zero)?;
    }
    Ok(section)
}

/// Returns the name of the counter of a function.
fn counter_name<A: Allocator>(function: u32, alloc: A) -> Written<String<A>>
    ensures { IfOk result (λ name. string_bytes name ≡ codes "coverage." ++ decimal function) }
{
    let mut name = String::new(alloc);
    write!(name, "coverage.{function}")?;
    Ok(name)
}

/// Returns the exports of the counters, one for each body.
pub(super) fn exports<A: Allocator + Copy>(numbers: Numbers, alloc: A) -> Written<ExportSection<A>>
    ensures { IfOk result (λ section. ContainsExports section (counter_exports numbers.function numbers.counter numbers.bodies)) }
{
    let mut section = ExportSection::new(alloc);
    for body in 0..numbers.bodies {
        let (Some(function), Some(counter)) = (
            numbers.function.checked_add(body),
            numbers.counter.checked_add(body),
        ) else {
            return Err(Refused::TooLong);
        };
        let name = counter_name(function, alloc)?;
        section.export(name.as_str(), ExportKind::Global, counter)?;
    }
    Ok(section)
}

/// Adds 1 to the counter of each body.
#[derive(Clone, Copy)]
pub(super) struct Counting {
    /// The index of the first counter.
    pub(super) first: u32,
}

impl Prologue for Counting {
    ghost code = { λ it body. counting (it.first + body) };

    ghost closed = { λ _ _. refl };

    fn append<A: Allocator>(&self, body: u32, sink: &mut Vec<u8, A>) -> Written<()> {
        let Some(counter) = self.first.checked_add(body) else {
            return Err(Refused::TooLong);
        };
        let mut sink = InstructionSink::new(sink);
        sink.global_get(counter)?;
        sink.i32_const(1)?;
        sink.i32_add()?;
        sink.global_set(counter)
    }
}
