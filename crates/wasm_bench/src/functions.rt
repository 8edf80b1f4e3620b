// The workload of the function section.
ghost use Rattle.std.specs.Prelude.{◌≡◌, IfOk, OnErr, map};
ghost use Rattle.wasm_base.specs.Numbers.{unsigned_encoding};
ghost use Rattle.wasm_bench.specs.Answers.{FunctionsAnswer, Outcome};

use crate::answers::{Fault, answer, number};
use std::alloc::Global;
use wasm_base::Result;
use wasm_sections::FunctionSection;

/// Returns a section of functions of these types.
fn build(alloc: Global, types: &[u32]) -> Result<FunctionSection>
    ensures { IfOk result (λ section. section ≡ map unsigned_encoding types.now) }
{
    let mut section = FunctionSection::new(alloc);
    for &type_index in types {
        section.function(type_index)?;
    }
    Ok(section)
}

fn function_section(alloc: Global, types: &[u32], phase: u32, out: &mut [u8]) -> Result<u64, Fault>
    ensures ok { IfOk result (λ n. FunctionsAnswer types.now phase out.old out.new n) }
    ensures err { OnErr result (out.new ≡ out.old) }
{
    let section = build(alloc, types)?;
    answer(alloc, &section, phase, out)
}

/// Builds a section of functions of the types of these indices.
#[unsafe(no_mangle)]
pub extern "C" fn wb_functions(alloc: Global, types: &[u32], phase: u32, out: &mut [u8]) -> u64
    ensures { Outcome out.old out.new result (FunctionsAnswer types.now phase out.old out.new result) }
{
    number(function_section(alloc, types, phase, out))
}
