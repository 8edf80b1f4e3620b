// The workload of a long line of calls.
ghost use Rattle.std.specs.Prelude.{◌≡◌, IfOk, OnErr};
ghost use Rattle.wasm_bench.specs.Answers.{CountedAnswer, Outcome};

use crate::answers::{Fault, answer, number};
use crate::bodies::with_locals;
use std::alloc::Global;
use wasm_base::Result;
use wasm_code::{CodeSection, Function};
use wasm_insn::{InstructionSink, MemArg, MemArgTarget};

/// Makes eight calls, with four operands.
fn eight_calls(
    sink: &mut InstructionSink<'_, Function>,
    index: u32,
    constant: u32,
    callee: u32,
    offset: u32,
) -> Result<()>
    ensures same_reference { sink.new.sink.ghost_name ≡ sink.old.sink.ghost_name }
{
    let argument = MemArg {
        offset: u64::from(offset),
        align: 2,
        target: MemArgTarget::Memory(0),
        ordering: None,
    };
    sink.local_get(index)?;
    sink.i32_const(constant.cast_signed())?;
    sink.i32_add()?;
    sink.call(callee)?;
    sink.local_set(index)?;
    sink.i32_load(argument)?;
    sink.br_if(1)?;
    sink.end()
}

/// Returns a function of eight calls for each four operands.
fn long_line(alloc: Global, operands: &[u32]) -> Result<Function, Fault> {
    let (rows, others) = operands.as_chunks::<4>();
    if !others.is_empty() {
        return Err(Fault::WrongInput);
    }
    let mut function = with_locals(alloc, &[])?;
    let mut sink = function.instructions();
    for &[index, constant, callee, offset] in rows {
        eight_calls(&mut sink, index, constant, callee, offset)?;
    }
    Ok(function)
}

fn line_section(alloc: Global, operands: &[u32], phase: u32, out: &mut [u8]) -> Result<u64, Fault>
    ensures ok { IfOk result (λ n. CountedAnswer 10 1 phase out.old out.new n) }
    ensures err { OnErr result (out.new ≡ out.old) }
{
    let function = long_line(alloc, operands)?;
    let mut code = CodeSection::new(alloc);
    code.function(&function)?;
    answer(alloc, &code, phase, out)
}

/// Builds a code section of one function: eight calls for each four operands. The input is the
/// operands, which need no decoding.
#[unsafe(no_mangle)]
pub extern "C" fn wb_line(alloc: Global, operands: &[u32], phase: u32, out: &mut [u8]) -> u64
    ensures { Outcome out.old out.new result (CountedAnswer 10 1 phase out.old out.new result) }
{
    number(line_section(alloc, operands, phase, out))
}
