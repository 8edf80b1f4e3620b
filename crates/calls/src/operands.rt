//! Callers of the instruction visitor that read operands, and prove their results.
ghost use Rattle.std.specs.Prelude.{◌≡◌, ◌≢◌, List, IfOk, IfErr, count_by};
ghost use Rattle.wasm_base.specs.Continuing.{RejectsWhole};
ghost use Rattle.wasm_base.specs.Decoding.{Decodes, Rejects};
ghost use Rattle.wasm_base.specs.Formats.{u32, vec};
ghost use Rattle.wasm_base.specs.Numbers.{padded, standard};
ghost use Rattle.wasm_base.specs.declared.fault.ReadFault.TheVariants.{Memory};
ghost use Rattle.wasm_code.specs.Bodies.{Body, body};
ghost use Rattle.wasm_insn.specs.Arguments.{Argument};
ghost use Rattle.wasm_insn.specs.Operands.{AreOperands};
ghost use Rattle.calls.specs.Called.{is_call};

use std::alloc::Allocator;
use wasm_base::{DecodeError, Result};
use wasm_code::{Decoded, Instructions, Members};
use wasm_insn::{Op, Operands};

/// Returns whether the instruction is a call of this function.
fn is_call_of(decoded: Decoded, function: u32) -> bool
    ensures { (xs : List Argument) → AreOperands decoded.entry.operands xs → result ≡ is_call function (record { op = decoded.entry.op; arguments = xs }) }
{
    match (decoded.op, decoded.operands) {
        (Op::Byte(0x10), Operands::U32(index)) => index == function,
        _ => false,
    }
}

/// Returns how many instructions of a body are calls of this function. The bytes are those of the
/// body without its size prefix.
pub fn count_calls<A: Allocator + Copy>(
    bytes: &[u8],
    function: u32,
    alloc: A,
) -> Result<usize, DecodeError>
    ensures found { IfOk result (λ n. (x : Body) × body padded bytes.now x × (count_by (is_call function) x.code ≡ n)) }
    ensures none { IfErr result (λ e. e.cause ≢ Memory → RejectsWhole body padded bytes.now) }
{
    let (_runs, mut instructions) = Instructions::of_body(bytes, alloc)?;
    let mut count = 0;
    while let Some(decoded) = instructions.next()? {
        if is_call_of(decoded, function) {
            count += 1;
        }
    }
    Ok(count)
}

/// Returns the labels at the front of the operands of `br_table`, and the bytes after them.
pub fn labels_of<'a, A: Allocator + Copy>(
    bytes: &'a [u8],
    alloc: A,
) -> Result<(Vec<u32, A>, &'a [u8]), DecodeError>
    ensures found { IfOk result (λ x. Decodes (vec u32) standard bytes.now x.0.items x.1.now) }
    ensures none { IfErr result (λ e. e.cause ≢ Memory → Rejects (vec u32) standard bytes.now) }
{
    let mut members = Members::<u32, A>::new(bytes, alloc)?;
    let mut labels = Vec::new(alloc);
    while let Some(label) = members.next() {
        labels.push(label?)?;
    }
    Ok((labels, members.rest()))
}
