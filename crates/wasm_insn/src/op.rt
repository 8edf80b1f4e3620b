// Opcodes, and the shapes of their immediates.
ghost use Rattle.std.specs.Prelude.{⊤, ◌≢◌, IfOk, IfErr};
ghost use Rattle.wasm_insn.specs.Opcodes.{op_encoding};
ghost use Rattle.wasm_base.specs.Numbers.{padded_of};
ghost use Rattle.wasm_base.specs.Decoding.{Decodes, Rejects};
ghost use Rattle.wasm_insn.specs.Plain.{opcode};
ghost use Rattle.wasm_base.specs.declared.fault.ReadFault.TheVariants.{Memory};

use std::alloc::Allocator;
use wasm_base::{DecodeError, Encode, Grammar, Readable, Result};

/// An opcode: a byte, or a prefix and a number.
#[derive(Clone, Copy, PartialEq, Eq, Hash, Debug)]
pub enum Op {
    Byte(u8),
    Prefixed(u8, u32),
}

/// The list of immediates of an opcode.
#[derive(Clone, Copy, PartialEq, Eq, Hash, Debug)]
pub enum Shape {
    // begin: written by tools/instructions
    Nothing,
    /// A number.
    U,
    /// Two numbers.
    Uu,
    /// A memory argument.
    M,
    /// A memory argument and a lane.
    Ml,
    /// A lane.
    L,
    /// A block type.
    B,
    /// A heap type.
    H,
    /// An ordering.
    O,
    /// An ordering and a number.
    Ou,
    /// An ordering and two numbers.
    Ouu,
    /// A signed number of 32 bits.
    C32,
    /// A signed number of 64 bits.
    C64,
    /// A float of 32 bits.
    F32,
    /// A float of 64 bits.
    F64,
    /// A vector of 128 bits.
    V,
    /// Sixteen lanes.
    Ls,
    /// Labels, and a default label.
    Bt,
    /// A block type and catch clauses.
    Tt,
    /// Value types.
    Ts,
    /// Flags, a label and two heap types.
    K,
    /// A number and handle clauses.
    Uh,
    /// Two numbers and handle clauses.
    Uuh,
    // end: written by tools/instructions
}

/// Encodes the byte, or the prefix and the number.
impl Encode for Op {
    ghost encoding = { op_encoding };

    ghost encodable = { λ _. ⊤ };

    #[inline(always)]
    fn encode<A: Allocator>(&self, sink: &mut Vec<u8, A>) -> Result<()> {
        match *self {
            Op::Byte(byte) => byte.encode(sink),
            Op::Prefixed(prefix, number) => (prefix, number).encode(sink),
        }
    }
}

/// Decodes the opcode at the front, and returns it with the remaining bytes.
#[tactic(auto, using(crate::proofs::DecodeInstructions::opcode_steps))]
#[inline]
pub(crate) fn read_op<'a, A: Allocator + Copy, G: Grammar>(
    bytes: &'a [u8],
    alloc: A,
) -> Result<(Op, &'a [u8]), DecodeError>
    ensures found { IfOk result (λ x. Decodes opcode (padded_of G.grammar) bytes.now x.0 x.1.now) }
    ensures none { IfErr result (λ e. e.cause ≢ Memory → Rejects opcode (padded_of G.grammar) bytes.now) }
    ensures no_memory { IfErr result (λ e. e.cause ≢ Memory) }
{
    let (byte, rest) = <u8 as Readable<'a, A, G>>::read(bytes, alloc)?;
    if byte < 0xFB {
        return Ok((Op::Byte(byte), rest));
    }
    if byte == 0xFF {
        return Ok((Op::Byte(byte), rest));
    }
    let (number, rest) = <u32 as Readable<'a, A, G>>::read(rest, alloc)?;
    Ok((Op::Prefixed(byte, number), rest))
}
