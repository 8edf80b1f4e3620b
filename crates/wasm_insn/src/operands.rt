// The operands of a decoded instruction, which borrow its bytes. Short encodings are decoded inline,
// all others out of line.
ghost use Rattle.std.specs.Prelude.{◌≡◌, ◌≢◌, ◌<◌, ◌⊎◌, true, false, ◌∷◌, List, IfOk, IfErr, IfSome, map};
ghost use Rattle.wasm_base.specs.Continuing.{RejectsWhole};
ghost use Rattle.wasm_base.specs.Groups.{signed_of};
ghost use Rattle.wasm_base.specs.Numbers.{padded_of, standard};
ghost use Rattle.wasm_base.specs.Decoding.{Rejects};
ghost use Rattle.wasm_base.specs.declared.fault.ReadFault.TheVariants.{Memory};
ghost use Rattle.wasm_insn.specs.Arguments.{Argument};
ghost use Rattle.wasm_insn.specs.Operands.{has_case, AreOperands, AreNoOperands, DecodesOperands, DecodesOperation};
ghost use Rattle.wasm_insn.specs.Parts.{parts_of};
ghost use Rattle.wasm_insn.specs.Plain.{instruction, arguments};
ghost use Rattle.wasm_insn.specs.Table.{table};
ghost use Rattle.wasm_insn.specs.Views.{argument_view};

use crate::arguments::{Arg, list_one, read_any};
use crate::op::{Op, Shape, read_op};
use crate::table::byte_shape;
use crate::walk::walk_any;
use std::alloc::Allocator;
use wasm_base::{DecodeError, Discard, Grammar, ReadFault, Readable, Result, Standard};
use wasm_immediates::{BlockType, MemArg, MemArgTarget};

/// The operands (immediates) of a decoded instruction. They borrow the bytes that were decoded, and
/// need no memory.
#[derive(Clone, Copy, Debug)]
pub enum Operands<'a> {
    /// No operands.
    Nothing,
    /// A number of 32 bits: an index or a label.
    U32(u32),
    /// A signed constant of 32 bits.
    S32(i32),
    /// A signed constant of 64 bits.
    S64(i64),
    Mem(MemArg),
    Block(BlockType),
    /// The operands of a shape without a case of its own: the shape, and their encoding.
    Encoded(Shape, &'a [u8]),
}

impl<'a> Operands<'a> {
    /// Decodes the operands into a list of exactly their number.
    ///
    /// # Errors
    ///
    /// Every error except `Memory` means that no decoded instruction has these operands: `Encoded`
    /// has bytes that do not encode immediates of the shape, or bytes after them, or a shape with a
    /// case of its own.
    #[inline(always)]
    pub fn to_args<A: Allocator + Copy>(self, alloc: A) -> Result<Vec<Arg<A>, A>, DecodeError>
        ensures found { IfOk result (λ args. AreOperands self.entry (map argument_view args.items)) }
        ensures only { IfOk result (λ args. (xs : List Argument) → AreOperands self.entry xs → map argument_view args.items ≡ xs) }
        ensures none { IfErr result (λ e. e.cause ≢ Memory → AreNoOperands self.entry) }
    {
        match self {
            Operands::Nothing => Ok(Vec::new(alloc)),
            Operands::U32(n) => list_one(alloc, Arg::U32(n)),
            Operands::S32(n) => list_one(alloc, Arg::S32(n)),
            Operands::S64(n) => list_one(alloc, Arg::S64(n)),
            Operands::Mem(memory) => list_one(alloc, Arg::Mem(memory)),
            Operands::Block(block) => list_one(alloc, Arg::Block(block)),
            Operands::Encoded(shape, bytes) => decode_encoded(shape, bytes, alloc),
        }
    }
}

/// Returns whether operands of this shape have a case of their own in [`Operands`].
fn has_own_case(shape: Shape) -> bool
    ensures { result ≡ has_case shape }
{
    matches!(
        shape,
        Shape::Nothing | Shape::U | Shape::C32 | Shape::C64 | Shape::M | Shape::B
    )
}

/// Decodes the operands of a shape without a case of its own, which occupy all of the bytes.
#[inline(never)]
fn decode_encoded<A: Allocator + Copy>(
    shape: Shape,
    bytes: &[u8],
    alloc: A,
) -> Result<Vec<Arg<A>, A>, DecodeError>
    ensures shape { IfOk result (λ _. has_case shape ≡ false) }
    ensures found { IfOk result (λ args. arguments (parts_of shape) standard bytes.now (map argument_view args.items)) }
    ensures none { IfErr result (λ e. e.cause ≢ Memory → (has_case shape ≡ true) ⊎ RejectsWhole (arguments (parts_of shape)) standard bytes.now) }
{
    if has_own_case(shape) {
        return Err(ReadFault::UnknownTag.at(bytes));
    }
    let (args, rest) = read_any::<A, Standard>(shape, bytes, alloc)?;
    if rest.is_empty() {
        Ok(args)
    } else {
        Err(ReadFault::SizeMismatch.at(rest))
    }
}

/// Returns the first byte and the others, if the first byte is below 128: it is a number by itself.
#[inline(always)]
fn one_byte(bytes: &[u8]) -> Option<(u8, &[u8])>
    ensures first { IfSome result (λ x. bytes.now ≡ x.0 ∷ x.1.now) }
    ensures small { IfSome result (λ x. x.0 < 0x80) }
{
    let [byte, rest @ ..] = bytes else {
        return None;
    };
    if *byte < 0x80 {
        Some((*byte, rest))
    } else {
        None
    }
}

/// Returns the number that one byte encodes in two's complement.
#[inline(always)]
fn signed_byte(byte: u8) -> i16
    requires { byte < 0x80 }
    ensures { result ≡ signed_of byte 0x80 byte }
{
    if byte < 0x40 {
        i16::from(byte)
    } else {
        i16::from(byte) - 0x80
    }
}

/// Decodes the operands of the most frequent shapes if each of them has one byte. `None` says
/// nothing about the bytes.
#[inline(always)]
#[tactic(auto, using(crate::proofs::DecodeOperands::short_steps))]
fn read_short_operands<'a, G: Grammar>(
    shape: Shape,
    bytes: &'a [u8],
) -> Option<(Operands<'a>, &'a [u8])>
    ensures { IfSome result (λ x. DecodesOperands (parts_of shape) (padded_of G.grammar) bytes.now x.0 x.1.now) }
{
    match shape {
        Shape::Nothing => Some((Operands::Nothing, bytes)),
        Shape::U => {
            let (byte, rest) = one_byte(bytes)?;
            Some((Operands::U32(u32::from(byte)), rest))
        }
        Shape::C32 => {
            let (byte, rest) = one_byte(bytes)?;
            Some((Operands::S32(i32::from(signed_byte(byte))), rest))
        }
        Shape::C64 => {
            let (byte, rest) = one_byte(bytes)?;
            Some((Operands::S64(i64::from(signed_byte(byte))), rest))
        }
        Shape::M => {
            let (align, rest) = one_byte(bytes)?;
            if align >= 0x10 {
                return None;
            }
            let (offset, rest) = one_byte(rest)?;
            let memory = MemArg {
                offset: u64::from(offset),
                align: u32::from(align),
                target: MemArgTarget::Memory(0),
                ordering: None,
            };
            Some((Operands::Mem(memory), rest))
        }
        Shape::B => {
            let (byte, rest) = one_byte(bytes)?;
            if byte != 0x40 {
                return None;
            }
            Some((Operands::Block(BlockType::Empty), rest))
        }
        _ => None,
    }
}

/// Decodes the instruction at the front if it has a one-byte opcode of the most frequent shapes,
/// and each of its operands has one byte. `None` says nothing about the bytes.
#[inline(always)]
pub(crate) fn read_short<'a, G: Grammar>(bytes: &'a [u8]) -> Option<(Op, Operands<'a>, &'a [u8])>
    ensures { IfSome result (λ x. DecodesOperation (instruction table) (padded_of G.grammar) bytes.now x.0 x.1 x.2.now) }
{
    let [byte, rest @ ..] = bytes else {
        return None;
    };
    if *byte >= 0xFB {
        return None;
    }
    let shape = byte_shape(*byte)?;
    let (operands, rest) = read_short_operands::<G>(shape, rest)?;
    Some((Op::Byte(*byte), operands, rest))
}

/// Decodes the operands of a shape without a case of its own: they are skipped, and their bytes
/// kept.
#[inline(never)]
fn read_encoded<'a, A: Allocator + Copy, G: Grammar>(
    shape: Shape,
    bytes: &'a [u8],
    alloc: A,
) -> Result<(Operands<'a>, &'a [u8]), DecodeError>
    requires { has_case shape ≡ false }
    ensures found { IfOk result (λ x. DecodesOperands (parts_of shape) (padded_of G.grammar) bytes.now x.0 x.1.now) }
    ensures none { IfErr result (λ e. e.cause ≢ Memory → Rejects (arguments (parts_of shape)) (padded_of G.grammar) bytes.now) }
    ensures no_memory { IfErr result (λ e. e.cause ≢ Memory) }
{
    let rest = walk_any::<A, G, _>(shape, bytes, alloc, &mut Discard)?;
    let (encoded, rest) = bytes.split_at(bytes.len() - rest.len());
    Ok((Operands::Encoded(shape, encoded), rest))
}

/// Decodes the operands of an opcode of this shape, and returns them with the remaining bytes.
#[tactic(auto, using(crate::proofs::DecodeOperands::operand_steps, crate::proofs::DecodeOperands::no_case))]
fn read_operands<'a, A: Allocator + Copy, G: Grammar>(
    shape: Shape,
    bytes: &'a [u8],
    alloc: A,
) -> Result<(Operands<'a>, &'a [u8]), DecodeError>
    ensures found { IfOk result (λ x. DecodesOperands (parts_of shape) (padded_of G.grammar) bytes.now x.0 x.1.now) }
    ensures none { IfErr result (λ e. e.cause ≢ Memory → Rejects (arguments (parts_of shape)) (padded_of G.grammar) bytes.now) }
    ensures no_memory { IfErr result (λ e. e.cause ≢ Memory) }
{
    match shape {
        Shape::Nothing => Ok((Operands::Nothing, bytes)),
        Shape::U => {
            let (number, rest) = <u32 as Readable<'a, A, G>>::read(bytes, alloc)?;
            Ok((Operands::U32(number), rest))
        }
        Shape::C32 => {
            let (number, rest) = <i32 as Readable<'a, A, G>>::read(bytes, alloc)?;
            Ok((Operands::S32(number), rest))
        }
        Shape::C64 => {
            let (number, rest) = <i64 as Readable<'a, A, G>>::read(bytes, alloc)?;
            Ok((Operands::S64(number), rest))
        }
        Shape::M => {
            let (memory, rest) = <MemArg as Readable<'a, A, G>>::read(bytes, alloc)?;
            Ok((Operands::Mem(memory), rest))
        }
        Shape::B => {
            let (block, rest) = <BlockType as Readable<'a, A, G>>::read(bytes, alloc)?;
            Ok((Operands::Block(block), rest))
        }
        _ => read_encoded::<A, G>(shape, bytes, alloc),
    }
}

/// Decodes any instruction at the front. Out of line, for rare shapes and long numbers.
#[inline(never)]
#[tactic(auto, using(crate::proofs::DecodeOperands::operation_steps, crate::proofs::DecodeInstructions::instruction_steps))]
pub(crate) fn read_long<'a, A: Allocator + Copy, G: Grammar>(
    bytes: &'a [u8],
    alloc: A,
) -> Result<(Op, Operands<'a>, &'a [u8]), DecodeError>
    ensures found { IfOk result (λ x. DecodesOperation (instruction table) (padded_of G.grammar) bytes.now x.0 x.1 x.2.now) }
    ensures none { IfErr result (λ e. e.cause ≢ Memory → Rejects (instruction table) (padded_of G.grammar) bytes.now) }
    ensures no_memory { IfErr result (λ e. e.cause ≢ Memory) }
{
    let (op, rest) = read_op::<A, G>(bytes, alloc)?;
    let Some(shape) = op.shape() else {
        return Err(ReadFault::UnknownOpcode.at(bytes));
    };
    let (operands, rest) = read_operands::<A, G>(shape, rest, alloc)?;
    Ok((op, operands, rest))
}

/// Decodes the instruction at the front, and returns its opcode, its operands and the remaining
/// bytes. Nothing is allocated.
///
/// # Errors
///
/// An error means that no instruction is at the front.
#[inline(always)]
pub fn read_instruction<'a, A: Allocator + Copy, G: Grammar>(
    bytes: &'a [u8],
    alloc: A,
) -> Result<(Op, Operands<'a>, &'a [u8]), DecodeError>
    ensures found { IfOk result (λ x. DecodesOperation (instruction table) (padded_of G.grammar) bytes.now x.0 x.1 x.2.now) }
    ensures none { IfErr result (λ e. e.cause ≢ Memory → Rejects (instruction table) (padded_of G.grammar) bytes.now) }
    ensures no_memory { IfErr result (λ e. e.cause ≢ Memory) }
{
    if let Some(short) = read_short::<G>(bytes) {
        return Ok(short);
    }
    // Taken apart, so that the compiler keeps the results of both ways in registers.
    let (op, operands, rest) = read_long::<A, G>(bytes, alloc)?;
    Ok((op, operands, rest))
}
