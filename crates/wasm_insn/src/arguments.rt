// The arguments (immediates) of decoded instructions: decoded, and encoded again.
ghost use Rattle.std.specs.Prelude.{◌≡◌, ◌≢◌, ◌++◌, [], ◌∷◌, IfOk, IfErr, Err, OnOk, OnErr, map, List};
ghost use Rattle.std.specs.List.{flat_map};
ghost use Rattle.wasm_base.specs.Numbers.{padded_of};
ghost use Rattle.wasm_base.specs.Decoding.{Decodes, Rejects};
ghost use Rattle.wasm_base.specs.declared.refused.Refused.TheVariants.{TooLong};
ghost use Rattle.wasm_insn.specs.Parts.{IsList, parts_of};
ghost use Rattle.wasm_insn.specs.declared.part.Part.TheVariants as parts;
ghost use Rattle.wasm_insn.specs.Arguments.{argument_encodable, argument_encoding};
ghost use Rattle.wasm_insn.specs.Plain.{part, arguments, AreWellFormed};
ghost use Rattle.wasm_insn.specs.Views.{argument_view};
ghost use Rattle.wasm_base.specs.Minimal.{IsFrontOf};
ghost use Rattle.wasm_base.specs.declared.fault.ReadFault.TheVariants.{Memory};

use crate::op::Shape;
use crate::part::Part;
use std::alloc::{Allocator, Global};
use wasm_base::{DecodeError, Encode, Grammar, HeapType, ReadFault, Readable, Result, ValType};
use wasm_immediates::{BlockType, Catch, Handle, Ieee32, Ieee64, MemArg, Ordering};

/// An argument of an instruction, decoded from one immediate of its shape.
#[derive(Debug, Drop)]
pub enum Arg<A: Allocator = Global> {
    /// A number of 32 bits: an index, a label or a length.
    U32(u32),
    /// A signed constant of 32 bits.
    S32(i32),
    /// A signed constant of 64 bits.
    S64(i64),
    F32(Ieee32),
    F64(Ieee64),
    /// A vector of 128 bits, as a number in two's complement.
    V128(i128),
    Mem(MemArg),
    Lane(u8),
    /// The lanes of a shuffle.
    Lanes([u8; 16]),
    Block(BlockType),
    Heap(HeapType),
    Order(Ordering),
    /// The labels of a branch table, without its default.
    Labels(Vec<u32, A>),
    Catches(Vec<Catch, A>),
    Types(Vec<ValType, A>),
    Handles(Vec<Handle, A>),
    /// The flags of a cast, below 4: bit 0 is set if the first of its two types is nullable, bit 1
    /// if the second is.
    Flag(u8),
}

/// Decodes an unsigned number of 32 bits.
#[inline(always)]
#[tactic(auto, using(crate::proofs::DecodeArguments::unsigned_part))]
fn read_unsigned<'a, A: Allocator + Copy, G: Grammar>(
    bytes: &'a [u8],
    alloc: A,
) -> Result<(Arg<A>, &'a [u8]), DecodeError>
    ensures found { IfOk result (λ x. Decodes (part parts.Unsigned) (padded_of G.grammar) bytes.now (argument_view x.0) x.1.now) }
    ensures none { IfErr result (λ e. e.cause ≢ Memory → Rejects (part parts.Unsigned) (padded_of G.grammar) bytes.now) }
    ensures no_memory { IfErr result (λ e. e.cause ≢ Memory) }
{
    let (value, rest) = <u32 as Readable<'a, A, G>>::read(bytes, alloc)?;
    Ok((Arg::U32(value), rest))
}

/// Decodes a signed number of 32 bits.
#[inline(always)]
#[tactic(auto, using(crate::proofs::DecodeArguments::signed32_part))]
fn read_signed32<'a, A: Allocator + Copy, G: Grammar>(
    bytes: &'a [u8],
    alloc: A,
) -> Result<(Arg<A>, &'a [u8]), DecodeError>
    ensures found { IfOk result (λ x. Decodes (part parts.Signed32) (padded_of G.grammar) bytes.now (argument_view x.0) x.1.now) }
    ensures none { IfErr result (λ e. e.cause ≢ Memory → Rejects (part parts.Signed32) (padded_of G.grammar) bytes.now) }
    ensures no_memory { IfErr result (λ e. e.cause ≢ Memory) }
{
    let (value, rest) = <i32 as Readable<'a, A, G>>::read(bytes, alloc)?;
    Ok((Arg::S32(value), rest))
}

/// Decodes a signed number of 64 bits.
#[inline(always)]
#[tactic(auto, using(crate::proofs::DecodeArguments::signed64_part))]
fn read_signed64<'a, A: Allocator + Copy, G: Grammar>(
    bytes: &'a [u8],
    alloc: A,
) -> Result<(Arg<A>, &'a [u8]), DecodeError>
    ensures found { IfOk result (λ x. Decodes (part parts.Signed64) (padded_of G.grammar) bytes.now (argument_view x.0) x.1.now) }
    ensures none { IfErr result (λ e. e.cause ≢ Memory → Rejects (part parts.Signed64) (padded_of G.grammar) bytes.now) }
    ensures no_memory { IfErr result (λ e. e.cause ≢ Memory) }
{
    let (value, rest) = <i64 as Readable<'a, A, G>>::read(bytes, alloc)?;
    Ok((Arg::S64(value), rest))
}

/// Decodes a float of 32 bits.
#[inline(never)]
#[tactic(auto, using(crate::proofs::DecodeArguments::float32_part))]
fn read_float32<'a, A: Allocator + Copy, G: Grammar>(
    bytes: &'a [u8],
    alloc: A,
) -> Result<(Arg<A>, &'a [u8]), DecodeError>
    ensures found { IfOk result (λ x. Decodes (part parts.Float32) (padded_of G.grammar) bytes.now (argument_view x.0) x.1.now) }
    ensures none { IfErr result (λ e. e.cause ≢ Memory → Rejects (part parts.Float32) (padded_of G.grammar) bytes.now) }
    ensures no_memory { IfErr result (λ e. e.cause ≢ Memory) }
{
    let (value, rest) = <Ieee32 as Readable<'a, A, G>>::read(bytes, alloc)?;
    Ok((Arg::F32(value), rest))
}

/// Decodes a float of 64 bits.
#[inline(never)]
#[tactic(auto, using(crate::proofs::DecodeArguments::float64_part))]
fn read_float64<'a, A: Allocator + Copy, G: Grammar>(
    bytes: &'a [u8],
    alloc: A,
) -> Result<(Arg<A>, &'a [u8]), DecodeError>
    ensures found { IfOk result (λ x. Decodes (part parts.Float64) (padded_of G.grammar) bytes.now (argument_view x.0) x.1.now) }
    ensures none { IfErr result (λ e. e.cause ≢ Memory → Rejects (part parts.Float64) (padded_of G.grammar) bytes.now) }
    ensures no_memory { IfErr result (λ e. e.cause ≢ Memory) }
{
    let (value, rest) = <Ieee64 as Readable<'a, A, G>>::read(bytes, alloc)?;
    Ok((Arg::F64(value), rest))
}

/// Decodes a vector of 128 bits.
#[inline(never)]
#[tactic(auto, using(crate::proofs::DecodeArguments::vector_part))]
fn read_vector<'a, A: Allocator + Copy, G: Grammar>(
    bytes: &'a [u8],
    alloc: A,
) -> Result<(Arg<A>, &'a [u8]), DecodeError>
    ensures found { IfOk result (λ x. Decodes (part parts.Vector) (padded_of G.grammar) bytes.now (argument_view x.0) x.1.now) }
    ensures none { IfErr result (λ e. e.cause ≢ Memory → Rejects (part parts.Vector) (padded_of G.grammar) bytes.now) }
    ensures no_memory { IfErr result (λ e. e.cause ≢ Memory) }
{
    let (value, rest) = <i128 as Readable<'a, A, G>>::read(bytes, alloc)?;
    Ok((Arg::V128(value), rest))
}

/// Decodes a memory argument.
#[inline(always)]
#[tactic(auto, using(crate::proofs::DecodeArguments::memory_part))]
fn read_memory<'a, A: Allocator + Copy, G: Grammar>(
    bytes: &'a [u8],
    alloc: A,
) -> Result<(Arg<A>, &'a [u8]), DecodeError>
    ensures found { IfOk result (λ x. Decodes (part parts.Memory) (padded_of G.grammar) bytes.now (argument_view x.0) x.1.now) }
    ensures none { IfErr result (λ e. e.cause ≢ Memory → Rejects (part parts.Memory) (padded_of G.grammar) bytes.now) }
    ensures no_memory { IfErr result (λ e. e.cause ≢ Memory) }
{
    let (value, rest) = <MemArg as Readable<'a, A, G>>::read(bytes, alloc)?;
    Ok((Arg::Mem(value), rest))
}

/// Decodes a lane.
#[tactic(auto, using(crate::proofs::DecodeArguments::lane_part))]
fn read_lane<'a, A: Allocator + Copy, G: Grammar>(
    bytes: &'a [u8],
    alloc: A,
) -> Result<(Arg<A>, &'a [u8]), DecodeError>
    ensures found { IfOk result (λ x. Decodes (part parts.Lane) (padded_of G.grammar) bytes.now (argument_view x.0) x.1.now) }
    ensures none { IfErr result (λ e. e.cause ≢ Memory → Rejects (part parts.Lane) (padded_of G.grammar) bytes.now) }
    ensures no_memory { IfErr result (λ e. e.cause ≢ Memory) }
{
    let (value, rest) = <u8 as Readable<'a, A, G>>::read(bytes, alloc)?;
    Ok((Arg::Lane(value), rest))
}

/// Decodes sixteen lanes.
#[inline(never)]
#[tactic(auto, using(crate::proofs::DecodeArguments::lanes_part))]
fn read_lanes<'a, A: Allocator + Copy, G: Grammar>(
    bytes: &'a [u8],
    alloc: A,
) -> Result<(Arg<A>, &'a [u8]), DecodeError>
    ensures found { IfOk result (λ x. Decodes (part parts.Lanes) (padded_of G.grammar) bytes.now (argument_view x.0) x.1.now) }
    ensures none { IfErr result (λ e. e.cause ≢ Memory → Rejects (part parts.Lanes) (padded_of G.grammar) bytes.now) }
    ensures no_memory { IfErr result (λ e. e.cause ≢ Memory) }
{
    let (value, rest) = <[u8; 16] as Readable<'a, A, G>>::read(bytes, alloc)?;
    Ok((Arg::Lanes(value), rest))
}

/// Decodes a block type.
#[inline(always)]
#[tactic(auto, using(crate::proofs::DecodeArguments::block_part))]
fn read_block<'a, A: Allocator + Copy, G: Grammar>(
    bytes: &'a [u8],
    alloc: A,
) -> Result<(Arg<A>, &'a [u8]), DecodeError>
    ensures found { IfOk result (λ x. Decodes (part parts.Block) (padded_of G.grammar) bytes.now (argument_view x.0) x.1.now) }
    ensures none { IfErr result (λ e. e.cause ≢ Memory → Rejects (part parts.Block) (padded_of G.grammar) bytes.now) }
    ensures no_memory { IfErr result (λ e. e.cause ≢ Memory) }
{
    let (value, rest) = <BlockType as Readable<'a, A, G>>::read(bytes, alloc)?;
    Ok((Arg::Block(value), rest))
}

/// Decodes a heap type.
#[inline(never)]
#[tactic(auto, using(crate::proofs::DecodeArguments::heap_part))]
fn read_heap<'a, A: Allocator + Copy, G: Grammar>(
    bytes: &'a [u8],
    alloc: A,
) -> Result<(Arg<A>, &'a [u8]), DecodeError>
    ensures found { IfOk result (λ x. Decodes (part parts.Heap) (padded_of G.grammar) bytes.now (argument_view x.0) x.1.now) }
    ensures none { IfErr result (λ e. e.cause ≢ Memory → Rejects (part parts.Heap) (padded_of G.grammar) bytes.now) }
    ensures no_memory { IfErr result (λ e. e.cause ≢ Memory) }
{
    let (value, rest) = <HeapType as Readable<'a, A, G>>::read(bytes, alloc)?;
    Ok((Arg::Heap(value), rest))
}

/// Decodes an ordering.
#[inline(never)]
#[tactic(auto, using(crate::proofs::DecodeArguments::ordering_part))]
fn read_ordering<'a, A: Allocator + Copy, G: Grammar>(
    bytes: &'a [u8],
    alloc: A,
) -> Result<(Arg<A>, &'a [u8]), DecodeError>
    ensures found { IfOk result (λ x. Decodes (part parts.Ordering) (padded_of G.grammar) bytes.now (argument_view x.0) x.1.now) }
    ensures none { IfErr result (λ e. e.cause ≢ Memory → Rejects (part parts.Ordering) (padded_of G.grammar) bytes.now) }
    ensures no_memory { IfErr result (λ e. e.cause ≢ Memory) }
{
    let (value, rest) = <Ordering as Readable<'a, A, G>>::read(bytes, alloc)?;
    Ok((Arg::Order(value), rest))
}

/// Decodes a vector of labels.
#[inline(never)]
#[tactic(auto, using(crate::proofs::DecodeArguments::labels_part))]
fn read_labels<'a, A: Allocator + Copy, G: Grammar>(
    bytes: &'a [u8],
    alloc: A,
) -> Result<(Arg<A>, &'a [u8]), DecodeError>
    ensures found { IfOk result (λ x. Decodes (part parts.Labels) (padded_of G.grammar) bytes.now (argument_view x.0) x.1.now) }
    ensures none { IfErr result (λ e. e.cause ≢ Memory → Rejects (part parts.Labels) (padded_of G.grammar) bytes.now) }
{
    let (value, rest) = <Vec<u32, A> as Readable<'a, A, G>>::read(bytes, alloc)?;
    Ok((Arg::Labels(value), rest))
}

/// Decodes a vector of catch clauses.
#[inline(never)]
#[tactic(auto, using(crate::proofs::DecodeArguments::catches_part))]
fn read_catches<'a, A: Allocator + Copy, G: Grammar>(
    bytes: &'a [u8],
    alloc: A,
) -> Result<(Arg<A>, &'a [u8]), DecodeError>
    ensures found { IfOk result (λ x. Decodes (part parts.Catches) (padded_of G.grammar) bytes.now (argument_view x.0) x.1.now) }
    ensures none { IfErr result (λ e. e.cause ≢ Memory → Rejects (part parts.Catches) (padded_of G.grammar) bytes.now) }
{
    let (value, rest) = <Vec<Catch, A> as Readable<'a, A, G>>::read(bytes, alloc)?;
    Ok((Arg::Catches(value), rest))
}

/// Decodes a vector of value types.
#[inline(never)]
#[tactic(auto, using(crate::proofs::DecodeArguments::types_part))]
fn read_types<'a, A: Allocator + Copy, G: Grammar>(
    bytes: &'a [u8],
    alloc: A,
) -> Result<(Arg<A>, &'a [u8]), DecodeError>
    ensures found { IfOk result (λ x. Decodes (part parts.Types) (padded_of G.grammar) bytes.now (argument_view x.0) x.1.now) }
    ensures none { IfErr result (λ e. e.cause ≢ Memory → Rejects (part parts.Types) (padded_of G.grammar) bytes.now) }
{
    let (value, rest) = <Vec<ValType, A> as Readable<'a, A, G>>::read(bytes, alloc)?;
    Ok((Arg::Types(value), rest))
}

/// Decodes a vector of handle clauses.
#[inline(never)]
#[tactic(auto, using(crate::proofs::DecodeArguments::handles_part))]
fn read_handles<'a, A: Allocator + Copy, G: Grammar>(
    bytes: &'a [u8],
    alloc: A,
) -> Result<(Arg<A>, &'a [u8]), DecodeError>
    ensures found { IfOk result (λ x. Decodes (part parts.Handles) (padded_of G.grammar) bytes.now (argument_view x.0) x.1.now) }
    ensures none { IfErr result (λ e. e.cause ≢ Memory → Rejects (part parts.Handles) (padded_of G.grammar) bytes.now) }
{
    let (value, rest) = <Vec<Handle, A> as Readable<'a, A, G>>::read(bytes, alloc)?;
    Ok((Arg::Handles(value), rest))
}

/// Decodes the flags of a cast.
#[tactic(auto, using(crate::proofs::DecodeArguments::flag_part))]
fn read_flag<'a, A: Allocator + Copy, G: Grammar>(
    bytes: &'a [u8],
    alloc: A,
) -> Result<(Arg<A>, &'a [u8]), DecodeError>
    ensures found { IfOk result (λ x. Decodes (part parts.Flag) (padded_of G.grammar) bytes.now (argument_view x.0) x.1.now) }
    ensures none { IfErr result (λ e. e.cause ≢ Memory → Rejects (part parts.Flag) (padded_of G.grammar) bytes.now) }
    ensures no_memory { IfErr result (λ e. e.cause ≢ Memory) }
{
    let (value, rest) = <u8 as Readable<'a, A, G>>::read(bytes, alloc)?;
    if value < 4 {
        Ok((Arg::Flag(value), rest))
    } else {
        Err(ReadFault::UnknownTag.just_before(rest))
    }
}

/// Decodes one argument. Rare and long arms are not inlined: with all of them inline, the compiler
/// moves the result of each arm through all of them.
pub(crate) fn read_part<'a, A: Allocator + Copy, G: Grammar>(
    wanted: Part,
    bytes: &'a [u8],
    alloc: A,
) -> Result<(Arg<A>, &'a [u8]), DecodeError>
    ensures found { IfOk result (λ x. Decodes (part wanted) (padded_of G.grammar) bytes.now (argument_view x.0) x.1.now) }
    ensures none { IfErr result (λ e. e.cause ≢ Memory → Rejects (part wanted) (padded_of G.grammar) bytes.now) }
    ensures no_memory { IfErr result (λ e. e.cause ≡ Memory → IsList wanted) }
{
    match wanted {
        Part::Unsigned => read_unsigned::<A, G>(bytes, alloc),
        Part::Signed32 => read_signed32::<A, G>(bytes, alloc),
        Part::Signed64 => read_signed64::<A, G>(bytes, alloc),
        Part::Float32 => read_float32::<A, G>(bytes, alloc),
        Part::Float64 => read_float64::<A, G>(bytes, alloc),
        Part::Vector => read_vector::<A, G>(bytes, alloc),
        Part::Memory => read_memory::<A, G>(bytes, alloc),
        Part::Lane => read_lane::<A, G>(bytes, alloc),
        Part::Lanes => read_lanes::<A, G>(bytes, alloc),
        Part::Block => read_block::<A, G>(bytes, alloc),
        Part::Heap => read_heap::<A, G>(bytes, alloc),
        Part::Ordering => read_ordering::<A, G>(bytes, alloc),
        Part::Labels => read_labels::<A, G>(bytes, alloc),
        Part::Catches => read_catches::<A, G>(bytes, alloc),
        Part::Types => read_types::<A, G>(bytes, alloc),
        Part::Handles => read_handles::<A, G>(bytes, alloc),
        Part::Flag => read_flag::<A, G>(bytes, alloc),
    }
}

/// Decodes one argument for each of `wanted`, appends it to `args`, and returns the remaining
/// bytes.
fn read_parts<'a, A: Allocator + Copy, G: Grammar>(
    wanted: &[Part],
    bytes: &'a [u8],
    alloc: A,
    args: &mut Vec<Arg<A>, A>,
) -> Result<&'a [u8], DecodeError>
    requires { args.old.items ≡ [] }
    ensures found { IfOk result (λ rest. Decodes (arguments wanted.now) (padded_of G.grammar) bytes.now (map argument_view args.new.items) rest.now) }
    ensures none { IfErr result (λ e. e.cause ≢ Memory → Rejects (arguments wanted.now) (padded_of G.grammar) bytes.now) }
{
    let mut rest = bytes;
    for part in wanted {
        let (arg, after) = read_part::<A, G>(*part, rest, alloc)?;
        args.push(arg)?;
        rest = after;
    }
    Ok(rest)
}

/// Decodes the arguments of any shape, into a list of exactly their number. Out of line, for rare
/// shapes.
#[inline(never)]
#[tactic(auto, using(crate::proofs::DecodeArguments::shape_steps))]
pub(crate) fn read_any<'a, A: Allocator + Copy, G: Grammar>(
    shape: Shape,
    bytes: &'a [u8],
    alloc: A,
) -> Result<(Vec<Arg<A>, A>, &'a [u8]), DecodeError>
    ensures found { IfOk result (λ x. Decodes (arguments (parts_of shape)) (padded_of G.grammar) bytes.now (map argument_view x.0.items) x.1.now) }
    ensures none { IfErr result (λ e. e.cause ≢ Memory → Rejects (arguments (parts_of shape)) (padded_of G.grammar) bytes.now) }
{
    let wanted = shape.parts();
    let mut args = Vec::with_capacity(alloc, wanted.len())?;
    let rest = read_parts::<A, G>(wanted, bytes, alloc, &mut args)?;
    Ok((args, rest))
}

/// Returns the list of one argument.
#[inline(always)]
pub(crate) fn list_one<A: Allocator + Copy>(
    alloc: A,
    arg: Arg<A>,
) -> Result<Vec<Arg<A>, A>, DecodeError>
    ensures listed { IfOk result (λ args. args.items ≡ arg ∷ []) }
    ensures refused { IfErr result (λ e. e.cause ≡ Memory) }
{
    let mut args = Vec::with_capacity(alloc, 1)?;
    args.push_reserved(arg);
    Ok(args)
}

impl<A: Allocator> Encode for Arg<A> {
    ghost encoding = { λ a. argument_encoding (argument_view a) };

    ghost encodable = { λ a. argument_encodable (argument_view a) };

    #[tactic(auto, using(wasm_immediates::proofs::FixedBytes::vector_bytes))]
    fn encode<B: Allocator>(&self, sink: &mut Vec<u8, B>) -> Result<()> {
        match self {
            Arg::U32(n) => n.encode(sink),
            Arg::S32(n) => n.encode(sink),
            Arg::S64(n) => n.encode(sink),
            Arg::F32(float) => float.encode(sink),
            Arg::F64(float) => float.encode(sink),
            Arg::V128(vector) => vector.to_le_bytes().encode(sink),
            Arg::Mem(memory) => memory.encode(sink),
            Arg::Lane(lane) => lane.encode(sink),
            Arg::Lanes(lanes) => lanes.encode(sink),
            Arg::Block(block) => block.encode(sink),
            Arg::Heap(heap) => heap.encode(sink),
            Arg::Order(ordering) => ordering.encode(sink),
            Arg::Labels(labels) => labels.as_slice().encode(sink),
            Arg::Catches(catches) => catches.as_slice().encode(sink),
            Arg::Types(types) => types.as_slice().encode(sink),
            Arg::Handles(handles) => handles.as_slice().encode(sink),
            Arg::Flag(flag) => flag.encode(sink),
        }
    }
}

/// Appends the minimal encodings of the arguments.
pub(crate) fn append_arguments<A: Allocator, B: Allocator>(
    args: &[Arg<A>],
    sink: &mut Vec<u8, B>,
) -> Result<()>
    ensures ok { OnOk result (sink.new.items ≡ sink.old.items ++ flat_map (λ a. argument_encoding (argument_view a)) args.now) }
    ensures front { IsFrontOf sink.old.items sink.new.items }
    ensures too_long { AreWellFormed (map argument_view args.now) → result ≢ Err TooLong }
{
    for arg in args {
        arg.encode(sink)?;
    }
    Ok(())
}
