// The instruction that an opcode and its immediates are.
ghost use Rattle.std.specs.Prelude.{◌≡◌, ◌≢◌, ◌≤◌, ◌+◌, ◌*◌, map, Some, IfSome, IfNone};
ghost use Rattle.wasm_insn.specs.Arguments.{part_of, unsigned, signed32, signed64, float32, float64, vector, memory, lane, lanes, block, heap, ordering, labels, catches, types, handles, flag};
ghost use Rattle.wasm_insn.specs.Instructions.{row_of, bit_of};
ghost use Rattle.wasm_insn.specs.Views.{argument_view};
ghost use Rattle.wasm_insn.specs.Plain.{shape_of};
ghost use Rattle.wasm_insn.specs.Table.{table};
ghost use Rattle.wasm_insn.specs.declared.part.Part.TheVariants as parts;
ghost use Rattle.wasm_insn.specs.declared.op.Shape.TheVariants as shapes;
ghost use Rattle.wasm_reader.specs.Conversions.{IsNoInstruction};

use crate::by_opcode::{
    of_block, of_clauses, of_float32, of_float64, of_handles, of_heap, of_labels, of_lane,
    of_lanes, of_memory, of_memory_lane, of_nothing, of_number, of_numbers, of_numbers_handles,
    of_ordering, of_ordering_number, of_ordering_numbers, of_signed32, of_signed64, of_types,
    of_vector, with_cast,
};
use std::alloc::Allocator;
use wasm_base::{HeapType, RefType, ValType};
use wasm_immediates::{BlockType, Catch, Handle, Ieee32, Ieee64, Lane, MemArg, Ordering};
use wasm_insn::{Arg, Instruction, Op, Shape};

/// Returns a number, or `None` if the argument is another.
pub(crate) fn number_of<A: Allocator>(arg: &Arg<A>) -> Option<u32>
    ensures some { IfSome result (λ x. argument_view arg.now ≡ unsigned x) }
    ensures other { IfNone result (part_of (argument_view arg.now) ≢ parts.Unsigned) }
{
    match arg {
        Arg::U32(found) => Some(*found),
        _ => None,
    }
}

/// Returns a signed number of 32 bits, or `None` if the argument is another.
pub(crate) fn signed32_of<A: Allocator>(arg: &Arg<A>) -> Option<i32>
    ensures some { IfSome result (λ x. argument_view arg.now ≡ signed32 x) }
    ensures other { IfNone result (part_of (argument_view arg.now) ≢ parts.Signed32) }
{
    match arg {
        Arg::S32(found) => Some(*found),
        _ => None,
    }
}

/// Returns a signed number of 64 bits, or `None` if the argument is another.
pub(crate) fn signed64_of<A: Allocator>(arg: &Arg<A>) -> Option<i64>
    ensures some { IfSome result (λ x. argument_view arg.now ≡ signed64 x) }
    ensures other { IfNone result (part_of (argument_view arg.now) ≢ parts.Signed64) }
{
    match arg {
        Arg::S64(found) => Some(*found),
        _ => None,
    }
}

/// Returns a float of 32 bits, or `None` if the argument is another.
pub(crate) fn float32_of<A: Allocator>(arg: &Arg<A>) -> Option<Ieee32>
    ensures some { IfSome result (λ x. argument_view arg.now ≡ float32 x) }
    ensures other { IfNone result (part_of (argument_view arg.now) ≢ parts.Float32) }
{
    match arg {
        Arg::F32(found) => Some(*found),
        _ => None,
    }
}

/// Returns a float of 64 bits, or `None` if the argument is another.
pub(crate) fn float64_of<A: Allocator>(arg: &Arg<A>) -> Option<Ieee64>
    ensures some { IfSome result (λ x. argument_view arg.now ≡ float64 x) }
    ensures other { IfNone result (part_of (argument_view arg.now) ≢ parts.Float64) }
{
    match arg {
        Arg::F64(found) => Some(*found),
        _ => None,
    }
}

/// Returns a vector, or `None` if the argument is another.
pub(crate) fn vector_of<A: Allocator>(arg: &Arg<A>) -> Option<i128>
    ensures some { IfSome result (λ x. argument_view arg.now ≡ vector x) }
    ensures other { IfNone result (part_of (argument_view arg.now) ≢ parts.Vector) }
{
    match arg {
        Arg::V128(found) => Some(*found),
        _ => None,
    }
}

/// Returns a memory argument, or `None` if the argument is another.
pub(crate) fn memory_of<A: Allocator>(arg: &Arg<A>) -> Option<MemArg>
    ensures some { IfSome result (λ x. argument_view arg.now ≡ memory x) }
    ensures other { IfNone result (part_of (argument_view arg.now) ≢ parts.Memory) }
{
    match arg {
        Arg::Mem(found) => Some(*found),
        _ => None,
    }
}

/// Returns a lane, or `None` if the argument is another.
pub(crate) fn lane_of<A: Allocator>(arg: &Arg<A>) -> Option<Lane>
    ensures some { IfSome result (λ x. argument_view arg.now ≡ lane x) }
    ensures other { IfNone result (part_of (argument_view arg.now) ≢ parts.Lane) }
{
    match arg {
        Arg::Lane(found) => Some(*found),
        _ => None,
    }
}

/// Returns sixteen lanes, or `None` if the argument is another.
pub(crate) fn lanes_of<A: Allocator>(arg: &Arg<A>) -> Option<[Lane; 16]>
    ensures some { IfSome result (λ x. argument_view arg.now ≡ lanes x) }
    ensures other { IfNone result (part_of (argument_view arg.now) ≢ parts.Lanes) }
{
    match arg {
        Arg::Lanes(found) => Some(*found),
        _ => None,
    }
}

/// Returns a block type, or `None` if the argument is another.
pub(crate) fn block_of<A: Allocator>(arg: &Arg<A>) -> Option<BlockType>
    ensures some { IfSome result (λ x. argument_view arg.now ≡ block x) }
    ensures other { IfNone result (part_of (argument_view arg.now) ≢ parts.Block) }
{
    match arg {
        Arg::Block(found) => Some(*found),
        _ => None,
    }
}

/// Returns a heap type, or `None` if the argument is another.
pub(crate) fn heap_of<A: Allocator>(arg: &Arg<A>) -> Option<HeapType>
    ensures some { IfSome result (λ x. argument_view arg.now ≡ heap x) }
    ensures other { IfNone result (part_of (argument_view arg.now) ≢ parts.Heap) }
{
    match arg {
        Arg::Heap(found) => Some(*found),
        _ => None,
    }
}

/// Returns an ordering, or `None` if the argument is another.
pub(crate) fn ordering_of<A: Allocator>(arg: &Arg<A>) -> Option<Ordering>
    ensures some { IfSome result (λ x. argument_view arg.now ≡ ordering x) }
    ensures other { IfNone result (part_of (argument_view arg.now) ≢ parts.Ordering) }
{
    match arg {
        Arg::Order(found) => Some(*found),
        _ => None,
    }
}

/// Returns labels, or `None` if the argument is another.
pub(crate) fn labels_of<A: Allocator>(arg: &Arg<A>) -> Option<&[u32]>
    ensures some { IfSome result (λ x. argument_view arg.now ≡ labels x.now) }
    ensures other { IfNone result (part_of (argument_view arg.now) ≢ parts.Labels) }
{
    match arg {
        Arg::Labels(found) => Some(found.as_slice()),
        _ => None,
    }
}

/// Returns catch clauses, or `None` if the argument is another.
pub(crate) fn catches_of<A: Allocator>(arg: &Arg<A>) -> Option<&[Catch]>
    ensures some { IfSome result (λ x. argument_view arg.now ≡ catches x.now) }
    ensures other { IfNone result (part_of (argument_view arg.now) ≢ parts.Catches) }
{
    match arg {
        Arg::Catches(found) => Some(found.as_slice()),
        _ => None,
    }
}

/// Returns value types, or `None` if the argument is another.
pub(crate) fn types_of<A: Allocator>(arg: &Arg<A>) -> Option<&[ValType]>
    ensures some { IfSome result (λ x. argument_view arg.now ≡ types x.now) }
    ensures other { IfNone result (part_of (argument_view arg.now) ≢ parts.Types) }
{
    match arg {
        Arg::Types(found) => Some(found.as_slice()),
        _ => None,
    }
}

/// Returns handle clauses, or `None` if the argument is another.
pub(crate) fn handles_of<A: Allocator>(arg: &Arg<A>) -> Option<&[Handle]>
    ensures some { IfSome result (λ x. argument_view arg.now ≡ handles x.now) }
    ensures other { IfNone result (part_of (argument_view arg.now) ≢ parts.Handles) }
{
    match arg {
        Arg::Handles(found) => Some(found.as_slice()),
        _ => None,
    }
}

/// Returns the flags of a cast, or `None` if the argument is another.
pub(crate) fn flag_of<A: Allocator>(arg: &Arg<A>) -> Option<u8>
    ensures some { IfSome result (λ x. argument_view arg.now ≡ flag x) }
    ensures other { IfNone result (part_of (argument_view arg.now) ≢ parts.Flag) }
{
    match arg {
        Arg::Flag(found) => Some(*found),
        _ => None,
    }
}

/// Returns whether each of the two types of a cast is nullable, by the flags.
fn nullable(flags: u8) -> Option<(bool, bool)>
    ensures some { IfSome result (λ x. flags ≡ bit_of x.0 + 2 * bit_of x.1) }
    ensures other { IfNone result (4 ≤ flags) }
{
    match flags {
        0 => Some((false, false)),
        1 => Some((true, false)),
        2 => Some((false, true)),
        3 => Some((true, true)),
        _ => None,
    }
}

/// Returns the cast with these arguments.
#[tactic(auto, using(crate::proofs::Conversions::conversion_steps))]
fn cast<'a, A: Allocator>(op: Op, args: &'a [Arg<A>]) -> Option<Instruction<'a, A>>
    requires { shape_of table op ≡ Some shapes.K }
    ensures some { IfSome result (λ i. row_of i ≡ record { op = op; arguments = map argument_view args.now }) }
    ensures other { IfNone result (IsNoInstruction op (map argument_view args.now)) }
{
    let [flags, label, from, to] = args else {
        return None;
    };
    let (is_from, is_to) = nullable(flag_of(flags)?)?;
    let label = number_of(label)?;
    let from = RefType {
        nullable: is_from,
        heap_type: heap_of(from)?,
    };
    let to = RefType {
        nullable: is_to,
        heap_type: heap_of(to)?,
    };
    with_cast(op, label, from, to)
}

/// Returns the instruction with this opcode and these arguments, or `None` if there is none. Lists
/// are borrowed.
#[tactic(auto, using(crate::proofs::Conversions::no_shape))]
pub fn instruction_of<'a, A: Allocator>(op: Op, args: &'a [Arg<A>]) -> Option<Instruction<'a, A>>
    ensures some { IfSome result (λ i. row_of i ≡ record { op = op; arguments = map argument_view args.now }) }
    ensures other { IfNone result (IsNoInstruction op (map argument_view args.now)) }
{
    match op.shape()? {
        Shape::Nothing => of_nothing(op, args),
        Shape::U => of_number(op, args),
        Shape::Uu => of_numbers(op, args),
        Shape::M => of_memory(op, args),
        Shape::Ml => of_memory_lane(op, args),
        Shape::L => of_lane(op, args),
        Shape::B => of_block(op, args),
        Shape::H => of_heap(op, args),
        Shape::O => of_ordering(op, args),
        Shape::Ou => of_ordering_number(op, args),
        Shape::Ouu => of_ordering_numbers(op, args),
        Shape::C32 => of_signed32(op, args),
        Shape::C64 => of_signed64(op, args),
        Shape::F32 => of_float32(op, args),
        Shape::F64 => of_float64(op, args),
        Shape::V => of_vector(op, args),
        Shape::Ls => of_lanes(op, args),
        Shape::Bt => of_labels(op, args),
        Shape::Tt => of_clauses(op, args),
        Shape::Ts => of_types(op, args),
        Shape::K => cast(op, args),
        Shape::Uh => of_handles(op, args),
        Shape::Uuh => of_numbers_handles(op, args),
    }
}
