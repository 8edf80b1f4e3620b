// Written by tools/instructions from tools/instructions.tsv: do not edit.
// The instruction with an opcode and given immediates: a function for each shape of opcodes, which
// has all of them.
ghost use Rattle.std.specs.Prelude.{◌≡◌, ◌≢◌, [], ◌∷◌, map, get_or, Some, None, IfSome, IfNone};
ghost use Rattle.wasm_insn.specs.Arguments.{unsigned, signed32, signed64, float32, float64, vector, memory, lane, lanes, block, heap, ordering, labels, catches, types, handles, flag};
ghost use Rattle.wasm_insn.specs.Instructions.{row_of, cast_flag_of};
ghost use Rattle.wasm_insn.specs.Numeric.{numeric_number};
ghost use Rattle.wasm_insn.specs.Aggregate.{aggregate_number};
ghost use Rattle.wasm_insn.specs.PrefixedNumeric.{prefixed_numeric_number};
ghost use Rattle.wasm_insn.specs.Vector.{vector_number};
ghost use Rattle.wasm_insn.specs.Views.{argument_view};
ghost use Rattle.wasm_insn.specs.Plain.{shape_of};
ghost use Rattle.wasm_insn.specs.Table.{table};
ghost use Rattle.wasm_insn.specs.declared.op.Op.TheVariants.{Byte, Prefixed};
ghost use Rattle.wasm_insn.specs.declared.op.Shape.TheVariants as shapes;
ghost use Rattle.wasm_reader.specs.Conversions.{IsNoInstruction};
ghost use Rattle.wasm_reader.specs.declared.by_opcode.TheConstants.{NUMERIC};

use crate::convert::{
    block_of, catches_of, float32_of, float64_of, handles_of, heap_of, labels_of, lane_of,
    lanes_of, memory_of, number_of, ordering_of, signed32_of, signed64_of, types_of, vector_of,
};
use std::alloc::Allocator;
use wasm_base::{CowSlice, HeapType, RefType, ValType};
use wasm_immediates::{BlockType, Catch, Handle, Ieee32, Ieee64, Lane, MemArg, Ordering};
use wasm_insn::{
    Aggregate, Arg, Atomic, Instruction, Numeric, Op, PrefixedNumeric, Vector, VectorImmediate,
};

/// The numeric instructions, indexed by opcode.
#[rattlefmt::skip]
static NUMERIC: [Option<Numeric>; 197] = [
    None, None, None, None,
    None, None, None, None,
    None, None, None, None,
    None, None, None, None,
    None, None, None, None,
    None, None, None, None,
    None, None, None, None,
    None, None, None, None,
    None, None, None, None,
    None, None, None, None,
    None, None, None, None,
    None, None, None, None,
    None, None, None, None,
    None, None, None, None,
    None, None, None, None,
    None, None, None, None,
    None, None, None, None,
    None, Some(Numeric::I32Eqz), Some(Numeric::I32Eq), Some(Numeric::I32Ne),
    Some(Numeric::I32LtS), Some(Numeric::I32LtU), Some(Numeric::I32GtS), Some(Numeric::I32GtU),
    Some(Numeric::I32LeS), Some(Numeric::I32LeU), Some(Numeric::I32GeS), Some(Numeric::I32GeU),
    Some(Numeric::I64Eqz), Some(Numeric::I64Eq), Some(Numeric::I64Ne), Some(Numeric::I64LtS),
    Some(Numeric::I64LtU), Some(Numeric::I64GtS), Some(Numeric::I64GtU), Some(Numeric::I64LeS),
    Some(Numeric::I64LeU), Some(Numeric::I64GeS), Some(Numeric::I64GeU), Some(Numeric::F32Eq),
    Some(Numeric::F32Ne), Some(Numeric::F32Lt), Some(Numeric::F32Gt), Some(Numeric::F32Le),
    Some(Numeric::F32Ge), Some(Numeric::F64Eq), Some(Numeric::F64Ne), Some(Numeric::F64Lt),
    Some(Numeric::F64Gt), Some(Numeric::F64Le), Some(Numeric::F64Ge), Some(Numeric::I32Clz),
    Some(Numeric::I32Ctz), Some(Numeric::I32Popcnt), Some(Numeric::I32Add), Some(Numeric::I32Sub),
    Some(Numeric::I32Mul), Some(Numeric::I32DivS), Some(Numeric::I32DivU), Some(Numeric::I32RemS),
    Some(Numeric::I32RemU), Some(Numeric::I32And), Some(Numeric::I32Or), Some(Numeric::I32Xor),
    Some(Numeric::I32Shl), Some(Numeric::I32ShrS), Some(Numeric::I32ShrU), Some(Numeric::I32Rotl),
    Some(Numeric::I32Rotr), Some(Numeric::I64Clz), Some(Numeric::I64Ctz), Some(Numeric::I64Popcnt),
    Some(Numeric::I64Add), Some(Numeric::I64Sub), Some(Numeric::I64Mul), Some(Numeric::I64DivS),
    Some(Numeric::I64DivU), Some(Numeric::I64RemS), Some(Numeric::I64RemU), Some(Numeric::I64And),
    Some(Numeric::I64Or), Some(Numeric::I64Xor), Some(Numeric::I64Shl), Some(Numeric::I64ShrS),
    Some(Numeric::I64ShrU), Some(Numeric::I64Rotl), Some(Numeric::I64Rotr), Some(Numeric::F32Abs),
    Some(Numeric::F32Neg), Some(Numeric::F32Ceil), Some(Numeric::F32Floor), Some(Numeric::F32Trunc),
    Some(Numeric::F32Nearest), Some(Numeric::F32Sqrt), Some(Numeric::F32Add), Some(Numeric::F32Sub),
    Some(Numeric::F32Mul), Some(Numeric::F32Div), Some(Numeric::F32Min), Some(Numeric::F32Max),
    Some(Numeric::F32Copysign), Some(Numeric::F64Abs), Some(Numeric::F64Neg), Some(Numeric::F64Ceil),
    Some(Numeric::F64Floor), Some(Numeric::F64Trunc), Some(Numeric::F64Nearest), Some(Numeric::F64Sqrt),
    Some(Numeric::F64Add), Some(Numeric::F64Sub), Some(Numeric::F64Mul), Some(Numeric::F64Div),
    Some(Numeric::F64Min), Some(Numeric::F64Max), Some(Numeric::F64Copysign), Some(Numeric::I32WrapI64),
    Some(Numeric::I32TruncF32S), Some(Numeric::I32TruncF32U), Some(Numeric::I32TruncF64S), Some(Numeric::I32TruncF64U),
    Some(Numeric::I64ExtendI32S), Some(Numeric::I64ExtendI32U), Some(Numeric::I64TruncF32S), Some(Numeric::I64TruncF32U),
    Some(Numeric::I64TruncF64S), Some(Numeric::I64TruncF64U), Some(Numeric::F32ConvertI32S), Some(Numeric::F32ConvertI32U),
    Some(Numeric::F32ConvertI64S), Some(Numeric::F32ConvertI64U), Some(Numeric::F32DemoteF64), Some(Numeric::F64ConvertI32S),
    Some(Numeric::F64ConvertI32U), Some(Numeric::F64ConvertI64S), Some(Numeric::F64ConvertI64U), Some(Numeric::F64PromoteF32),
    Some(Numeric::I32ReinterpretF32), Some(Numeric::I64ReinterpretF64), Some(Numeric::F32ReinterpretI32), Some(Numeric::F64ReinterpretI64),
    Some(Numeric::I32Extend8S), Some(Numeric::I32Extend16S), Some(Numeric::I64Extend8S), Some(Numeric::I64Extend16S),
    Some(Numeric::I64Extend32S),
];

/// Returns the instruction of `Numeric` with this opcode.
#[tactic(auto, using(crate::proofs::ByOpcode::numeric_some, crate::proofs::ByOpcode::numeric_none, crate::proofs::ByOpcode::numeric_beyond))]
fn numeric_at(byte: u8) -> Option<Numeric>
    ensures some { IfSome result (λ i. numeric_number i ≡ byte) }
    ensures other { IfNone result (get_or NUMERIC byte None ≡ None) }
{
    let index = usize::from(byte);
    if index < NUMERIC.len() {
        NUMERIC[index]
    } else {
        None
    }
}

/// The instructions of `Aggregate`, indexed by the number after the prefix FB.
#[rattlefmt::skip]
static AGGREGATE: [Option<Aggregate>; 31] = [
    None, None, None, None,
    None, None, None, None,
    None, None, None, None,
    None, None, None, Some(Aggregate::ArrayLen),
    None, None, None, None,
    None, None, None, None,
    None, None, Some(Aggregate::AnyConvertExtern), Some(Aggregate::ExternConvertAny),
    Some(Aggregate::RefI31), Some(Aggregate::I31GetS), Some(Aggregate::I31GetU),
];

/// Returns the instruction of `Aggregate` with this number.
#[tactic(auto, using(crate::proofs::ByOpcode::aggregate_some, crate::proofs::ByOpcode::aggregate_none, crate::proofs::ByOpcode::aggregate_beyond))]
fn aggregate_at(number: u32) -> Option<Aggregate>
    ensures some { IfSome result (λ i. aggregate_number i ≡ number) }
    ensures other { IfNone result (shape_of table (Prefixed 0xFB number) ≢ Some shapes.Nothing) }
{
    let index = number as usize;
    if index < AGGREGATE.len() {
        AGGREGATE[index]
    } else {
        None
    }
}

/// The instructions of `PrefixedNumeric`, indexed by the number after the prefix FC.
#[rattlefmt::skip]
static PREFIXED_NUMERIC: [Option<PrefixedNumeric>; 23] = [
    Some(PrefixedNumeric::I32TruncSatF32S), Some(PrefixedNumeric::I32TruncSatF32U), Some(PrefixedNumeric::I32TruncSatF64S), Some(PrefixedNumeric::I32TruncSatF64U),
    Some(PrefixedNumeric::I64TruncSatF32S), Some(PrefixedNumeric::I64TruncSatF32U), Some(PrefixedNumeric::I64TruncSatF64S), Some(PrefixedNumeric::I64TruncSatF64U),
    None, None, None, None,
    None, None, None, None,
    None, None, None, Some(PrefixedNumeric::I64Add128),
    Some(PrefixedNumeric::I64Sub128), Some(PrefixedNumeric::I64MulWideS), Some(PrefixedNumeric::I64MulWideU),
];

/// Returns the instruction of `PrefixedNumeric` with this number.
#[tactic(auto, using(crate::proofs::ByOpcode::prefixed_numeric_some, crate::proofs::ByOpcode::prefixed_numeric_none, crate::proofs::ByOpcode::prefixed_numeric_beyond))]
fn prefixed_numeric_at(number: u32) -> Option<PrefixedNumeric>
    ensures some { IfSome result (λ i. prefixed_numeric_number i ≡ number) }
    ensures other { IfNone result (shape_of table (Prefixed 0xFC number) ≢ Some shapes.Nothing) }
{
    let index = number as usize;
    if index < PREFIXED_NUMERIC.len() {
        PREFIXED_NUMERIC[index]
    } else {
        None
    }
}

/// The instructions of `Vector`, indexed by the number after the prefix FD.
#[rattlefmt::skip]
static VECTOR: [Option<Vector>; 276] = [
    None, None, None, None,
    None, None, None, None,
    None, None, None, None,
    None, None, Some(Vector::I8x16Swizzle), Some(Vector::I8x16Splat),
    Some(Vector::I16x8Splat), Some(Vector::I32x4Splat), Some(Vector::I64x2Splat), Some(Vector::F32x4Splat),
    Some(Vector::F64x2Splat), None, None, None,
    None, None, None, None,
    None, None, None, None,
    None, None, None, Some(Vector::I8x16Eq),
    Some(Vector::I8x16Ne), Some(Vector::I8x16LtS), Some(Vector::I8x16LtU), Some(Vector::I8x16GtS),
    Some(Vector::I8x16GtU), Some(Vector::I8x16LeS), Some(Vector::I8x16LeU), Some(Vector::I8x16GeS),
    Some(Vector::I8x16GeU), Some(Vector::I16x8Eq), Some(Vector::I16x8Ne), Some(Vector::I16x8LtS),
    Some(Vector::I16x8LtU), Some(Vector::I16x8GtS), Some(Vector::I16x8GtU), Some(Vector::I16x8LeS),
    Some(Vector::I16x8LeU), Some(Vector::I16x8GeS), Some(Vector::I16x8GeU), Some(Vector::I32x4Eq),
    Some(Vector::I32x4Ne), Some(Vector::I32x4LtS), Some(Vector::I32x4LtU), Some(Vector::I32x4GtS),
    Some(Vector::I32x4GtU), Some(Vector::I32x4LeS), Some(Vector::I32x4LeU), Some(Vector::I32x4GeS),
    Some(Vector::I32x4GeU), Some(Vector::F32x4Eq), Some(Vector::F32x4Ne), Some(Vector::F32x4Lt),
    Some(Vector::F32x4Gt), Some(Vector::F32x4Le), Some(Vector::F32x4Ge), Some(Vector::F64x2Eq),
    Some(Vector::F64x2Ne), Some(Vector::F64x2Lt), Some(Vector::F64x2Gt), Some(Vector::F64x2Le),
    Some(Vector::F64x2Ge), Some(Vector::V128Not), Some(Vector::V128And), Some(Vector::V128AndNot),
    Some(Vector::V128Or), Some(Vector::V128Xor), Some(Vector::V128Bitselect), Some(Vector::V128AnyTrue),
    None, None, None, None,
    None, None, None, None,
    None, None, Some(Vector::F32x4DemoteF64x2Zero), Some(Vector::F64x2PromoteLowF32x4),
    Some(Vector::I8x16Abs), Some(Vector::I8x16Neg), Some(Vector::I8x16Popcnt), Some(Vector::I8x16AllTrue),
    Some(Vector::I8x16Bitmask), Some(Vector::I8x16NarrowI16x8S), Some(Vector::I8x16NarrowI16x8U), Some(Vector::F32x4Ceil),
    Some(Vector::F32x4Floor), Some(Vector::F32x4Trunc), Some(Vector::F32x4Nearest), Some(Vector::I8x16Shl),
    Some(Vector::I8x16ShrS), Some(Vector::I8x16ShrU), Some(Vector::I8x16Add), Some(Vector::I8x16AddSatS),
    Some(Vector::I8x16AddSatU), Some(Vector::I8x16Sub), Some(Vector::I8x16SubSatS), Some(Vector::I8x16SubSatU),
    Some(Vector::F64x2Ceil), Some(Vector::F64x2Floor), Some(Vector::I8x16MinS), Some(Vector::I8x16MinU),
    Some(Vector::I8x16MaxS), Some(Vector::I8x16MaxU), Some(Vector::F64x2Trunc), Some(Vector::I8x16AvgrU),
    Some(Vector::I16x8ExtAddPairwiseI8x16S), Some(Vector::I16x8ExtAddPairwiseI8x16U), Some(Vector::I32x4ExtAddPairwiseI16x8S), Some(Vector::I32x4ExtAddPairwiseI16x8U),
    Some(Vector::I16x8Abs), Some(Vector::I16x8Neg), Some(Vector::I16x8Q15MulrSatS), Some(Vector::I16x8AllTrue),
    Some(Vector::I16x8Bitmask), Some(Vector::I16x8NarrowI32x4S), Some(Vector::I16x8NarrowI32x4U), Some(Vector::I16x8ExtendLowI8x16S),
    Some(Vector::I16x8ExtendHighI8x16S), Some(Vector::I16x8ExtendLowI8x16U), Some(Vector::I16x8ExtendHighI8x16U), Some(Vector::I16x8Shl),
    Some(Vector::I16x8ShrS), Some(Vector::I16x8ShrU), Some(Vector::I16x8Add), Some(Vector::I16x8AddSatS),
    Some(Vector::I16x8AddSatU), Some(Vector::I16x8Sub), Some(Vector::I16x8SubSatS), Some(Vector::I16x8SubSatU),
    Some(Vector::F64x2Nearest), Some(Vector::I16x8Mul), Some(Vector::I16x8MinS), Some(Vector::I16x8MinU),
    Some(Vector::I16x8MaxS), Some(Vector::I16x8MaxU), None, Some(Vector::I16x8AvgrU),
    Some(Vector::I16x8ExtMulLowI8x16S), Some(Vector::I16x8ExtMulHighI8x16S), Some(Vector::I16x8ExtMulLowI8x16U), Some(Vector::I16x8ExtMulHighI8x16U),
    Some(Vector::I32x4Abs), Some(Vector::I32x4Neg), None, Some(Vector::I32x4AllTrue),
    Some(Vector::I32x4Bitmask), None, None, Some(Vector::I32x4ExtendLowI16x8S),
    Some(Vector::I32x4ExtendHighI16x8S), Some(Vector::I32x4ExtendLowI16x8U), Some(Vector::I32x4ExtendHighI16x8U), Some(Vector::I32x4Shl),
    Some(Vector::I32x4ShrS), Some(Vector::I32x4ShrU), Some(Vector::I32x4Add), None,
    None, Some(Vector::I32x4Sub), None, None,
    None, Some(Vector::I32x4Mul), Some(Vector::I32x4MinS), Some(Vector::I32x4MinU),
    Some(Vector::I32x4MaxS), Some(Vector::I32x4MaxU), Some(Vector::I32x4DotI16x8S), None,
    Some(Vector::I32x4ExtMulLowI16x8S), Some(Vector::I32x4ExtMulHighI16x8S), Some(Vector::I32x4ExtMulLowI16x8U), Some(Vector::I32x4ExtMulHighI16x8U),
    Some(Vector::I64x2Abs), Some(Vector::I64x2Neg), None, Some(Vector::I64x2AllTrue),
    Some(Vector::I64x2Bitmask), None, None, Some(Vector::I64x2ExtendLowI32x4S),
    Some(Vector::I64x2ExtendHighI32x4S), Some(Vector::I64x2ExtendLowI32x4U), Some(Vector::I64x2ExtendHighI32x4U), Some(Vector::I64x2Shl),
    Some(Vector::I64x2ShrS), Some(Vector::I64x2ShrU), Some(Vector::I64x2Add), None,
    None, Some(Vector::I64x2Sub), None, None,
    None, Some(Vector::I64x2Mul), Some(Vector::I64x2Eq), Some(Vector::I64x2Ne),
    Some(Vector::I64x2LtS), Some(Vector::I64x2GtS), Some(Vector::I64x2LeS), Some(Vector::I64x2GeS),
    Some(Vector::I64x2ExtMulLowI32x4S), Some(Vector::I64x2ExtMulHighI32x4S), Some(Vector::I64x2ExtMulLowI32x4U), Some(Vector::I64x2ExtMulHighI32x4U),
    Some(Vector::F32x4Abs), Some(Vector::F32x4Neg), None, Some(Vector::F32x4Sqrt),
    Some(Vector::F32x4Add), Some(Vector::F32x4Sub), Some(Vector::F32x4Mul), Some(Vector::F32x4Div),
    Some(Vector::F32x4Min), Some(Vector::F32x4Max), Some(Vector::F32x4PMin), Some(Vector::F32x4PMax),
    Some(Vector::F64x2Abs), Some(Vector::F64x2Neg), None, Some(Vector::F64x2Sqrt),
    Some(Vector::F64x2Add), Some(Vector::F64x2Sub), Some(Vector::F64x2Mul), Some(Vector::F64x2Div),
    Some(Vector::F64x2Min), Some(Vector::F64x2Max), Some(Vector::F64x2PMin), Some(Vector::F64x2PMax),
    Some(Vector::I32x4TruncSatF32x4S), Some(Vector::I32x4TruncSatF32x4U), Some(Vector::F32x4ConvertI32x4S), Some(Vector::F32x4ConvertI32x4U),
    Some(Vector::I32x4TruncSatF64x2SZero), Some(Vector::I32x4TruncSatF64x2UZero), Some(Vector::F64x2ConvertLowI32x4S), Some(Vector::F64x2ConvertLowI32x4U),
    Some(Vector::I8x16RelaxedSwizzle), Some(Vector::I32x4RelaxedTruncF32x4S), Some(Vector::I32x4RelaxedTruncF32x4U), Some(Vector::I32x4RelaxedTruncF64x2SZero),
    Some(Vector::I32x4RelaxedTruncF64x2UZero), Some(Vector::F32x4RelaxedMadd), Some(Vector::F32x4RelaxedNmadd), Some(Vector::F64x2RelaxedMadd),
    Some(Vector::F64x2RelaxedNmadd), Some(Vector::I8x16RelaxedLaneselect), Some(Vector::I16x8RelaxedLaneselect), Some(Vector::I32x4RelaxedLaneselect),
    Some(Vector::I64x2RelaxedLaneselect), Some(Vector::F32x4RelaxedMin), Some(Vector::F32x4RelaxedMax), Some(Vector::F64x2RelaxedMin),
    Some(Vector::F64x2RelaxedMax), Some(Vector::I16x8RelaxedQ15mulrS), Some(Vector::I16x8RelaxedDotI8x16I7x16S), Some(Vector::I32x4RelaxedDotI8x16I7x16AddS),
];

/// Returns the instruction of `Vector` with this number.
#[tactic(auto, using(crate::proofs::ByOpcode::vector_some, crate::proofs::ByOpcode::vector_none, crate::proofs::ByOpcode::vector_beyond))]
fn vector_at(number: u32) -> Option<Vector>
    ensures some { IfSome result (λ i. vector_number i ≡ number) }
    ensures other { IfNone result (shape_of table (Prefixed 0xFD number) ≢ Some shapes.Nothing) }
{
    let index = number as usize;
    if index < VECTOR.len() {
        VECTOR[index]
    } else {
        None
    }
}

/// Returns the instruction with this opcode of one byte and no immediates.
#[tactic(auto, using(crate::proofs::ByOpcode::byte_nothing))]
fn byte_with_nothing<'a, A: Allocator>(byte: u8) -> Option<Instruction<'a, A>>
    ensures some { IfSome result (λ i. row_of i ≡ record { op = Byte byte; arguments = [] }) }
    ensures other { IfNone result (shape_of table (Byte byte) ≢ Some shapes.Nothing) }
{
    Some(match byte {
        0x00 => Instruction::Unreachable,
        0x01 => Instruction::Nop,
        0x05 => Instruction::Else,
        0x0A => Instruction::ThrowRef,
        0x0B => Instruction::End,
        0x0F => Instruction::Return,
        0x19 => Instruction::CatchAll,
        0x1A => Instruction::Drop,
        0x1B => Instruction::Select,
        0xD1 => Instruction::RefIsNull,
        0xD3 => Instruction::RefEq,
        0xD4 => Instruction::RefAsNonNull,
        _ => Instruction::Numeric(numeric_at(byte)?),
    })
}

/// Returns the instruction with this opcode after the prefix FE and no immediates.
#[tactic(auto, using(crate::proofs::ByOpcode::after_fe_nothing))]
fn fe_with_nothing<'a, A: Allocator>(number: u32) -> Option<Instruction<'a, A>>
    ensures some { IfSome result (λ i. row_of i ≡ record { op = Prefixed 0xFE number; arguments = [] }) }
    ensures other { IfNone result (shape_of table (Prefixed 0xFE number) ≢ Some shapes.Nothing) }
{
    Some(match number {
        0x04 => Instruction::Atomic(Atomic::Pause),
        0x72 => Instruction::Atomic(Atomic::RefI31Shared),
        _ => return None,
    })
}

/// Returns the instruction with this opcode and no immediates.
#[tactic(auto, using(crate::proofs::ByOpcode::other_nothing))]
fn with_nothing<'a, A: Allocator>(op: Op) -> Option<Instruction<'a, A>>
    ensures some { IfSome result (λ i. row_of i ≡ record { op = op; arguments = [] }) }
    ensures other { IfNone result (shape_of table op ≢ Some shapes.Nothing) }
{
    match op {
        Op::Byte(n) => byte_with_nothing(n),
        Op::Prefixed(0xFB, n) => Some(Instruction::Aggregate(aggregate_at(n)?)),
        Op::Prefixed(0xFC, n) => Some(Instruction::PrefixedNumeric(prefixed_numeric_at(n)?)),
        Op::Prefixed(0xFD, n) => Some(Instruction::Vector(vector_at(n)?)),
        Op::Prefixed(0xFE, n) => fe_with_nothing(n),
        Op::Prefixed(..) => None,
    }
}

/// Returns the instruction with this opcode of one byte and a number.
#[tactic(auto, using(crate::proofs::ByOpcode::byte_number))]
fn byte_with_number<'a, A: Allocator>(byte: u8, a: u32) -> Option<Instruction<'a, A>>
    ensures some { IfSome result (λ i. row_of i ≡ record { op = Byte byte; arguments = unsigned a ∷ [] }) }
    ensures other { IfNone result (shape_of table (Byte byte) ≢ Some shapes.U) }
{
    Some(match byte {
        0x07 => Instruction::Catch(a),
        0x08 => Instruction::Throw(a),
        0x09 => Instruction::Rethrow(a),
        0x0C => Instruction::Br(a),
        0x0D => Instruction::BrIf(a),
        0x10 => Instruction::Call(a),
        0x12 => Instruction::ReturnCall(a),
        0x14 => Instruction::CallRef(a),
        0x15 => Instruction::ReturnCallRef(a),
        0x18 => Instruction::Delegate(a),
        0x20 => Instruction::LocalGet(a),
        0x21 => Instruction::LocalSet(a),
        0x22 => Instruction::LocalTee(a),
        0x23 => Instruction::GlobalGet(a),
        0x24 => Instruction::GlobalSet(a),
        0x25 => Instruction::TableGet(a),
        0x26 => Instruction::TableSet(a),
        0x3F => Instruction::MemorySize(a),
        0x40 => Instruction::MemoryGrow(a),
        0xD2 => Instruction::RefFunc(a),
        0xD5 => Instruction::BrOnNull(a),
        0xD6 => Instruction::BrOnNonNull(a),
        0xE0 => Instruction::ContNew(a),
        0xE2 => Instruction::Suspend(a),
        _ => return None,
    })
}

/// Returns the instruction with this opcode after the prefix FB and a number.
#[tactic(auto, using(crate::proofs::ByOpcode::after_fb_number))]
fn fb_with_number<'a, A: Allocator>(number: u32, a: u32) -> Option<Instruction<'a, A>>
    ensures some { IfSome result (λ i. row_of i ≡ record { op = Prefixed 0xFB number; arguments = unsigned a ∷ [] }) }
    ensures other { IfNone result (shape_of table (Prefixed 0xFB number) ≢ Some shapes.U) }
{
    Some(match number {
        0 => Instruction::StructNew(a),
        1 => Instruction::StructNewDefault(a),
        6 => Instruction::ArrayNew(a),
        7 => Instruction::ArrayNewDefault(a),
        11 => Instruction::ArrayGet(a),
        12 => Instruction::ArrayGetS(a),
        13 => Instruction::ArrayGetU(a),
        14 => Instruction::ArraySet(a),
        16 => Instruction::ArrayFill(a),
        32 => Instruction::StructNewDesc(a),
        33 => Instruction::StructNewDefaultDesc(a),
        34 => Instruction::RefGetDesc(a),
        _ => return None,
    })
}

/// Returns the instruction with this opcode after the prefix FC and a number.
#[tactic(auto, using(crate::proofs::ByOpcode::after_fc_number))]
fn fc_with_number<'a, A: Allocator>(number: u32, a: u32) -> Option<Instruction<'a, A>>
    ensures some { IfSome result (λ i. row_of i ≡ record { op = Prefixed 0xFC number; arguments = unsigned a ∷ [] }) }
    ensures other { IfNone result (shape_of table (Prefixed 0xFC number) ≢ Some shapes.U) }
{
    Some(match number {
        9 => Instruction::DataDrop(a),
        11 => Instruction::MemoryFill(a),
        13 => Instruction::ElemDrop(a),
        15 => Instruction::TableGrow(a),
        16 => Instruction::TableSize(a),
        17 => Instruction::TableFill(a),
        18 => Instruction::MemoryDiscard(a),
        _ => return None,
    })
}

/// Returns the instruction with this opcode and a number.
#[tactic(auto, using(crate::proofs::ByOpcode::other_number))]
fn with_number<'a, A: Allocator>(op: Op, a: u32) -> Option<Instruction<'a, A>>
    ensures some { IfSome result (λ i. row_of i ≡ record { op = op; arguments = unsigned a ∷ [] }) }
    ensures other { IfNone result (shape_of table op ≢ Some shapes.U) }
{
    match op {
        Op::Byte(n) => byte_with_number(n, a),
        Op::Prefixed(0xFB, n) => fb_with_number(n, a),
        Op::Prefixed(0xFC, n) => fc_with_number(n, a),
        Op::Prefixed(..) => None,
    }
}

/// Returns the instruction with this opcode of one byte and two numbers.
#[tactic(auto, using(crate::proofs::ByOpcode::byte_numbers))]
fn byte_with_numbers<'a, A: Allocator>(byte: u8, a: u32, b: u32) -> Option<Instruction<'a, A>>
    ensures some { IfSome result (λ i. row_of i ≡ record { op = Byte byte; arguments = unsigned a ∷ unsigned b ∷ [] }) }
    ensures other { IfNone result (shape_of table (Byte byte) ≢ Some shapes.Uu) }
{
    Some(match byte {
        0x11 => Instruction::CallIndirect {
            type_index: a,
            table_index: b,
        },
        0x13 => Instruction::ReturnCallIndirect {
            type_index: a,
            table_index: b,
        },
        0xE1 => Instruction::ContBind {
            argument_index: a,
            result_index: b,
        },
        0xE6 => Instruction::Switch {
            cont_type_index: a,
            tag_index: b,
        },
        _ => return None,
    })
}

/// Returns the instruction with this opcode after the prefix FB and two numbers.
#[tactic(auto, using(crate::proofs::ByOpcode::after_fb_numbers))]
fn fb_with_numbers<'a, A: Allocator>(number: u32, a: u32, b: u32) -> Option<Instruction<'a, A>>
    ensures some { IfSome result (λ i. row_of i ≡ record { op = Prefixed 0xFB number; arguments = unsigned a ∷ unsigned b ∷ [] }) }
    ensures other { IfNone result (shape_of table (Prefixed 0xFB number) ≢ Some shapes.Uu) }
{
    Some(match number {
        2 => Instruction::StructGet {
            struct_type_index: a,
            field_index: b,
        },
        3 => Instruction::StructGetS {
            struct_type_index: a,
            field_index: b,
        },
        4 => Instruction::StructGetU {
            struct_type_index: a,
            field_index: b,
        },
        5 => Instruction::StructSet {
            struct_type_index: a,
            field_index: b,
        },
        8 => Instruction::ArrayNewFixed {
            array_type_index: a,
            array_size: b,
        },
        9 => Instruction::ArrayNewData {
            array_type_index: a,
            array_data_index: b,
        },
        10 => Instruction::ArrayNewElem {
            array_type_index: a,
            array_elem_index: b,
        },
        17 => Instruction::ArrayCopy {
            array_type_index_dst: a,
            array_type_index_src: b,
        },
        18 => Instruction::ArrayInitData {
            array_type_index: a,
            array_data_index: b,
        },
        19 => Instruction::ArrayInitElem {
            array_type_index: a,
            array_elem_index: b,
        },
        _ => return None,
    })
}

/// Returns the instruction with this opcode after the prefix FC and two numbers.
#[tactic(auto, using(crate::proofs::ByOpcode::after_fc_numbers))]
fn fc_with_numbers<'a, A: Allocator>(number: u32, a: u32, b: u32) -> Option<Instruction<'a, A>>
    ensures some { IfSome result (λ i. row_of i ≡ record { op = Prefixed 0xFC number; arguments = unsigned a ∷ unsigned b ∷ [] }) }
    ensures other { IfNone result (shape_of table (Prefixed 0xFC number) ≢ Some shapes.Uu) }
{
    Some(match number {
        8 => Instruction::MemoryInit {
            data_index: a,
            mem: b,
        },
        10 => Instruction::MemoryCopy {
            dst_mem: a,
            src_mem: b,
        },
        12 => Instruction::TableInit {
            elem_index: a,
            table: b,
        },
        14 => Instruction::TableCopy {
            dst_table: a,
            src_table: b,
        },
        _ => return None,
    })
}

/// Returns the instruction with this opcode and two numbers.
#[tactic(auto, using(crate::proofs::ByOpcode::other_numbers))]
fn with_numbers<'a, A: Allocator>(op: Op, a: u32, b: u32) -> Option<Instruction<'a, A>>
    ensures some { IfSome result (λ i. row_of i ≡ record { op = op; arguments = unsigned a ∷ unsigned b ∷ [] }) }
    ensures other { IfNone result (shape_of table op ≢ Some shapes.Uu) }
{
    match op {
        Op::Byte(n) => byte_with_numbers(n, a, b),
        Op::Prefixed(0xFB, n) => fb_with_numbers(n, a, b),
        Op::Prefixed(0xFC, n) => fc_with_numbers(n, a, b),
        Op::Prefixed(..) => None,
    }
}

/// Returns the instruction with this opcode of one byte and a memory argument.
#[tactic(auto, using(crate::proofs::ByOpcode::byte_memory))]
fn byte_with_memory<'a, A: Allocator>(byte: u8, a: MemArg) -> Option<Instruction<'a, A>>
    ensures some { IfSome result (λ i. row_of i ≡ record { op = Byte byte; arguments = memory a ∷ [] }) }
    ensures other { IfNone result (shape_of table (Byte byte) ≢ Some shapes.M) }
{
    Some(match byte {
        0x28 => Instruction::I32Load(a),
        0x29 => Instruction::I64Load(a),
        0x2A => Instruction::F32Load(a),
        0x2B => Instruction::F64Load(a),
        0x2C => Instruction::I32Load8S(a),
        0x2D => Instruction::I32Load8U(a),
        0x2E => Instruction::I32Load16S(a),
        0x2F => Instruction::I32Load16U(a),
        0x30 => Instruction::I64Load8S(a),
        0x31 => Instruction::I64Load8U(a),
        0x32 => Instruction::I64Load16S(a),
        0x33 => Instruction::I64Load16U(a),
        0x34 => Instruction::I64Load32S(a),
        0x35 => Instruction::I64Load32U(a),
        0x36 => Instruction::I32Store(a),
        0x37 => Instruction::I64Store(a),
        0x38 => Instruction::F32Store(a),
        0x39 => Instruction::F64Store(a),
        0x3A => Instruction::I32Store8(a),
        0x3B => Instruction::I32Store16(a),
        0x3C => Instruction::I64Store8(a),
        0x3D => Instruction::I64Store16(a),
        0x3E => Instruction::I64Store32(a),
        _ => return None,
    })
}

/// Returns the instruction with this opcode after the prefix FD and a memory argument.
#[tactic(auto, using(crate::proofs::ByOpcode::after_fd_memory))]
fn fd_with_memory<'a, A: Allocator>(number: u32, a: MemArg) -> Option<Instruction<'a, A>>
    ensures some { IfSome result (λ i. row_of i ≡ record { op = Prefixed 0xFD number; arguments = memory a ∷ [] }) }
    ensures other { IfNone result (shape_of table (Prefixed 0xFD number) ≢ Some shapes.M) }
{
    Some(match number {
        0 => Instruction::VectorImmediate(VectorImmediate::V128Load(a)),
        1 => Instruction::VectorImmediate(VectorImmediate::V128Load8x8S(a)),
        2 => Instruction::VectorImmediate(VectorImmediate::V128Load8x8U(a)),
        3 => Instruction::VectorImmediate(VectorImmediate::V128Load16x4S(a)),
        4 => Instruction::VectorImmediate(VectorImmediate::V128Load16x4U(a)),
        5 => Instruction::VectorImmediate(VectorImmediate::V128Load32x2S(a)),
        6 => Instruction::VectorImmediate(VectorImmediate::V128Load32x2U(a)),
        7 => Instruction::VectorImmediate(VectorImmediate::V128Load8Splat(a)),
        8 => Instruction::VectorImmediate(VectorImmediate::V128Load16Splat(a)),
        9 => Instruction::VectorImmediate(VectorImmediate::V128Load32Splat(a)),
        10 => Instruction::VectorImmediate(VectorImmediate::V128Load64Splat(a)),
        11 => Instruction::VectorImmediate(VectorImmediate::V128Store(a)),
        92 => Instruction::VectorImmediate(VectorImmediate::V128Load32Zero(a)),
        93 => Instruction::VectorImmediate(VectorImmediate::V128Load64Zero(a)),
        _ => return None,
    })
}

/// Returns the instruction with this opcode after the prefix FE and a memory argument.
#[tactic(auto, using(crate::proofs::ByOpcode::after_fe_memory))]
fn fe_with_memory<'a, A: Allocator>(number: u32, a: MemArg) -> Option<Instruction<'a, A>>
    ensures some { IfSome result (λ i. row_of i ≡ record { op = Prefixed 0xFE number; arguments = memory a ∷ [] }) }
    ensures other { IfNone result (shape_of table (Prefixed 0xFE number) ≢ Some shapes.M) }
{
    Some(match number {
        0x00 => Instruction::Atomic(Atomic::MemoryAtomicNotify(a)),
        0x01 => Instruction::Atomic(Atomic::MemoryAtomicWait32(a)),
        0x02 => Instruction::Atomic(Atomic::MemoryAtomicWait64(a)),
        0x10 => Instruction::Atomic(Atomic::I32AtomicLoad(a)),
        0x11 => Instruction::Atomic(Atomic::I64AtomicLoad(a)),
        0x12 => Instruction::Atomic(Atomic::I32AtomicLoad8U(a)),
        0x13 => Instruction::Atomic(Atomic::I32AtomicLoad16U(a)),
        0x14 => Instruction::Atomic(Atomic::I64AtomicLoad8U(a)),
        0x15 => Instruction::Atomic(Atomic::I64AtomicLoad16U(a)),
        0x16 => Instruction::Atomic(Atomic::I64AtomicLoad32U(a)),
        0x17 => Instruction::Atomic(Atomic::I32AtomicStore(a)),
        0x18 => Instruction::Atomic(Atomic::I64AtomicStore(a)),
        0x19 => Instruction::Atomic(Atomic::I32AtomicStore8(a)),
        0x1A => Instruction::Atomic(Atomic::I32AtomicStore16(a)),
        0x1B => Instruction::Atomic(Atomic::I64AtomicStore8(a)),
        0x1C => Instruction::Atomic(Atomic::I64AtomicStore16(a)),
        0x1D => Instruction::Atomic(Atomic::I64AtomicStore32(a)),
        0x1E => Instruction::Atomic(Atomic::I32AtomicRmwAdd(a)),
        0x1F => Instruction::Atomic(Atomic::I64AtomicRmwAdd(a)),
        0x20 => Instruction::Atomic(Atomic::I32AtomicRmw8AddU(a)),
        0x21 => Instruction::Atomic(Atomic::I32AtomicRmw16AddU(a)),
        0x22 => Instruction::Atomic(Atomic::I64AtomicRmw8AddU(a)),
        0x23 => Instruction::Atomic(Atomic::I64AtomicRmw16AddU(a)),
        0x24 => Instruction::Atomic(Atomic::I64AtomicRmw32AddU(a)),
        0x25 => Instruction::Atomic(Atomic::I32AtomicRmwSub(a)),
        0x26 => Instruction::Atomic(Atomic::I64AtomicRmwSub(a)),
        0x27 => Instruction::Atomic(Atomic::I32AtomicRmw8SubU(a)),
        0x28 => Instruction::Atomic(Atomic::I32AtomicRmw16SubU(a)),
        0x29 => Instruction::Atomic(Atomic::I64AtomicRmw8SubU(a)),
        0x2A => Instruction::Atomic(Atomic::I64AtomicRmw16SubU(a)),
        0x2B => Instruction::Atomic(Atomic::I64AtomicRmw32SubU(a)),
        0x2C => Instruction::Atomic(Atomic::I32AtomicRmwAnd(a)),
        0x2D => Instruction::Atomic(Atomic::I64AtomicRmwAnd(a)),
        0x2E => Instruction::Atomic(Atomic::I32AtomicRmw8AndU(a)),
        0x2F => Instruction::Atomic(Atomic::I32AtomicRmw16AndU(a)),
        0x30 => Instruction::Atomic(Atomic::I64AtomicRmw8AndU(a)),
        0x31 => Instruction::Atomic(Atomic::I64AtomicRmw16AndU(a)),
        0x32 => Instruction::Atomic(Atomic::I64AtomicRmw32AndU(a)),
        0x33 => Instruction::Atomic(Atomic::I32AtomicRmwOr(a)),
        0x34 => Instruction::Atomic(Atomic::I64AtomicRmwOr(a)),
        0x35 => Instruction::Atomic(Atomic::I32AtomicRmw8OrU(a)),
        0x36 => Instruction::Atomic(Atomic::I32AtomicRmw16OrU(a)),
        0x37 => Instruction::Atomic(Atomic::I64AtomicRmw8OrU(a)),
        0x38 => Instruction::Atomic(Atomic::I64AtomicRmw16OrU(a)),
        0x39 => Instruction::Atomic(Atomic::I64AtomicRmw32OrU(a)),
        0x3A => Instruction::Atomic(Atomic::I32AtomicRmwXor(a)),
        0x3B => Instruction::Atomic(Atomic::I64AtomicRmwXor(a)),
        0x3C => Instruction::Atomic(Atomic::I32AtomicRmw8XorU(a)),
        0x3D => Instruction::Atomic(Atomic::I32AtomicRmw16XorU(a)),
        0x3E => Instruction::Atomic(Atomic::I64AtomicRmw8XorU(a)),
        0x3F => Instruction::Atomic(Atomic::I64AtomicRmw16XorU(a)),
        0x40 => Instruction::Atomic(Atomic::I64AtomicRmw32XorU(a)),
        0x41 => Instruction::Atomic(Atomic::I32AtomicRmwXchg(a)),
        0x42 => Instruction::Atomic(Atomic::I64AtomicRmwXchg(a)),
        0x43 => Instruction::Atomic(Atomic::I32AtomicRmw8XchgU(a)),
        0x44 => Instruction::Atomic(Atomic::I32AtomicRmw16XchgU(a)),
        0x45 => Instruction::Atomic(Atomic::I64AtomicRmw8XchgU(a)),
        0x46 => Instruction::Atomic(Atomic::I64AtomicRmw16XchgU(a)),
        0x47 => Instruction::Atomic(Atomic::I64AtomicRmw32XchgU(a)),
        0x48 => Instruction::Atomic(Atomic::I32AtomicRmwCmpxchg(a)),
        0x49 => Instruction::Atomic(Atomic::I64AtomicRmwCmpxchg(a)),
        0x4A => Instruction::Atomic(Atomic::I32AtomicRmw8CmpxchgU(a)),
        0x4B => Instruction::Atomic(Atomic::I32AtomicRmw16CmpxchgU(a)),
        0x4C => Instruction::Atomic(Atomic::I64AtomicRmw8CmpxchgU(a)),
        0x4D => Instruction::Atomic(Atomic::I64AtomicRmw16CmpxchgU(a)),
        0x4E => Instruction::Atomic(Atomic::I64AtomicRmw32CmpxchgU(a)),
        _ => return None,
    })
}

/// Returns the instruction with this opcode and a memory argument.
#[tactic(auto, using(crate::proofs::ByOpcode::other_memory))]
fn with_memory<'a, A: Allocator>(op: Op, a: MemArg) -> Option<Instruction<'a, A>>
    ensures some { IfSome result (λ i. row_of i ≡ record { op = op; arguments = memory a ∷ [] }) }
    ensures other { IfNone result (shape_of table op ≢ Some shapes.M) }
{
    match op {
        Op::Byte(n) => byte_with_memory(n, a),
        Op::Prefixed(0xFD, n) => fd_with_memory(n, a),
        Op::Prefixed(0xFE, n) => fe_with_memory(n, a),
        Op::Prefixed(..) => None,
    }
}

/// Returns the instruction with this opcode and a memory argument and a lane.
#[tactic(auto, using(crate::proofs::ByOpcode::after_fd_memory_lane, crate::proofs::ByOpcode::other_memory_lane, crate::proofs::ByOpcode::byte_memory_lane))]
fn with_memory_lane<'a, A: Allocator>(op: Op, a: MemArg, b: Lane) -> Option<Instruction<'a, A>>
    ensures some { IfSome result (λ i. row_of i ≡ record { op = op; arguments = memory a ∷ lane b ∷ [] }) }
    ensures other { IfNone result (shape_of table op ≢ Some shapes.Ml) }
{
    Some(match op {
        Op::Prefixed(0xFD, 84) => Instruction::VectorImmediate(VectorImmediate::V128Load8Lane {
            memarg: a,
            lane: b,
        }),
        Op::Prefixed(0xFD, 85) => Instruction::VectorImmediate(VectorImmediate::V128Load16Lane {
            memarg: a,
            lane: b,
        }),
        Op::Prefixed(0xFD, 86) => Instruction::VectorImmediate(VectorImmediate::V128Load32Lane {
            memarg: a,
            lane: b,
        }),
        Op::Prefixed(0xFD, 87) => Instruction::VectorImmediate(VectorImmediate::V128Load64Lane {
            memarg: a,
            lane: b,
        }),
        Op::Prefixed(0xFD, 88) => Instruction::VectorImmediate(VectorImmediate::V128Store8Lane {
            memarg: a,
            lane: b,
        }),
        Op::Prefixed(0xFD, 89) => Instruction::VectorImmediate(VectorImmediate::V128Store16Lane {
            memarg: a,
            lane: b,
        }),
        Op::Prefixed(0xFD, 90) => Instruction::VectorImmediate(VectorImmediate::V128Store32Lane {
            memarg: a,
            lane: b,
        }),
        Op::Prefixed(0xFD, 91) => Instruction::VectorImmediate(VectorImmediate::V128Store64Lane {
            memarg: a,
            lane: b,
        }),
        _ => return None,
    })
}

/// Returns the instruction with this opcode after the prefix FD and a lane.
#[tactic(auto, using(crate::proofs::ByOpcode::after_fd_lane))]
fn fd_with_lane<'a, A: Allocator>(number: u32, a: Lane) -> Option<Instruction<'a, A>>
    ensures some { IfSome result (λ i. row_of i ≡ record { op = Prefixed 0xFD number; arguments = lane a ∷ [] }) }
    ensures other { IfNone result (shape_of table (Prefixed 0xFD number) ≢ Some shapes.L) }
{
    Some(match number {
        21 => Instruction::VectorImmediate(VectorImmediate::I8x16ExtractLaneS(a)),
        22 => Instruction::VectorImmediate(VectorImmediate::I8x16ExtractLaneU(a)),
        23 => Instruction::VectorImmediate(VectorImmediate::I8x16ReplaceLane(a)),
        24 => Instruction::VectorImmediate(VectorImmediate::I16x8ExtractLaneS(a)),
        25 => Instruction::VectorImmediate(VectorImmediate::I16x8ExtractLaneU(a)),
        26 => Instruction::VectorImmediate(VectorImmediate::I16x8ReplaceLane(a)),
        27 => Instruction::VectorImmediate(VectorImmediate::I32x4ExtractLane(a)),
        28 => Instruction::VectorImmediate(VectorImmediate::I32x4ReplaceLane(a)),
        29 => Instruction::VectorImmediate(VectorImmediate::I64x2ExtractLane(a)),
        30 => Instruction::VectorImmediate(VectorImmediate::I64x2ReplaceLane(a)),
        31 => Instruction::VectorImmediate(VectorImmediate::F32x4ExtractLane(a)),
        32 => Instruction::VectorImmediate(VectorImmediate::F32x4ReplaceLane(a)),
        33 => Instruction::VectorImmediate(VectorImmediate::F64x2ExtractLane(a)),
        34 => Instruction::VectorImmediate(VectorImmediate::F64x2ReplaceLane(a)),
        _ => return None,
    })
}

/// Returns the instruction with this opcode and a lane.
#[tactic(auto, using(crate::proofs::ByOpcode::other_lane, crate::proofs::ByOpcode::byte_lane))]
fn with_lane<'a, A: Allocator>(op: Op, a: Lane) -> Option<Instruction<'a, A>>
    ensures some { IfSome result (λ i. row_of i ≡ record { op = op; arguments = lane a ∷ [] }) }
    ensures other { IfNone result (shape_of table op ≢ Some shapes.L) }
{
    match op {
        Op::Prefixed(0xFD, n) => fd_with_lane(n, a),
        _ => None,
    }
}

/// Returns the instruction with this opcode and a block type.
#[tactic(auto, using(crate::proofs::ByOpcode::byte_block, crate::proofs::ByOpcode::other_block))]
fn with_block<'a, A: Allocator>(op: Op, a: BlockType) -> Option<Instruction<'a, A>>
    ensures some { IfSome result (λ i. row_of i ≡ record { op = op; arguments = block a ∷ [] }) }
    ensures other { IfNone result (shape_of table op ≢ Some shapes.B) }
{
    Some(match op {
        Op::Byte(0x02) => Instruction::Block(a),
        Op::Byte(0x03) => Instruction::Loop(a),
        Op::Byte(0x04) => Instruction::If(a),
        Op::Byte(0x06) => Instruction::Try(a),
        _ => return None,
    })
}

/// Returns the instruction with this opcode of one byte and a heap type.
#[tactic(auto, using(crate::proofs::ByOpcode::byte_heap))]
fn byte_with_heap<'a, A: Allocator>(byte: u8, a: HeapType) -> Option<Instruction<'a, A>>
    ensures some { IfSome result (λ i. row_of i ≡ record { op = Byte byte; arguments = heap a ∷ [] }) }
    ensures other { IfNone result (shape_of table (Byte byte) ≢ Some shapes.H) }
{
    Some(match byte {
        0xD0 => Instruction::RefNull(a),
        _ => return None,
    })
}

/// Returns the instruction with this opcode after the prefix FB and a heap type.
#[tactic(auto, using(crate::proofs::ByOpcode::after_fb_heap))]
fn fb_with_heap<'a, A: Allocator>(number: u32, a: HeapType) -> Option<Instruction<'a, A>>
    ensures some { IfSome result (λ i. row_of i ≡ record { op = Prefixed 0xFB number; arguments = heap a ∷ [] }) }
    ensures other { IfNone result (shape_of table (Prefixed 0xFB number) ≢ Some shapes.H) }
{
    Some(match number {
        20 => Instruction::RefTestNonNull(a),
        21 => Instruction::RefTestNullable(a),
        22 => Instruction::RefCastNonNull(a),
        23 => Instruction::RefCastNullable(a),
        35 => Instruction::RefCastDescEqNonNull(a),
        36 => Instruction::RefCastDescEqNullable(a),
        _ => return None,
    })
}

/// Returns the instruction with this opcode and a heap type.
#[tactic(auto, using(crate::proofs::ByOpcode::other_heap))]
fn with_heap<'a, A: Allocator>(op: Op, a: HeapType) -> Option<Instruction<'a, A>>
    ensures some { IfSome result (λ i. row_of i ≡ record { op = op; arguments = heap a ∷ [] }) }
    ensures other { IfNone result (shape_of table op ≢ Some shapes.H) }
{
    match op {
        Op::Byte(n) => byte_with_heap(n, a),
        Op::Prefixed(0xFB, n) => fb_with_heap(n, a),
        Op::Prefixed(..) => None,
    }
}

/// Returns the instruction with this opcode and an ordering.
#[tactic(auto, using(crate::proofs::ByOpcode::after_fe_ordering, crate::proofs::ByOpcode::other_ordering, crate::proofs::ByOpcode::byte_ordering))]
fn with_ordering<'a, A: Allocator>(op: Op, a: Ordering) -> Option<Instruction<'a, A>>
    ensures some { IfSome result (λ i. row_of i ≡ record { op = op; arguments = ordering a ∷ [] }) }
    ensures other { IfNone result (shape_of table op ≢ Some shapes.O) }
{
    Some(match op {
        Op::Prefixed(0xFE, 0x03) => Instruction::Atomic(Atomic::AtomicFence(a)),
        _ => return None,
    })
}

/// Returns the instruction with this opcode after the prefix FE and an ordering and a number.
#[tactic(auto, using(crate::proofs::ByOpcode::after_fe_ordering_number))]
fn fe_with_ordering_number<'a, A: Allocator>(
    number: u32,
    a: Ordering,
    b: u32,
) -> Option<Instruction<'a, A>>
    ensures some { IfSome result (λ i. row_of i ≡ record { op = Prefixed 0xFE number; arguments = ordering a ∷ unsigned b ∷ [] }) }
    ensures other { IfNone result (shape_of table (Prefixed 0xFE number) ≢ Some shapes.Ou) }
{
    Some(match number {
        0x4F => Instruction::Atomic(Atomic::GlobalAtomicGet {
            ordering: a,
            global_index: b,
        }),
        0x50 => Instruction::Atomic(Atomic::GlobalAtomicSet {
            ordering: a,
            global_index: b,
        }),
        0x51 => Instruction::Atomic(Atomic::GlobalAtomicRmwAdd {
            ordering: a,
            global_index: b,
        }),
        0x52 => Instruction::Atomic(Atomic::GlobalAtomicRmwSub {
            ordering: a,
            global_index: b,
        }),
        0x53 => Instruction::Atomic(Atomic::GlobalAtomicRmwAnd {
            ordering: a,
            global_index: b,
        }),
        0x54 => Instruction::Atomic(Atomic::GlobalAtomicRmwOr {
            ordering: a,
            global_index: b,
        }),
        0x55 => Instruction::Atomic(Atomic::GlobalAtomicRmwXor {
            ordering: a,
            global_index: b,
        }),
        0x56 => Instruction::Atomic(Atomic::GlobalAtomicRmwXchg {
            ordering: a,
            global_index: b,
        }),
        0x57 => Instruction::Atomic(Atomic::GlobalAtomicRmwCmpxchg {
            ordering: a,
            global_index: b,
        }),
        0x58 => Instruction::Atomic(Atomic::TableAtomicGet {
            ordering: a,
            table_index: b,
        }),
        0x59 => Instruction::Atomic(Atomic::TableAtomicSet {
            ordering: a,
            table_index: b,
        }),
        0x5A => Instruction::Atomic(Atomic::TableAtomicRmwXchg {
            ordering: a,
            table_index: b,
        }),
        0x5B => Instruction::Atomic(Atomic::TableAtomicRmwCmpxchg {
            ordering: a,
            table_index: b,
        }),
        0x67 => Instruction::Atomic(Atomic::ArrayAtomicGet {
            ordering: a,
            array_type_index: b,
        }),
        0x68 => Instruction::Atomic(Atomic::ArrayAtomicGetS {
            ordering: a,
            array_type_index: b,
        }),
        0x69 => Instruction::Atomic(Atomic::ArrayAtomicGetU {
            ordering: a,
            array_type_index: b,
        }),
        0x6A => Instruction::Atomic(Atomic::ArrayAtomicSet {
            ordering: a,
            array_type_index: b,
        }),
        0x6B => Instruction::Atomic(Atomic::ArrayAtomicRmwAdd {
            ordering: a,
            array_type_index: b,
        }),
        0x6C => Instruction::Atomic(Atomic::ArrayAtomicRmwSub {
            ordering: a,
            array_type_index: b,
        }),
        0x6D => Instruction::Atomic(Atomic::ArrayAtomicRmwAnd {
            ordering: a,
            array_type_index: b,
        }),
        0x6E => Instruction::Atomic(Atomic::ArrayAtomicRmwOr {
            ordering: a,
            array_type_index: b,
        }),
        0x6F => Instruction::Atomic(Atomic::ArrayAtomicRmwXor {
            ordering: a,
            array_type_index: b,
        }),
        0x70 => Instruction::Atomic(Atomic::ArrayAtomicRmwXchg {
            ordering: a,
            array_type_index: b,
        }),
        0x71 => Instruction::Atomic(Atomic::ArrayAtomicRmwCmpxchg {
            ordering: a,
            array_type_index: b,
        }),
        _ => return None,
    })
}

/// Returns the instruction with this opcode and an ordering and a number.
#[tactic(auto, using(crate::proofs::ByOpcode::other_ordering_number, crate::proofs::ByOpcode::byte_ordering_number))]
fn with_ordering_number<'a, A: Allocator>(op: Op, a: Ordering, b: u32) -> Option<Instruction<'a, A>>
    ensures some { IfSome result (λ i. row_of i ≡ record { op = op; arguments = ordering a ∷ unsigned b ∷ [] }) }
    ensures other { IfNone result (shape_of table op ≢ Some shapes.Ou) }
{
    match op {
        Op::Prefixed(0xFE, n) => fe_with_ordering_number(n, a, b),
        _ => None,
    }
}

/// Returns the instruction with this opcode after the prefix FE and an ordering and two numbers.
#[tactic(auto, using(crate::proofs::ByOpcode::after_fe_ordering_numbers))]
fn fe_with_ordering_numbers<'a, A: Allocator>(
    number: u32,
    a: Ordering,
    b: u32,
    c: u32,
) -> Option<Instruction<'a, A>>
    ensures some { IfSome result (λ i. row_of i ≡ record { op = Prefixed 0xFE number; arguments = ordering a ∷ unsigned b ∷ unsigned c ∷ [] }) }
    ensures other { IfNone result (shape_of table (Prefixed 0xFE number) ≢ Some shapes.Ouu) }
{
    Some(match number {
        0x5C => Instruction::Atomic(Atomic::StructAtomicGet {
            ordering: a,
            struct_type_index: b,
            field_index: c,
        }),
        0x5D => Instruction::Atomic(Atomic::StructAtomicGetS {
            ordering: a,
            struct_type_index: b,
            field_index: c,
        }),
        0x5E => Instruction::Atomic(Atomic::StructAtomicGetU {
            ordering: a,
            struct_type_index: b,
            field_index: c,
        }),
        0x5F => Instruction::Atomic(Atomic::StructAtomicSet {
            ordering: a,
            struct_type_index: b,
            field_index: c,
        }),
        0x60 => Instruction::Atomic(Atomic::StructAtomicRmwAdd {
            ordering: a,
            struct_type_index: b,
            field_index: c,
        }),
        0x61 => Instruction::Atomic(Atomic::StructAtomicRmwSub {
            ordering: a,
            struct_type_index: b,
            field_index: c,
        }),
        0x62 => Instruction::Atomic(Atomic::StructAtomicRmwAnd {
            ordering: a,
            struct_type_index: b,
            field_index: c,
        }),
        0x63 => Instruction::Atomic(Atomic::StructAtomicRmwOr {
            ordering: a,
            struct_type_index: b,
            field_index: c,
        }),
        0x64 => Instruction::Atomic(Atomic::StructAtomicRmwXor {
            ordering: a,
            struct_type_index: b,
            field_index: c,
        }),
        0x65 => Instruction::Atomic(Atomic::StructAtomicRmwXchg {
            ordering: a,
            struct_type_index: b,
            field_index: c,
        }),
        0x66 => Instruction::Atomic(Atomic::StructAtomicRmwCmpxchg {
            ordering: a,
            struct_type_index: b,
            field_index: c,
        }),
        _ => return None,
    })
}

/// Returns the instruction with this opcode and an ordering and two numbers.
#[tactic(auto, using(crate::proofs::ByOpcode::other_ordering_numbers, crate::proofs::ByOpcode::byte_ordering_numbers))]
fn with_ordering_numbers<'a, A: Allocator>(
    op: Op,
    a: Ordering,
    b: u32,
    c: u32,
) -> Option<Instruction<'a, A>>
    ensures some { IfSome result (λ i. row_of i ≡ record { op = op; arguments = ordering a ∷ unsigned b ∷ unsigned c ∷ [] }) }
    ensures other { IfNone result (shape_of table op ≢ Some shapes.Ouu) }
{
    match op {
        Op::Prefixed(0xFE, n) => fe_with_ordering_numbers(n, a, b, c),
        _ => None,
    }
}

/// Returns the instruction with this opcode and a signed number of 32 bits.
#[tactic(auto, using(crate::proofs::ByOpcode::byte_signed32, crate::proofs::ByOpcode::other_signed32))]
fn with_signed32<'a, A: Allocator>(op: Op, a: i32) -> Option<Instruction<'a, A>>
    ensures some { IfSome result (λ i. row_of i ≡ record { op = op; arguments = signed32 a ∷ [] }) }
    ensures other { IfNone result (shape_of table op ≢ Some shapes.C32) }
{
    Some(match op {
        Op::Byte(0x41) => Instruction::I32Const(a),
        _ => return None,
    })
}

/// Returns the instruction with this opcode and a signed number of 64 bits.
#[tactic(auto, using(crate::proofs::ByOpcode::byte_signed64, crate::proofs::ByOpcode::other_signed64))]
fn with_signed64<'a, A: Allocator>(op: Op, a: i64) -> Option<Instruction<'a, A>>
    ensures some { IfSome result (λ i. row_of i ≡ record { op = op; arguments = signed64 a ∷ [] }) }
    ensures other { IfNone result (shape_of table op ≢ Some shapes.C64) }
{
    Some(match op {
        Op::Byte(0x42) => Instruction::I64Const(a),
        _ => return None,
    })
}

/// Returns the instruction with this opcode and a float of 32 bits.
#[tactic(auto, using(crate::proofs::ByOpcode::byte_float32, crate::proofs::ByOpcode::other_float32))]
fn with_float32<'a, A: Allocator>(op: Op, a: Ieee32) -> Option<Instruction<'a, A>>
    ensures some { IfSome result (λ i. row_of i ≡ record { op = op; arguments = float32 a ∷ [] }) }
    ensures other { IfNone result (shape_of table op ≢ Some shapes.F32) }
{
    Some(match op {
        Op::Byte(0x43) => Instruction::F32Const(a),
        _ => return None,
    })
}

/// Returns the instruction with this opcode and a float of 64 bits.
#[tactic(auto, using(crate::proofs::ByOpcode::byte_float64, crate::proofs::ByOpcode::other_float64))]
fn with_float64<'a, A: Allocator>(op: Op, a: Ieee64) -> Option<Instruction<'a, A>>
    ensures some { IfSome result (λ i. row_of i ≡ record { op = op; arguments = float64 a ∷ [] }) }
    ensures other { IfNone result (shape_of table op ≢ Some shapes.F64) }
{
    Some(match op {
        Op::Byte(0x44) => Instruction::F64Const(a),
        _ => return None,
    })
}

/// Returns the instruction with this opcode and a vector of 128 bits.
#[tactic(auto, using(crate::proofs::ByOpcode::after_fd_vector, crate::proofs::ByOpcode::other_vector, crate::proofs::ByOpcode::byte_vector))]
fn with_vector<'a, A: Allocator>(op: Op, a: i128) -> Option<Instruction<'a, A>>
    ensures some { IfSome result (λ i. row_of i ≡ record { op = op; arguments = vector a ∷ [] }) }
    ensures other { IfNone result (shape_of table op ≢ Some shapes.V) }
{
    Some(match op {
        Op::Prefixed(0xFD, 12) => Instruction::VectorImmediate(VectorImmediate::V128Const(a)),
        _ => return None,
    })
}

/// Returns the instruction with this opcode and sixteen lanes.
#[tactic(auto, using(crate::proofs::ByOpcode::after_fd_lanes, crate::proofs::ByOpcode::other_lanes, crate::proofs::ByOpcode::byte_lanes))]
fn with_lanes<'a, A: Allocator>(op: Op, a: [Lane; 16]) -> Option<Instruction<'a, A>>
    ensures some { IfSome result (λ i. row_of i ≡ record { op = op; arguments = lanes a ∷ [] }) }
    ensures other { IfNone result (shape_of table op ≢ Some shapes.Ls) }
{
    Some(match op {
        Op::Prefixed(0xFD, 13) => Instruction::VectorImmediate(VectorImmediate::I8x16Shuffle(a)),
        _ => return None,
    })
}

/// Returns the instruction with this opcode and labels and a default label.
#[tactic(auto, using(crate::proofs::ByOpcode::byte_labels, crate::proofs::ByOpcode::other_labels))]
fn with_labels<'a, A: Allocator>(op: Op, a: &'a [u32], b: u32) -> Option<Instruction<'a, A>>
    ensures some { IfSome result (λ i. row_of i ≡ record { op = op; arguments = labels a.now ∷ unsigned b ∷ [] }) }
    ensures other { IfNone result (shape_of table op ≢ Some shapes.Bt) }
{
    Some(match op {
        Op::Byte(0x0E) => Instruction::BrTable(CowSlice::Borrowed(a), b),
        _ => return None,
    })
}

/// Returns the instruction with this opcode and a block type and catch clauses.
#[tactic(auto, using(crate::proofs::ByOpcode::byte_clauses, crate::proofs::ByOpcode::other_clauses))]
fn with_clauses<'a, A: Allocator>(
    op: Op,
    a: BlockType,
    b: &'a [Catch],
) -> Option<Instruction<'a, A>>
    ensures some { IfSome result (λ i. row_of i ≡ record { op = op; arguments = block a ∷ catches b.now ∷ [] }) }
    ensures other { IfNone result (shape_of table op ≢ Some shapes.Tt) }
{
    Some(match op {
        Op::Byte(0x1F) => Instruction::TryTable(a, CowSlice::Borrowed(b)),
        _ => return None,
    })
}

/// Returns the instruction with this opcode and value types.
#[tactic(auto, using(crate::proofs::ByOpcode::byte_types, crate::proofs::ByOpcode::other_types))]
fn with_types<'a, A: Allocator>(op: Op, a: &'a [ValType]) -> Option<Instruction<'a, A>>
    ensures some { IfSome result (λ i. row_of i ≡ record { op = op; arguments = types a.now ∷ [] }) }
    ensures other { IfNone result (shape_of table op ≢ Some shapes.Ts) }
{
    let Op::Byte(0x1C) = op else {
        return None;
    };
    if let [one] = a {
        return Some(Instruction::TypedSelect(*one));
    }
    Some(Instruction::TypedSelectMulti(CowSlice::Borrowed(a)))
}

/// Returns the instruction with this opcode and a label and two reference types.
#[tactic(auto, using(crate::proofs::ByOpcode::after_fb_cast, crate::proofs::ByOpcode::other_cast, crate::proofs::ByOpcode::byte_cast))]
pub(crate) fn with_cast<'a, A: Allocator>(
    op: Op,
    a: u32,
    b: RefType,
    c: RefType,
) -> Option<Instruction<'a, A>>
    ensures some { IfSome result (λ i. row_of i ≡ record { op = op; arguments = flag (cast_flag_of b c) ∷ unsigned a ∷ heap b.heap_type ∷ heap c.heap_type ∷ [] }) }
    ensures other { IfNone result (shape_of table op ≢ Some shapes.K) }
{
    Some(match op {
        Op::Prefixed(0xFB, 24) => Instruction::BrOnCast {
            relative_depth: a,
            from_ref_type: b,
            to_ref_type: c,
        },
        Op::Prefixed(0xFB, 25) => Instruction::BrOnCastFail {
            relative_depth: a,
            from_ref_type: b,
            to_ref_type: c,
        },
        Op::Prefixed(0xFB, 37) => Instruction::BrOnCastDescEq {
            relative_depth: a,
            from_ref_type: b,
            to_ref_type: c,
        },
        Op::Prefixed(0xFB, 38) => Instruction::BrOnCastDescEqFail {
            relative_depth: a,
            from_ref_type: b,
            to_ref_type: c,
        },
        _ => return None,
    })
}

/// Returns the instruction with this opcode and a number and handle clauses.
#[tactic(auto, using(crate::proofs::ByOpcode::byte_handles, crate::proofs::ByOpcode::other_handles))]
fn with_handles<'a, A: Allocator>(op: Op, a: u32, b: &'a [Handle]) -> Option<Instruction<'a, A>>
    ensures some { IfSome result (λ i. row_of i ≡ record { op = op; arguments = unsigned a ∷ handles b.now ∷ [] }) }
    ensures other { IfNone result (shape_of table op ≢ Some shapes.Uh) }
{
    Some(match op {
        Op::Byte(0xE3) => Instruction::Resume {
            cont_type_index: a,
            resume_table: CowSlice::Borrowed(b),
        },
        Op::Byte(0xE5) => Instruction::ResumeThrowRef {
            cont_type_index: a,
            resume_table: CowSlice::Borrowed(b),
        },
        _ => return None,
    })
}

/// Returns the instruction with this opcode and two numbers and handle clauses.
#[tactic(auto, using(crate::proofs::ByOpcode::byte_numbers_handles, crate::proofs::ByOpcode::other_numbers_handles))]
fn with_numbers_handles<'a, A: Allocator>(
    op: Op,
    a: u32,
    b: u32,
    c: &'a [Handle],
) -> Option<Instruction<'a, A>>
    ensures some { IfSome result (λ i. row_of i ≡ record { op = op; arguments = unsigned a ∷ unsigned b ∷ handles c.now ∷ [] }) }
    ensures other { IfNone result (shape_of table op ≢ Some shapes.Uuh) }
{
    Some(match op {
        Op::Byte(0xE4) => Instruction::ResumeThrow {
            cont_type_index: a,
            tag_index: b,
            resume_table: CowSlice::Borrowed(c),
        },
        _ => return None,
    })
}

/// Returns the instruction with this opcode and these arguments: no immediates.
#[tactic(auto, using(crate::proofs::Conversions::conversion_steps))]
pub(crate) fn of_nothing<'a, A: Allocator>(op: Op, args: &'a [Arg<A>]) -> Option<Instruction<'a, A>>
    requires { shape_of table op ≡ Some shapes.Nothing }
    ensures some { IfSome result (λ i. row_of i ≡ record { op = op; arguments = map argument_view args.now }) }
    ensures other { IfNone result (IsNoInstruction op (map argument_view args.now)) }
{
    let [] = args else {
        return None;
    };
    with_nothing(op)
}

/// Returns the instruction with this opcode and these arguments: a number.
#[tactic(auto, using(crate::proofs::Conversions::conversion_steps))]
pub(crate) fn of_number<'a, A: Allocator>(op: Op, args: &'a [Arg<A>]) -> Option<Instruction<'a, A>>
    requires { shape_of table op ≡ Some shapes.U }
    ensures some { IfSome result (λ i. row_of i ≡ record { op = op; arguments = map argument_view args.now }) }
    ensures other { IfNone result (IsNoInstruction op (map argument_view args.now)) }
{
    let [a] = args else {
        return None;
    };
    with_number(op, number_of(a)?)
}

/// Returns the instruction with this opcode and these arguments: two numbers.
#[tactic(auto, using(crate::proofs::Conversions::conversion_steps))]
pub(crate) fn of_numbers<'a, A: Allocator>(op: Op, args: &'a [Arg<A>]) -> Option<Instruction<'a, A>>
    requires { shape_of table op ≡ Some shapes.Uu }
    ensures some { IfSome result (λ i. row_of i ≡ record { op = op; arguments = map argument_view args.now }) }
    ensures other { IfNone result (IsNoInstruction op (map argument_view args.now)) }
{
    let [a, b] = args else {
        return None;
    };
    with_numbers(op, number_of(a)?, number_of(b)?)
}

/// Returns the instruction with this opcode and these arguments: a memory argument.
#[tactic(auto, using(crate::proofs::Conversions::conversion_steps))]
pub(crate) fn of_memory<'a, A: Allocator>(op: Op, args: &'a [Arg<A>]) -> Option<Instruction<'a, A>>
    requires { shape_of table op ≡ Some shapes.M }
    ensures some { IfSome result (λ i. row_of i ≡ record { op = op; arguments = map argument_view args.now }) }
    ensures other { IfNone result (IsNoInstruction op (map argument_view args.now)) }
{
    let [a] = args else {
        return None;
    };
    with_memory(op, memory_of(a)?)
}

/// Returns the instruction with this opcode and these arguments: a memory argument and a lane.
#[tactic(auto, using(crate::proofs::Conversions::conversion_steps))]
pub(crate) fn of_memory_lane<'a, A: Allocator>(
    op: Op,
    args: &'a [Arg<A>],
) -> Option<Instruction<'a, A>>
    requires { shape_of table op ≡ Some shapes.Ml }
    ensures some { IfSome result (λ i. row_of i ≡ record { op = op; arguments = map argument_view args.now }) }
    ensures other { IfNone result (IsNoInstruction op (map argument_view args.now)) }
{
    let [a, b] = args else {
        return None;
    };
    with_memory_lane(op, memory_of(a)?, lane_of(b)?)
}

/// Returns the instruction with this opcode and these arguments: a lane.
#[tactic(auto, using(crate::proofs::Conversions::conversion_steps))]
pub(crate) fn of_lane<'a, A: Allocator>(op: Op, args: &'a [Arg<A>]) -> Option<Instruction<'a, A>>
    requires { shape_of table op ≡ Some shapes.L }
    ensures some { IfSome result (λ i. row_of i ≡ record { op = op; arguments = map argument_view args.now }) }
    ensures other { IfNone result (IsNoInstruction op (map argument_view args.now)) }
{
    let [a] = args else {
        return None;
    };
    with_lane(op, lane_of(a)?)
}

/// Returns the instruction with this opcode and these arguments: a block type.
#[tactic(auto, using(crate::proofs::Conversions::conversion_steps))]
pub(crate) fn of_block<'a, A: Allocator>(op: Op, args: &'a [Arg<A>]) -> Option<Instruction<'a, A>>
    requires { shape_of table op ≡ Some shapes.B }
    ensures some { IfSome result (λ i. row_of i ≡ record { op = op; arguments = map argument_view args.now }) }
    ensures other { IfNone result (IsNoInstruction op (map argument_view args.now)) }
{
    let [a] = args else {
        return None;
    };
    with_block(op, block_of(a)?)
}

/// Returns the instruction with this opcode and these arguments: a heap type.
#[tactic(auto, using(crate::proofs::Conversions::conversion_steps))]
pub(crate) fn of_heap<'a, A: Allocator>(op: Op, args: &'a [Arg<A>]) -> Option<Instruction<'a, A>>
    requires { shape_of table op ≡ Some shapes.H }
    ensures some { IfSome result (λ i. row_of i ≡ record { op = op; arguments = map argument_view args.now }) }
    ensures other { IfNone result (IsNoInstruction op (map argument_view args.now)) }
{
    let [a] = args else {
        return None;
    };
    with_heap(op, heap_of(a)?)
}

/// Returns the instruction with this opcode and these arguments: an ordering.
#[tactic(auto, using(crate::proofs::Conversions::conversion_steps))]
pub(crate) fn of_ordering<'a, A: Allocator>(
    op: Op,
    args: &'a [Arg<A>],
) -> Option<Instruction<'a, A>>
    requires { shape_of table op ≡ Some shapes.O }
    ensures some { IfSome result (λ i. row_of i ≡ record { op = op; arguments = map argument_view args.now }) }
    ensures other { IfNone result (IsNoInstruction op (map argument_view args.now)) }
{
    let [a] = args else {
        return None;
    };
    with_ordering(op, ordering_of(a)?)
}

/// Returns the instruction with this opcode and these arguments: an ordering and a number.
#[tactic(auto, using(crate::proofs::Conversions::conversion_steps))]
pub(crate) fn of_ordering_number<'a, A: Allocator>(
    op: Op,
    args: &'a [Arg<A>],
) -> Option<Instruction<'a, A>>
    requires { shape_of table op ≡ Some shapes.Ou }
    ensures some { IfSome result (λ i. row_of i ≡ record { op = op; arguments = map argument_view args.now }) }
    ensures other { IfNone result (IsNoInstruction op (map argument_view args.now)) }
{
    let [a, b] = args else {
        return None;
    };
    with_ordering_number(op, ordering_of(a)?, number_of(b)?)
}

/// Returns the instruction with this opcode and these arguments: an ordering and two numbers.
#[tactic(auto, using(crate::proofs::Conversions::conversion_steps))]
pub(crate) fn of_ordering_numbers<'a, A: Allocator>(
    op: Op,
    args: &'a [Arg<A>],
) -> Option<Instruction<'a, A>>
    requires { shape_of table op ≡ Some shapes.Ouu }
    ensures some { IfSome result (λ i. row_of i ≡ record { op = op; arguments = map argument_view args.now }) }
    ensures other { IfNone result (IsNoInstruction op (map argument_view args.now)) }
{
    let [a, b, c] = args else {
        return None;
    };
    with_ordering_numbers(op, ordering_of(a)?, number_of(b)?, number_of(c)?)
}

/// Returns the instruction with this opcode and these arguments: a signed number of 32 bits.
#[tactic(auto, using(crate::proofs::Conversions::conversion_steps))]
pub(crate) fn of_signed32<'a, A: Allocator>(
    op: Op,
    args: &'a [Arg<A>],
) -> Option<Instruction<'a, A>>
    requires { shape_of table op ≡ Some shapes.C32 }
    ensures some { IfSome result (λ i. row_of i ≡ record { op = op; arguments = map argument_view args.now }) }
    ensures other { IfNone result (IsNoInstruction op (map argument_view args.now)) }
{
    let [a] = args else {
        return None;
    };
    with_signed32(op, signed32_of(a)?)
}

/// Returns the instruction with this opcode and these arguments: a signed number of 64 bits.
#[tactic(auto, using(crate::proofs::Conversions::conversion_steps))]
pub(crate) fn of_signed64<'a, A: Allocator>(
    op: Op,
    args: &'a [Arg<A>],
) -> Option<Instruction<'a, A>>
    requires { shape_of table op ≡ Some shapes.C64 }
    ensures some { IfSome result (λ i. row_of i ≡ record { op = op; arguments = map argument_view args.now }) }
    ensures other { IfNone result (IsNoInstruction op (map argument_view args.now)) }
{
    let [a] = args else {
        return None;
    };
    with_signed64(op, signed64_of(a)?)
}

/// Returns the instruction with this opcode and these arguments: a float of 32 bits.
#[tactic(auto, using(crate::proofs::Conversions::conversion_steps))]
pub(crate) fn of_float32<'a, A: Allocator>(op: Op, args: &'a [Arg<A>]) -> Option<Instruction<'a, A>>
    requires { shape_of table op ≡ Some shapes.F32 }
    ensures some { IfSome result (λ i. row_of i ≡ record { op = op; arguments = map argument_view args.now }) }
    ensures other { IfNone result (IsNoInstruction op (map argument_view args.now)) }
{
    let [a] = args else {
        return None;
    };
    with_float32(op, float32_of(a)?)
}

/// Returns the instruction with this opcode and these arguments: a float of 64 bits.
#[tactic(auto, using(crate::proofs::Conversions::conversion_steps))]
pub(crate) fn of_float64<'a, A: Allocator>(op: Op, args: &'a [Arg<A>]) -> Option<Instruction<'a, A>>
    requires { shape_of table op ≡ Some shapes.F64 }
    ensures some { IfSome result (λ i. row_of i ≡ record { op = op; arguments = map argument_view args.now }) }
    ensures other { IfNone result (IsNoInstruction op (map argument_view args.now)) }
{
    let [a] = args else {
        return None;
    };
    with_float64(op, float64_of(a)?)
}

/// Returns the instruction with this opcode and these arguments: a vector of 128 bits.
#[tactic(auto, using(crate::proofs::Conversions::conversion_steps))]
pub(crate) fn of_vector<'a, A: Allocator>(op: Op, args: &'a [Arg<A>]) -> Option<Instruction<'a, A>>
    requires { shape_of table op ≡ Some shapes.V }
    ensures some { IfSome result (λ i. row_of i ≡ record { op = op; arguments = map argument_view args.now }) }
    ensures other { IfNone result (IsNoInstruction op (map argument_view args.now)) }
{
    let [a] = args else {
        return None;
    };
    with_vector(op, vector_of(a)?)
}

/// Returns the instruction with this opcode and these arguments: sixteen lanes.
#[tactic(auto, using(crate::proofs::Conversions::conversion_steps))]
pub(crate) fn of_lanes<'a, A: Allocator>(op: Op, args: &'a [Arg<A>]) -> Option<Instruction<'a, A>>
    requires { shape_of table op ≡ Some shapes.Ls }
    ensures some { IfSome result (λ i. row_of i ≡ record { op = op; arguments = map argument_view args.now }) }
    ensures other { IfNone result (IsNoInstruction op (map argument_view args.now)) }
{
    let [a] = args else {
        return None;
    };
    with_lanes(op, lanes_of(a)?)
}

/// Returns the instruction with this opcode and these arguments: labels and a default label.
#[tactic(auto, using(crate::proofs::Conversions::conversion_steps))]
pub(crate) fn of_labels<'a, A: Allocator>(op: Op, args: &'a [Arg<A>]) -> Option<Instruction<'a, A>>
    requires { shape_of table op ≡ Some shapes.Bt }
    ensures some { IfSome result (λ i. row_of i ≡ record { op = op; arguments = map argument_view args.now }) }
    ensures other { IfNone result (IsNoInstruction op (map argument_view args.now)) }
{
    let [a, b] = args else {
        return None;
    };
    with_labels(op, labels_of(a)?, number_of(b)?)
}

/// Returns the instruction with this opcode and these arguments: a block type and catch clauses.
#[tactic(auto, using(crate::proofs::Conversions::conversion_steps))]
pub(crate) fn of_clauses<'a, A: Allocator>(op: Op, args: &'a [Arg<A>]) -> Option<Instruction<'a, A>>
    requires { shape_of table op ≡ Some shapes.Tt }
    ensures some { IfSome result (λ i. row_of i ≡ record { op = op; arguments = map argument_view args.now }) }
    ensures other { IfNone result (IsNoInstruction op (map argument_view args.now)) }
{
    let [a, b] = args else {
        return None;
    };
    with_clauses(op, block_of(a)?, catches_of(b)?)
}

/// Returns the instruction with this opcode and these arguments: value types.
#[tactic(auto, using(crate::proofs::Conversions::conversion_steps))]
pub(crate) fn of_types<'a, A: Allocator>(op: Op, args: &'a [Arg<A>]) -> Option<Instruction<'a, A>>
    requires { shape_of table op ≡ Some shapes.Ts }
    ensures some { IfSome result (λ i. row_of i ≡ record { op = op; arguments = map argument_view args.now }) }
    ensures other { IfNone result (IsNoInstruction op (map argument_view args.now)) }
{
    let [a] = args else {
        return None;
    };
    with_types(op, types_of(a)?)
}

/// Returns the instruction with this opcode and these arguments: a number and handle clauses.
#[tactic(auto, using(crate::proofs::Conversions::conversion_steps))]
pub(crate) fn of_handles<'a, A: Allocator>(op: Op, args: &'a [Arg<A>]) -> Option<Instruction<'a, A>>
    requires { shape_of table op ≡ Some shapes.Uh }
    ensures some { IfSome result (λ i. row_of i ≡ record { op = op; arguments = map argument_view args.now }) }
    ensures other { IfNone result (IsNoInstruction op (map argument_view args.now)) }
{
    let [a, b] = args else {
        return None;
    };
    with_handles(op, number_of(a)?, handles_of(b)?)
}

/// Returns the instruction with this opcode and these arguments: two numbers and handle clauses.
#[tactic(auto, using(crate::proofs::Conversions::conversion_steps))]
pub(crate) fn of_numbers_handles<'a, A: Allocator>(
    op: Op,
    args: &'a [Arg<A>],
) -> Option<Instruction<'a, A>>
    requires { shape_of table op ≡ Some shapes.Uuh }
    ensures some { IfSome result (λ i. row_of i ≡ record { op = op; arguments = map argument_view args.now }) }
    ensures other { IfNone result (IsNoInstruction op (map argument_view args.now)) }
{
    let [a, b, c] = args else {
        return None;
    };
    with_numbers_handles(op, number_of(a)?, number_of(b)?, handles_of(c)?)
}
