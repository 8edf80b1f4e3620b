// The type of all instructions, and its encoding.
ghost use Rattle.std.specs.Prelude.{◌≡◌, ◌≢◌, ◌++◌, ◌∷◌, [], ⊤, IfOk};
ghost use Rattle.wasm_base.specs.Calls.{Appends};
ghost use Rattle.wasm_base.specs.Numbers.{unsigned_encoding};
ghost use Rattle.wasm_base.specs.Encodings.{vec_encoding, IsEncodableVec};
ghost use Rattle.wasm_base.specs.Types.{heap_encoding};
ghost use Rattle.wasm_immediates.specs.Immediates.{block_encoding, catch_encoding, handle_encoding};
ghost use Rattle.wasm_insn.specs.Arguments.{arguments_encoding, arguments_encodable};
ghost use Rattle.wasm_insn.specs.Instructions.{row_of, instruction_encoding, IsEncodableInstruction, DecodesInstruction, cast_flag_of};

use crate::aggregate::Aggregate;
use crate::atomic::Atomic;
use crate::numeric::Numeric;
use crate::op::Op;
use crate::prefixed_numeric::PrefixedNumeric;
use crate::vector::Vector;
use crate::vector_immediate::VectorImmediate;
use std::alloc::{Allocator, Global};
use std::slice;
use wasm_base::{CowSlice, Encode, HeapType, RefType, Refused, Result, ValType};
use wasm_immediates::{BlockType, Catch, Handle, Ieee32, Ieee64, MemArg};

/// An instruction of the core specification, "Instructions", or of its proposals.
///
/// One-byte instructions outside 45 to C4 (hexadecimal), and those with fields of the prefixes FB
/// and FC, are cases of their own. The others are in an enum for each group of opcodes. Those
/// without fields also have a constant here, such as `Instruction::I32Add`.
#[derive(Drop)]
pub enum Instruction<'a, A: Allocator = Global> {
    // begin: written by tools/instructions
    Unreachable,
    Nop,
    Block(BlockType),
    Loop(BlockType),
    If(BlockType),
    Else,
    Try(BlockType),
    Catch(u32),
    Throw(u32),
    Rethrow(u32),
    ThrowRef,
    End,
    Br(u32),
    BrIf(u32),
    BrTable(CowSlice<'a, u32, A>, u32),
    Return,
    Call(u32),
    CallIndirect {
        type_index: u32,
        table_index: u32,
    },
    ReturnCall(u32),
    ReturnCallIndirect {
        type_index: u32,
        table_index: u32,
    },
    CallRef(u32),
    ReturnCallRef(u32),
    Delegate(u32),
    CatchAll,
    Drop,
    Select,
    TypedSelect(ValType),
    TypedSelectMulti(CowSlice<'a, ValType, A>),
    TryTable(BlockType, CowSlice<'a, Catch, A>),
    LocalGet(u32),
    LocalSet(u32),
    LocalTee(u32),
    GlobalGet(u32),
    GlobalSet(u32),
    TableGet(u32),
    TableSet(u32),
    I32Load(MemArg),
    I64Load(MemArg),
    F32Load(MemArg),
    F64Load(MemArg),
    I32Load8S(MemArg),
    I32Load8U(MemArg),
    I32Load16S(MemArg),
    I32Load16U(MemArg),
    I64Load8S(MemArg),
    I64Load8U(MemArg),
    I64Load16S(MemArg),
    I64Load16U(MemArg),
    I64Load32S(MemArg),
    I64Load32U(MemArg),
    I32Store(MemArg),
    I64Store(MemArg),
    F32Store(MemArg),
    F64Store(MemArg),
    I32Store8(MemArg),
    I32Store16(MemArg),
    I64Store8(MemArg),
    I64Store16(MemArg),
    I64Store32(MemArg),
    MemorySize(u32),
    MemoryGrow(u32),
    I32Const(i32),
    I64Const(i64),
    F32Const(Ieee32),
    F64Const(Ieee64),
    RefNull(HeapType),
    RefIsNull,
    RefFunc(u32),
    RefEq,
    RefAsNonNull,
    BrOnNull(u32),
    BrOnNonNull(u32),
    ContNew(u32),
    ContBind {
        argument_index: u32,
        result_index: u32,
    },
    Suspend(u32),
    Resume {
        cont_type_index: u32,
        resume_table: CowSlice<'a, Handle, A>,
    },
    ResumeThrow {
        cont_type_index: u32,
        tag_index: u32,
        resume_table: CowSlice<'a, Handle, A>,
    },
    ResumeThrowRef {
        cont_type_index: u32,
        resume_table: CowSlice<'a, Handle, A>,
    },
    Switch {
        cont_type_index: u32,
        tag_index: u32,
    },
    StructNew(u32),
    StructNewDefault(u32),
    StructGet {
        struct_type_index: u32,
        field_index: u32,
    },
    StructGetS {
        struct_type_index: u32,
        field_index: u32,
    },
    StructGetU {
        struct_type_index: u32,
        field_index: u32,
    },
    StructSet {
        struct_type_index: u32,
        field_index: u32,
    },
    ArrayNew(u32),
    ArrayNewDefault(u32),
    ArrayNewFixed {
        array_type_index: u32,
        array_size: u32,
    },
    ArrayNewData {
        array_type_index: u32,
        array_data_index: u32,
    },
    ArrayNewElem {
        array_type_index: u32,
        array_elem_index: u32,
    },
    ArrayGet(u32),
    ArrayGetS(u32),
    ArrayGetU(u32),
    ArraySet(u32),
    ArrayFill(u32),
    ArrayCopy {
        array_type_index_dst: u32,
        array_type_index_src: u32,
    },
    ArrayInitData {
        array_type_index: u32,
        array_data_index: u32,
    },
    ArrayInitElem {
        array_type_index: u32,
        array_elem_index: u32,
    },
    RefTestNonNull(HeapType),
    RefTestNullable(HeapType),
    RefCastNonNull(HeapType),
    RefCastNullable(HeapType),
    BrOnCast {
        relative_depth: u32,
        from_ref_type: RefType,
        to_ref_type: RefType,
    },
    BrOnCastFail {
        relative_depth: u32,
        from_ref_type: RefType,
        to_ref_type: RefType,
    },
    StructNewDesc(u32),
    StructNewDefaultDesc(u32),
    RefGetDesc(u32),
    RefCastDescEqNonNull(HeapType),
    RefCastDescEqNullable(HeapType),
    BrOnCastDescEq {
        relative_depth: u32,
        from_ref_type: RefType,
        to_ref_type: RefType,
    },
    BrOnCastDescEqFail {
        relative_depth: u32,
        from_ref_type: RefType,
        to_ref_type: RefType,
    },
    MemoryInit {
        data_index: u32,
        mem: u32,
    },
    DataDrop(u32),
    MemoryCopy {
        dst_mem: u32,
        src_mem: u32,
    },
    MemoryFill(u32),
    TableInit {
        elem_index: u32,
        table: u32,
    },
    ElemDrop(u32),
    TableCopy {
        dst_table: u32,
        src_table: u32,
    },
    TableGrow(u32),
    TableSize(u32),
    TableFill(u32),
    MemoryDiscard(u32),
    /// Numeric instructions: the one-byte opcodes 45 to C4.
    Numeric(Numeric),
    /// Instructions on aggregates and references without immediates: those after the prefix FB.
    Aggregate(Aggregate),
    /// Numeric instructions after the prefix FC: truncations that saturate, and wide arithmetic.
    PrefixedNumeric(PrefixedNumeric),
    /// Vector instructions without immediates: those after the prefix FD.
    Vector(Vector),
    /// Vector instructions with immediates: those after the prefix FD.
    VectorImmediate(VectorImmediate),
    /// Atomic instructions: those after the prefix FE.
    Atomic(Atomic),
    // end: written by tools/instructions
}

/// Returns the flags of a cast: bit 0 for a nullable first type, bit 1 for a nullable second type.
fn cast_flag(from: RefType, to: RefType) -> u8
    ensures { result ≡ cast_flag_of from to }
{
    u8::from(from.nullable) + 2 * u8::from(to.nullable)
}

// Lists and casts are rare. They are appended out of line, so that the other instructions need no
// stack space for their immediates.

/// Appends the labels of a branch table, and the default label.
#[inline(never)]
fn encode_labels<A: Allocator>(labels: &[u32], default: u32, sink: &mut Vec<u8, A>) -> Result<()>
    ensures { Appends (vec_encoding unsigned_encoding labels.now ++ unsigned_encoding default) (IsEncodableVec (λ _. ⊤) labels.now × ⊤) sink.old sink.new result }
{
    (labels, default).encode(sink)
}

/// Appends the type of a block, and its catch clauses.
#[inline(never)]
fn encode_try_table<A: Allocator>(
    block_type: BlockType,
    catches: &[Catch],
    sink: &mut Vec<u8, A>,
) -> Result<()>
    ensures { Appends (block_encoding block_type ++ vec_encoding catch_encoding catches.now) (⊤ × IsEncodableVec (λ _. ⊤) catches.now) sink.old sink.new result }
{
    (block_type, catches).encode(sink)
}

/// Appends the index of a type, and handle clauses.
#[inline(never)]
fn encode_resume<A: Allocator>(index: u32, handles: &[Handle], sink: &mut Vec<u8, A>) -> Result<()>
    ensures { Appends (unsigned_encoding index ++ vec_encoding handle_encoding handles.now) (⊤ × IsEncodableVec (λ _. ⊤) handles.now) sink.old sink.new result }
{
    (index, handles).encode(sink)
}

/// Appends the indices of a type and of a tag, and handle clauses.
#[inline(never)]
fn encode_resume_throw<A: Allocator>(
    index: u32,
    tag: u32,
    handles: &[Handle],
    sink: &mut Vec<u8, A>,
) -> Result<()>
    ensures { Appends (unsigned_encoding index ++ (unsigned_encoding tag ++ vec_encoding handle_encoding handles.now)) (⊤ × ⊤ × IsEncodableVec (λ _. ⊤) handles.now) sink.old sink.new result }
{
    (index, tag, handles).encode(sink)
}

/// Appends the flags, the label, and the two heap types of a cast.
#[inline(never)]
fn encode_cast<A: Allocator>(
    label: u32,
    from: RefType,
    to: RefType,
    sink: &mut Vec<u8, A>,
) -> Result<()>
    ensures { Appends (cast_flag_of from to ∷ [] ++ (unsigned_encoding label ++ (heap_encoding from.heap_type ++ heap_encoding to.heap_type))) (⊤ × ⊤ × (⊤ × ⊤)) sink.old sink.new result }
{
    (cast_flag(from, to), label, (from.heap_type, to.heap_type)).encode(sink)
}

impl<'a, A: Allocator> Instruction<'a, A> {
    /// Returns the opcode, as in the opcode table.
    pub fn op(&self) -> Op
        ensures { result ≡ (row_of self.now).op }
    {
        match self {
            // begin: written by tools/instructions
            Instruction::Unreachable => Op::Byte(0x00),
            Instruction::Nop => Op::Byte(0x01),
            Instruction::Block(..) => Op::Byte(0x02),
            Instruction::Loop(..) => Op::Byte(0x03),
            Instruction::If(..) => Op::Byte(0x04),
            Instruction::Else => Op::Byte(0x05),
            Instruction::Try(..) => Op::Byte(0x06),
            Instruction::Catch(..) => Op::Byte(0x07),
            Instruction::Throw(..) => Op::Byte(0x08),
            Instruction::Rethrow(..) => Op::Byte(0x09),
            Instruction::ThrowRef => Op::Byte(0x0A),
            Instruction::End => Op::Byte(0x0B),
            Instruction::Br(..) => Op::Byte(0x0C),
            Instruction::BrIf(..) => Op::Byte(0x0D),
            Instruction::BrTable(..) => Op::Byte(0x0E),
            Instruction::Return => Op::Byte(0x0F),
            Instruction::Call(..) => Op::Byte(0x10),
            Instruction::CallIndirect { .. } => Op::Byte(0x11),
            Instruction::ReturnCall(..) => Op::Byte(0x12),
            Instruction::ReturnCallIndirect { .. } => Op::Byte(0x13),
            Instruction::CallRef(..) => Op::Byte(0x14),
            Instruction::ReturnCallRef(..) => Op::Byte(0x15),
            Instruction::Delegate(..) => Op::Byte(0x18),
            Instruction::CatchAll => Op::Byte(0x19),
            Instruction::Drop => Op::Byte(0x1A),
            Instruction::Select => Op::Byte(0x1B),
            Instruction::TypedSelect(..) => Op::Byte(0x1C),
            Instruction::TypedSelectMulti(..) => Op::Byte(0x1C),
            Instruction::TryTable(..) => Op::Byte(0x1F),
            Instruction::LocalGet(..) => Op::Byte(0x20),
            Instruction::LocalSet(..) => Op::Byte(0x21),
            Instruction::LocalTee(..) => Op::Byte(0x22),
            Instruction::GlobalGet(..) => Op::Byte(0x23),
            Instruction::GlobalSet(..) => Op::Byte(0x24),
            Instruction::TableGet(..) => Op::Byte(0x25),
            Instruction::TableSet(..) => Op::Byte(0x26),
            Instruction::I32Load(..) => Op::Byte(0x28),
            Instruction::I64Load(..) => Op::Byte(0x29),
            Instruction::F32Load(..) => Op::Byte(0x2A),
            Instruction::F64Load(..) => Op::Byte(0x2B),
            Instruction::I32Load8S(..) => Op::Byte(0x2C),
            Instruction::I32Load8U(..) => Op::Byte(0x2D),
            Instruction::I32Load16S(..) => Op::Byte(0x2E),
            Instruction::I32Load16U(..) => Op::Byte(0x2F),
            Instruction::I64Load8S(..) => Op::Byte(0x30),
            Instruction::I64Load8U(..) => Op::Byte(0x31),
            Instruction::I64Load16S(..) => Op::Byte(0x32),
            Instruction::I64Load16U(..) => Op::Byte(0x33),
            Instruction::I64Load32S(..) => Op::Byte(0x34),
            Instruction::I64Load32U(..) => Op::Byte(0x35),
            Instruction::I32Store(..) => Op::Byte(0x36),
            Instruction::I64Store(..) => Op::Byte(0x37),
            Instruction::F32Store(..) => Op::Byte(0x38),
            Instruction::F64Store(..) => Op::Byte(0x39),
            Instruction::I32Store8(..) => Op::Byte(0x3A),
            Instruction::I32Store16(..) => Op::Byte(0x3B),
            Instruction::I64Store8(..) => Op::Byte(0x3C),
            Instruction::I64Store16(..) => Op::Byte(0x3D),
            Instruction::I64Store32(..) => Op::Byte(0x3E),
            Instruction::MemorySize(..) => Op::Byte(0x3F),
            Instruction::MemoryGrow(..) => Op::Byte(0x40),
            Instruction::I32Const(..) => Op::Byte(0x41),
            Instruction::I64Const(..) => Op::Byte(0x42),
            Instruction::F32Const(..) => Op::Byte(0x43),
            Instruction::F64Const(..) => Op::Byte(0x44),
            Instruction::RefNull(..) => Op::Byte(0xD0),
            Instruction::RefIsNull => Op::Byte(0xD1),
            Instruction::RefFunc(..) => Op::Byte(0xD2),
            Instruction::RefEq => Op::Byte(0xD3),
            Instruction::RefAsNonNull => Op::Byte(0xD4),
            Instruction::BrOnNull(..) => Op::Byte(0xD5),
            Instruction::BrOnNonNull(..) => Op::Byte(0xD6),
            Instruction::ContNew(..) => Op::Byte(0xE0),
            Instruction::ContBind { .. } => Op::Byte(0xE1),
            Instruction::Suspend(..) => Op::Byte(0xE2),
            Instruction::Resume { .. } => Op::Byte(0xE3),
            Instruction::ResumeThrow { .. } => Op::Byte(0xE4),
            Instruction::ResumeThrowRef { .. } => Op::Byte(0xE5),
            Instruction::Switch { .. } => Op::Byte(0xE6),
            Instruction::StructNew(..) => Op::Prefixed(0xFB, 0),
            Instruction::StructNewDefault(..) => Op::Prefixed(0xFB, 1),
            Instruction::StructGet { .. } => Op::Prefixed(0xFB, 2),
            Instruction::StructGetS { .. } => Op::Prefixed(0xFB, 3),
            Instruction::StructGetU { .. } => Op::Prefixed(0xFB, 4),
            Instruction::StructSet { .. } => Op::Prefixed(0xFB, 5),
            Instruction::ArrayNew(..) => Op::Prefixed(0xFB, 6),
            Instruction::ArrayNewDefault(..) => Op::Prefixed(0xFB, 7),
            Instruction::ArrayNewFixed { .. } => Op::Prefixed(0xFB, 8),
            Instruction::ArrayNewData { .. } => Op::Prefixed(0xFB, 9),
            Instruction::ArrayNewElem { .. } => Op::Prefixed(0xFB, 10),
            Instruction::ArrayGet(..) => Op::Prefixed(0xFB, 11),
            Instruction::ArrayGetS(..) => Op::Prefixed(0xFB, 12),
            Instruction::ArrayGetU(..) => Op::Prefixed(0xFB, 13),
            Instruction::ArraySet(..) => Op::Prefixed(0xFB, 14),
            Instruction::ArrayFill(..) => Op::Prefixed(0xFB, 16),
            Instruction::ArrayCopy { .. } => Op::Prefixed(0xFB, 17),
            Instruction::ArrayInitData { .. } => Op::Prefixed(0xFB, 18),
            Instruction::ArrayInitElem { .. } => Op::Prefixed(0xFB, 19),
            Instruction::RefTestNonNull(..) => Op::Prefixed(0xFB, 20),
            Instruction::RefTestNullable(..) => Op::Prefixed(0xFB, 21),
            Instruction::RefCastNonNull(..) => Op::Prefixed(0xFB, 22),
            Instruction::RefCastNullable(..) => Op::Prefixed(0xFB, 23),
            Instruction::BrOnCast { .. } => Op::Prefixed(0xFB, 24),
            Instruction::BrOnCastFail { .. } => Op::Prefixed(0xFB, 25),
            Instruction::StructNewDesc(..) => Op::Prefixed(0xFB, 32),
            Instruction::StructNewDefaultDesc(..) => Op::Prefixed(0xFB, 33),
            Instruction::RefGetDesc(..) => Op::Prefixed(0xFB, 34),
            Instruction::RefCastDescEqNonNull(..) => Op::Prefixed(0xFB, 35),
            Instruction::RefCastDescEqNullable(..) => Op::Prefixed(0xFB, 36),
            Instruction::BrOnCastDescEq { .. } => Op::Prefixed(0xFB, 37),
            Instruction::BrOnCastDescEqFail { .. } => Op::Prefixed(0xFB, 38),
            Instruction::MemoryInit { .. } => Op::Prefixed(0xFC, 8),
            Instruction::DataDrop(..) => Op::Prefixed(0xFC, 9),
            Instruction::MemoryCopy { .. } => Op::Prefixed(0xFC, 10),
            Instruction::MemoryFill(..) => Op::Prefixed(0xFC, 11),
            Instruction::TableInit { .. } => Op::Prefixed(0xFC, 12),
            Instruction::ElemDrop(..) => Op::Prefixed(0xFC, 13),
            Instruction::TableCopy { .. } => Op::Prefixed(0xFC, 14),
            Instruction::TableGrow(..) => Op::Prefixed(0xFC, 15),
            Instruction::TableSize(..) => Op::Prefixed(0xFC, 16),
            Instruction::TableFill(..) => Op::Prefixed(0xFC, 17),
            Instruction::MemoryDiscard(..) => Op::Prefixed(0xFC, 18),
            Instruction::Numeric(i) => i.op(),
            Instruction::Aggregate(i) => i.op(),
            Instruction::PrefixedNumeric(i) => i.op(),
            Instruction::Vector(i) => i.op(),
            Instruction::VectorImmediate(i) => i.op(),
            Instruction::Atomic(i) => i.op(),
            // end: written by tools/instructions
        }
    }

    /// Appends the immediates.
    fn encode_arguments<B: Allocator>(&self, sink: &mut Vec<u8, B>) -> Result<()>
        ensures { Appends (arguments_encoding (row_of self.now).arguments) (arguments_encodable (row_of self.now).arguments) sink.old sink.new result }
    {
        match self {
            // begin: written by tools/instructions
            Instruction::Block(a)
            | Instruction::Loop(a)
            | Instruction::If(a)
            | Instruction::Try(a) => a.encode(sink),
            Instruction::Catch(a)
            | Instruction::Throw(a)
            | Instruction::Rethrow(a)
            | Instruction::Br(a)
            | Instruction::BrIf(a)
            | Instruction::Call(a)
            | Instruction::ReturnCall(a)
            | Instruction::CallRef(a)
            | Instruction::ReturnCallRef(a)
            | Instruction::Delegate(a)
            | Instruction::LocalGet(a) => a.encode(sink),
            Instruction::LocalSet(a)
            | Instruction::LocalTee(a)
            | Instruction::GlobalGet(a)
            | Instruction::GlobalSet(a)
            | Instruction::TableGet(a)
            | Instruction::TableSet(a)
            | Instruction::MemorySize(a)
            | Instruction::MemoryGrow(a)
            | Instruction::RefFunc(a)
            | Instruction::BrOnNull(a)
            | Instruction::BrOnNonNull(a) => a.encode(sink),
            Instruction::ContNew(a)
            | Instruction::Suspend(a)
            | Instruction::StructNew(a)
            | Instruction::StructNewDefault(a)
            | Instruction::ArrayNew(a)
            | Instruction::ArrayNewDefault(a)
            | Instruction::ArrayGet(a)
            | Instruction::ArrayGetS(a)
            | Instruction::ArrayGetU(a)
            | Instruction::ArraySet(a)
            | Instruction::ArrayFill(a) => a.encode(sink),
            Instruction::StructNewDesc(a)
            | Instruction::StructNewDefaultDesc(a)
            | Instruction::RefGetDesc(a)
            | Instruction::DataDrop(a)
            | Instruction::MemoryFill(a)
            | Instruction::ElemDrop(a)
            | Instruction::TableGrow(a)
            | Instruction::TableSize(a)
            | Instruction::TableFill(a)
            | Instruction::MemoryDiscard(a) => a.encode(sink),
            Instruction::BrTable(a, b) => encode_labels(a.as_slice(), *b, sink),
            Instruction::CallIndirect {
                type_index,
                table_index,
            }
            | Instruction::ReturnCallIndirect {
                type_index,
                table_index,
            } => (*type_index, *table_index).encode(sink),
            Instruction::TypedSelect(a) => slice::from_ref(a).encode(sink),
            Instruction::TypedSelectMulti(a) => a.as_slice().encode(sink),
            Instruction::TryTable(a, b) => encode_try_table(*a, b.as_slice(), sink),
            Instruction::I32Load(a)
            | Instruction::I64Load(a)
            | Instruction::F32Load(a)
            | Instruction::F64Load(a)
            | Instruction::I32Load8S(a)
            | Instruction::I32Load8U(a)
            | Instruction::I32Load16S(a)
            | Instruction::I32Load16U(a)
            | Instruction::I64Load8S(a)
            | Instruction::I64Load8U(a)
            | Instruction::I64Load16S(a)
            | Instruction::I64Load16U(a) => a.encode(sink),
            Instruction::I64Load32S(a)
            | Instruction::I64Load32U(a)
            | Instruction::I32Store(a)
            | Instruction::I64Store(a)
            | Instruction::F32Store(a)
            | Instruction::F64Store(a)
            | Instruction::I32Store8(a)
            | Instruction::I32Store16(a)
            | Instruction::I64Store8(a)
            | Instruction::I64Store16(a)
            | Instruction::I64Store32(a) => a.encode(sink),
            Instruction::I32Const(a) => a.encode(sink),
            Instruction::I64Const(a) => a.encode(sink),
            Instruction::F32Const(a) => a.encode(sink),
            Instruction::F64Const(a) => a.encode(sink),
            Instruction::RefNull(a)
            | Instruction::RefTestNonNull(a)
            | Instruction::RefTestNullable(a)
            | Instruction::RefCastNonNull(a)
            | Instruction::RefCastNullable(a)
            | Instruction::RefCastDescEqNonNull(a)
            | Instruction::RefCastDescEqNullable(a) => a.encode(sink),
            Instruction::ContBind {
                argument_index: a,
                result_index: b,
            }
            | Instruction::Switch {
                cont_type_index: a,
                tag_index: b,
            }
            | Instruction::StructGet {
                struct_type_index: a,
                field_index: b,
            }
            | Instruction::StructGetS {
                struct_type_index: a,
                field_index: b,
            }
            | Instruction::StructGetU {
                struct_type_index: a,
                field_index: b,
            }
            | Instruction::StructSet {
                struct_type_index: a,
                field_index: b,
            }
            | Instruction::ArrayNewFixed {
                array_type_index: a,
                array_size: b,
            }
            | Instruction::ArrayNewData {
                array_type_index: a,
                array_data_index: b,
            } => (*a, *b).encode(sink),
            Instruction::ArrayNewElem {
                array_type_index: a,
                array_elem_index: b,
            }
            | Instruction::ArrayCopy {
                array_type_index_dst: a,
                array_type_index_src: b,
            }
            | Instruction::ArrayInitData {
                array_type_index: a,
                array_data_index: b,
            }
            | Instruction::ArrayInitElem {
                array_type_index: a,
                array_elem_index: b,
            }
            | Instruction::MemoryInit {
                data_index: a,
                mem: b,
            }
            | Instruction::MemoryCopy {
                dst_mem: a,
                src_mem: b,
            }
            | Instruction::TableInit {
                elem_index: a,
                table: b,
            }
            | Instruction::TableCopy {
                dst_table: a,
                src_table: b,
            } => (*a, *b).encode(sink),
            Instruction::Resume {
                cont_type_index: a,
                resume_table: b,
            }
            | Instruction::ResumeThrowRef {
                cont_type_index: a,
                resume_table: b,
            } => encode_resume(*a, b.as_slice(), sink),
            Instruction::ResumeThrow {
                cont_type_index: a,
                tag_index: b,
                resume_table: c,
            } => encode_resume_throw(*a, *b, c.as_slice(), sink),
            Instruction::BrOnCast {
                relative_depth: a,
                from_ref_type: b,
                to_ref_type: c,
            }
            | Instruction::BrOnCastFail {
                relative_depth: a,
                from_ref_type: b,
                to_ref_type: c,
            }
            | Instruction::BrOnCastDescEq {
                relative_depth: a,
                from_ref_type: b,
                to_ref_type: c,
            }
            | Instruction::BrOnCastDescEqFail {
                relative_depth: a,
                from_ref_type: b,
                to_ref_type: c,
            } => encode_cast(*a, *b, *c, sink),
            Instruction::Unreachable
            | Instruction::Nop
            | Instruction::Else
            | Instruction::ThrowRef
            | Instruction::End
            | Instruction::Return
            | Instruction::CatchAll
            | Instruction::Drop => Ok(()),
            Instruction::Select
            | Instruction::RefIsNull
            | Instruction::RefEq
            | Instruction::RefAsNonNull
            | Instruction::Numeric(_)
            | Instruction::Aggregate(_)
            | Instruction::PrefixedNumeric(_)
            | Instruction::Vector(_) => Ok(()),
            Instruction::VectorImmediate(a) => a.encode_arguments(sink),
            Instruction::Atomic(a) => a.encode_arguments(sink),
            // end: written by tools/instructions
        }
    }
}

// A function for each group of cases clones it, since proof time grows with the square of the
// number of arms.
impl<'a, A: Allocator + Copy> Instruction<'a, A> {
    /// Returns a copy. Owned lists are copied with their own allocator.
    ///
    /// # Errors
    ///
    /// Returns [`Refused::Memory`] if an allocation fails, and never [`Refused::TooLong`].
    pub fn clone(&self) -> Result<Self>
        ensures ok { IfOk result (λ i. row_of i ≡ row_of self.now) }
        ensures err { result ≢ Err Refused.TooLong }
    {
        Ok(match self {
            // begin: written by tools/instructions
            Instruction::Unreachable => Instruction::Unreachable,
            Instruction::Nop => Instruction::Nop,
            Instruction::Block(a) => Instruction::Block(*a),
            Instruction::Loop(a) => Instruction::Loop(*a),
            Instruction::If(a) => Instruction::If(*a),
            Instruction::Else => Instruction::Else,
            Instruction::Try(a) => Instruction::Try(*a),
            Instruction::Catch(a) => Instruction::Catch(*a),
            Instruction::Throw(a) => Instruction::Throw(*a),
            Instruction::Rethrow(a) => Instruction::Rethrow(*a),
            Instruction::ThrowRef => Instruction::ThrowRef,
            Instruction::End => Instruction::End,
            Instruction::Br(a) => Instruction::Br(*a),
            Instruction::BrIf(a) => Instruction::BrIf(*a),
            Instruction::BrTable(a, b) => Instruction::BrTable(a.clone()?, *b),
            Instruction::Return => Instruction::Return,
            Instruction::Call(a) => Instruction::Call(*a),
            Instruction::CallIndirect {
                type_index,
                table_index,
            } => Instruction::CallIndirect {
                type_index: *type_index,
                table_index: *table_index,
            },
            Instruction::ReturnCall(a) => Instruction::ReturnCall(*a),
            Instruction::ReturnCallIndirect {
                type_index,
                table_index,
            } => Instruction::ReturnCallIndirect {
                type_index: *type_index,
                table_index: *table_index,
            },
            Instruction::CallRef(a) => Instruction::CallRef(*a),
            Instruction::ReturnCallRef(a) => Instruction::ReturnCallRef(*a),
            Instruction::Delegate(a) => Instruction::Delegate(*a),
            Instruction::CatchAll => Instruction::CatchAll,
            Instruction::Drop => Instruction::Drop,
            Instruction::Select => Instruction::Select,
            Instruction::TypedSelect(a) => Instruction::TypedSelect(*a),
            Instruction::TypedSelectMulti(a) => Instruction::TypedSelectMulti(a.clone()?),
            Instruction::TryTable(a, b) => Instruction::TryTable(*a, b.clone()?),
            // end: written by tools/instructions
            _ => return self.clone_access(),
        })
    }

    /// Returns a copy of an instruction that accesses variables, table elements or memory; or of a
    /// later group.
    fn clone_access(&self) -> Result<Self>
        ensures ok { IfOk result (λ i. row_of i ≡ row_of self.now) }
        ensures err { result ≢ Err Refused.TooLong }
    {
        Ok(match self {
            // begin: written by tools/instructions
            Instruction::LocalGet(a) => Instruction::LocalGet(*a),
            Instruction::LocalSet(a) => Instruction::LocalSet(*a),
            Instruction::LocalTee(a) => Instruction::LocalTee(*a),
            Instruction::GlobalGet(a) => Instruction::GlobalGet(*a),
            Instruction::GlobalSet(a) => Instruction::GlobalSet(*a),
            Instruction::TableGet(a) => Instruction::TableGet(*a),
            Instruction::TableSet(a) => Instruction::TableSet(*a),
            Instruction::I32Load(a) => Instruction::I32Load(*a),
            Instruction::I64Load(a) => Instruction::I64Load(*a),
            Instruction::F32Load(a) => Instruction::F32Load(*a),
            Instruction::F64Load(a) => Instruction::F64Load(*a),
            Instruction::I32Load8S(a) => Instruction::I32Load8S(*a),
            Instruction::I32Load8U(a) => Instruction::I32Load8U(*a),
            Instruction::I32Load16S(a) => Instruction::I32Load16S(*a),
            Instruction::I32Load16U(a) => Instruction::I32Load16U(*a),
            Instruction::I64Load8S(a) => Instruction::I64Load8S(*a),
            Instruction::I64Load8U(a) => Instruction::I64Load8U(*a),
            Instruction::I64Load16S(a) => Instruction::I64Load16S(*a),
            Instruction::I64Load16U(a) => Instruction::I64Load16U(*a),
            Instruction::I64Load32S(a) => Instruction::I64Load32S(*a),
            Instruction::I64Load32U(a) => Instruction::I64Load32U(*a),
            Instruction::I32Store(a) => Instruction::I32Store(*a),
            Instruction::I64Store(a) => Instruction::I64Store(*a),
            Instruction::F32Store(a) => Instruction::F32Store(*a),
            Instruction::F64Store(a) => Instruction::F64Store(*a),
            Instruction::I32Store8(a) => Instruction::I32Store8(*a),
            Instruction::I32Store16(a) => Instruction::I32Store16(*a),
            Instruction::I64Store8(a) => Instruction::I64Store8(*a),
            Instruction::I64Store16(a) => Instruction::I64Store16(*a),
            Instruction::I64Store32(a) => Instruction::I64Store32(*a),
            Instruction::MemorySize(a) => Instruction::MemorySize(*a),
            Instruction::MemoryGrow(a) => Instruction::MemoryGrow(*a),
            // end: written by tools/instructions
            _ => return self.clone_reference(),
        })
    }

    /// Returns a copy of a constant, or of an instruction on references or continuations; or of a
    /// later group.
    fn clone_reference(&self) -> Result<Self>
        ensures ok { IfOk result (λ i. row_of i ≡ row_of self.now) }
        ensures err { result ≢ Err Refused.TooLong }
    {
        Ok(match self {
            // begin: written by tools/instructions
            Instruction::I32Const(a) => Instruction::I32Const(*a),
            Instruction::I64Const(a) => Instruction::I64Const(*a),
            Instruction::F32Const(a) => Instruction::F32Const(*a),
            Instruction::F64Const(a) => Instruction::F64Const(*a),
            Instruction::RefNull(a) => Instruction::RefNull(*a),
            Instruction::RefIsNull => Instruction::RefIsNull,
            Instruction::RefFunc(a) => Instruction::RefFunc(*a),
            Instruction::RefEq => Instruction::RefEq,
            Instruction::RefAsNonNull => Instruction::RefAsNonNull,
            Instruction::BrOnNull(a) => Instruction::BrOnNull(*a),
            Instruction::BrOnNonNull(a) => Instruction::BrOnNonNull(*a),
            Instruction::ContNew(a) => Instruction::ContNew(*a),
            Instruction::ContBind {
                argument_index,
                result_index,
            } => Instruction::ContBind {
                argument_index: *argument_index,
                result_index: *result_index,
            },
            Instruction::Suspend(a) => Instruction::Suspend(*a),
            Instruction::Resume {
                cont_type_index,
                resume_table,
            } => Instruction::Resume {
                cont_type_index: *cont_type_index,
                resume_table: resume_table.clone()?,
            },
            Instruction::ResumeThrow {
                cont_type_index,
                tag_index,
                resume_table,
            } => Instruction::ResumeThrow {
                cont_type_index: *cont_type_index,
                tag_index: *tag_index,
                resume_table: resume_table.clone()?,
            },
            Instruction::ResumeThrowRef {
                cont_type_index,
                resume_table,
            } => Instruction::ResumeThrowRef {
                cont_type_index: *cont_type_index,
                resume_table: resume_table.clone()?,
            },
            Instruction::Switch {
                cont_type_index,
                tag_index,
            } => Instruction::Switch {
                cont_type_index: *cont_type_index,
                tag_index: *tag_index,
            },
            // end: written by tools/instructions
            _ => return self.clone_aggregate(),
        })
    }

    /// Returns a copy of an instruction on structs or arrays, or of a cast; or of a later group.
    fn clone_aggregate(&self) -> Result<Self>
        ensures ok { IfOk result (λ i. row_of i ≡ row_of self.now) }
        ensures err { result ≢ Err Refused.TooLong }
    {
        Ok(match self {
            // begin: written by tools/instructions
            Instruction::StructNew(a) => Instruction::StructNew(*a),
            Instruction::StructNewDefault(a) => Instruction::StructNewDefault(*a),
            Instruction::StructGet {
                struct_type_index,
                field_index,
            } => Instruction::StructGet {
                struct_type_index: *struct_type_index,
                field_index: *field_index,
            },
            Instruction::StructGetS {
                struct_type_index,
                field_index,
            } => Instruction::StructGetS {
                struct_type_index: *struct_type_index,
                field_index: *field_index,
            },
            Instruction::StructGetU {
                struct_type_index,
                field_index,
            } => Instruction::StructGetU {
                struct_type_index: *struct_type_index,
                field_index: *field_index,
            },
            Instruction::StructSet {
                struct_type_index,
                field_index,
            } => Instruction::StructSet {
                struct_type_index: *struct_type_index,
                field_index: *field_index,
            },
            Instruction::ArrayNew(a) => Instruction::ArrayNew(*a),
            Instruction::ArrayNewDefault(a) => Instruction::ArrayNewDefault(*a),
            Instruction::ArrayNewFixed {
                array_type_index,
                array_size,
            } => Instruction::ArrayNewFixed {
                array_type_index: *array_type_index,
                array_size: *array_size,
            },
            Instruction::ArrayNewData {
                array_type_index,
                array_data_index,
            } => Instruction::ArrayNewData {
                array_type_index: *array_type_index,
                array_data_index: *array_data_index,
            },
            Instruction::ArrayNewElem {
                array_type_index,
                array_elem_index,
            } => Instruction::ArrayNewElem {
                array_type_index: *array_type_index,
                array_elem_index: *array_elem_index,
            },
            Instruction::ArrayGet(a) => Instruction::ArrayGet(*a),
            Instruction::ArrayGetS(a) => Instruction::ArrayGetS(*a),
            Instruction::ArrayGetU(a) => Instruction::ArrayGetU(*a),
            Instruction::ArraySet(a) => Instruction::ArraySet(*a),
            Instruction::ArrayFill(a) => Instruction::ArrayFill(*a),
            Instruction::ArrayCopy {
                array_type_index_dst,
                array_type_index_src,
            } => Instruction::ArrayCopy {
                array_type_index_dst: *array_type_index_dst,
                array_type_index_src: *array_type_index_src,
            },
            Instruction::ArrayInitData {
                array_type_index,
                array_data_index,
            } => Instruction::ArrayInitData {
                array_type_index: *array_type_index,
                array_data_index: *array_data_index,
            },
            Instruction::ArrayInitElem {
                array_type_index,
                array_elem_index,
            } => Instruction::ArrayInitElem {
                array_type_index: *array_type_index,
                array_elem_index: *array_elem_index,
            },
            Instruction::RefTestNonNull(a) => Instruction::RefTestNonNull(*a),
            Instruction::RefTestNullable(a) => Instruction::RefTestNullable(*a),
            Instruction::RefCastNonNull(a) => Instruction::RefCastNonNull(*a),
            Instruction::RefCastNullable(a) => Instruction::RefCastNullable(*a),
            Instruction::BrOnCast {
                relative_depth,
                from_ref_type,
                to_ref_type,
            } => Instruction::BrOnCast {
                relative_depth: *relative_depth,
                from_ref_type: *from_ref_type,
                to_ref_type: *to_ref_type,
            },
            Instruction::BrOnCastFail {
                relative_depth,
                from_ref_type,
                to_ref_type,
            } => Instruction::BrOnCastFail {
                relative_depth: *relative_depth,
                from_ref_type: *from_ref_type,
                to_ref_type: *to_ref_type,
            },
            Instruction::StructNewDesc(a) => Instruction::StructNewDesc(*a),
            Instruction::StructNewDefaultDesc(a) => Instruction::StructNewDefaultDesc(*a),
            Instruction::RefGetDesc(a) => Instruction::RefGetDesc(*a),
            Instruction::RefCastDescEqNonNull(a) => Instruction::RefCastDescEqNonNull(*a),
            Instruction::RefCastDescEqNullable(a) => Instruction::RefCastDescEqNullable(*a),
            Instruction::BrOnCastDescEq {
                relative_depth,
                from_ref_type,
                to_ref_type,
            } => Instruction::BrOnCastDescEq {
                relative_depth: *relative_depth,
                from_ref_type: *from_ref_type,
                to_ref_type: *to_ref_type,
            },
            Instruction::BrOnCastDescEqFail {
                relative_depth,
                from_ref_type,
                to_ref_type,
            } => Instruction::BrOnCastDescEqFail {
                relative_depth: *relative_depth,
                from_ref_type: *from_ref_type,
                to_ref_type: *to_ref_type,
            },
            // end: written by tools/instructions
            _ => return self.clone_bulk(),
        })
    }

    /// Returns a copy of an instruction on whole segments, tables or memories, or of a case of a
    /// nested enum.
    fn clone_bulk(&self) -> Result<Self>
        ensures ok { IfOk result (λ i. row_of i ≡ row_of self.now) }
        ensures err { result ≢ Err Refused.TooLong }
    {
        Ok(match self {
            // begin: written by tools/instructions
            Instruction::MemoryInit { data_index, mem } => Instruction::MemoryInit {
                data_index: *data_index,
                mem: *mem,
            },
            Instruction::DataDrop(a) => Instruction::DataDrop(*a),
            Instruction::MemoryCopy { dst_mem, src_mem } => Instruction::MemoryCopy {
                dst_mem: *dst_mem,
                src_mem: *src_mem,
            },
            Instruction::MemoryFill(a) => Instruction::MemoryFill(*a),
            Instruction::TableInit { elem_index, table } => Instruction::TableInit {
                elem_index: *elem_index,
                table: *table,
            },
            Instruction::ElemDrop(a) => Instruction::ElemDrop(*a),
            Instruction::TableCopy {
                dst_table,
                src_table,
            } => Instruction::TableCopy {
                dst_table: *dst_table,
                src_table: *src_table,
            },
            Instruction::TableGrow(a) => Instruction::TableGrow(*a),
            Instruction::TableSize(a) => Instruction::TableSize(*a),
            Instruction::TableFill(a) => Instruction::TableFill(*a),
            Instruction::MemoryDiscard(a) => Instruction::MemoryDiscard(*a),
            Instruction::Numeric(i) => Instruction::Numeric(*i),
            Instruction::Aggregate(i) => Instruction::Aggregate(*i),
            Instruction::PrefixedNumeric(i) => Instruction::PrefixedNumeric(*i),
            Instruction::Vector(i) => Instruction::Vector(*i),
            Instruction::VectorImmediate(i) => Instruction::VectorImmediate(*i),
            Instruction::Atomic(i) => Instruction::Atomic(*i),
            // end: written by tools/instructions
            // Not reached: the functions above have copied all other cases.
            _ => return Err(Refused::Memory),
        })
    }
}

/// Encodes the opcode, and then the immediates.
impl<'a, A: Allocator> Encode for Instruction<'a, A> {
    ghost encoding = { instruction_encoding };

    ghost encodable = { IsEncodableInstruction };

    ghost decoding = { DecodesInstruction };

    #[tactic(auto, using(crate::proofs::InstructionLaws::decodes))]
    fn encode<B: Allocator>(&self, sink: &mut Vec<u8, B>) -> Result<()> {
        let start = sink.len();
        self.op().encode(sink)?;
        if let Err(refused) = self.encode_arguments(sink) {
            sink.truncate(start);
            return Err(refused);
        }
        Ok(())
    }
}
