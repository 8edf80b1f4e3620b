// Range facts from types: each function does nothing, and promises that the numbers in an
// instruction are in range.
ghost use Rattle.std.specs.Prelude.{◌<◌, ◌^◌, ◌∷◌, [], All};
ghost use Rattle.wasm_base.specs.Laws.{IsSigned32InRange, IsSigned64InRange};
ghost use Rattle.wasm_base.specs.Types.{IsHeap, IsVal};
ghost use Rattle.wasm_immediates.specs.ImmediateFormats.{IsWellFormedMemory, IsWellFormedBlock, IsWellFormedCatch, IsWellFormedHandle};
ghost use Rattle.wasm_insn.specs.Arguments.{unsigned, heap, flag};
ghost use Rattle.wasm_insn.specs.Atomic.{atomic_row};
ghost use Rattle.wasm_insn.specs.Instructions.{cast_flag_of, IsWellFormedWhereAligned};
ghost use Rattle.wasm_insn.specs.Plain.{AreWellFormed, HaveSmallAlignments};
ghost use Rattle.wasm_insn.specs.VectorImmediate.{vector_immediate_row};

use crate::atomic::Atomic;
use crate::instruction::Instruction;
use crate::vector_immediate::VectorImmediate;
use std::alloc::Allocator;
use wasm_base::{HeapType, RefType, ValType};
use wasm_immediates::{BlockType, Catch, Handle, Ieee32, Ieee64, MemArg};

/// A value that is well-formed by its type alone.
trait Ranged: Copy {
    /// The numbers in the value are in the range of their types.
    ghost in_range: { Self → Type 0 };

    /// Proves the property. The function does nothing.
    fn ranged(self)
        ensures { in_range self };
}

impl Ranged for u32 {
    ghost in_range = { λ n. n < 2 ^ 32 };

    fn ranged(self) {}
}

impl Ranged for i32 {
    ghost in_range = { IsSigned32InRange };

    fn ranged(self) {}
}

impl Ranged for i64 {
    ghost in_range = { IsSigned64InRange };

    fn ranged(self) {}
}

impl Ranged for Ieee32 {
    ghost in_range = { λ float. float.bits < 2 ^ 32 };

    fn ranged(self) {}
}

impl Ranged for Ieee64 {
    ghost in_range = { λ float. float.bits < 2 ^ 64 };

    fn ranged(self) {}
}

impl Ranged for HeapType {
    ghost in_range = { IsHeap };

    fn ranged(self) {}
}

impl Ranged for ValType {
    ghost in_range = { IsVal };

    fn ranged(self) {}
}

impl Ranged for BlockType {
    ghost in_range = { IsWellFormedBlock };

    fn ranged(self) {}
}

impl Ranged for Catch {
    ghost in_range = { IsWellFormedCatch };

    fn ranged(self) {}
}

impl Ranged for Handle {
    ghost in_range = { IsWellFormedHandle };

    fn ranged(self) {}
}

/// All numbers except the alignment are in the range of their types.
impl Ranged for MemArg {
    ghost in_range = { λ m. m.align < 16 → IsWellFormedMemory m };

    fn ranged(self) {}
}

impl Ranged for VectorImmediate {
    ghost in_range = { λ i. HaveSmallAlignments (vector_immediate_row i).arguments → AreWellFormed (vector_immediate_row i).arguments };

    fn ranged(self) {}
}

impl Ranged for Atomic {
    ghost in_range = { λ i. HaveSmallAlignments (atomic_row i).arguments → AreWellFormed (atomic_row i).arguments };

    fn ranged(self) {
        match self {
            // begin: written by tools/instructions
            Atomic::MemoryAtomicNotify(a)
            | Atomic::MemoryAtomicWait32(a)
            | Atomic::MemoryAtomicWait64(a)
            | Atomic::I32AtomicLoad(a)
            | Atomic::I64AtomicLoad(a)
            | Atomic::I32AtomicLoad8U(a)
            | Atomic::I32AtomicLoad16U(a)
            | Atomic::I64AtomicLoad8U(a)
            | Atomic::I64AtomicLoad16U(a)
            | Atomic::I64AtomicLoad32U(a)
            | Atomic::I32AtomicStore(a) => a.ranged(),
            Atomic::I64AtomicStore(a)
            | Atomic::I32AtomicStore8(a)
            | Atomic::I32AtomicStore16(a)
            | Atomic::I64AtomicStore8(a)
            | Atomic::I64AtomicStore16(a)
            | Atomic::I64AtomicStore32(a)
            | Atomic::I32AtomicRmwAdd(a)
            | Atomic::I64AtomicRmwAdd(a)
            | Atomic::I32AtomicRmw8AddU(a)
            | Atomic::I32AtomicRmw16AddU(a)
            | Atomic::I64AtomicRmw8AddU(a) => a.ranged(),
            Atomic::I64AtomicRmw16AddU(a)
            | Atomic::I64AtomicRmw32AddU(a)
            | Atomic::I32AtomicRmwSub(a)
            | Atomic::I64AtomicRmwSub(a)
            | Atomic::I32AtomicRmw8SubU(a)
            | Atomic::I32AtomicRmw16SubU(a)
            | Atomic::I64AtomicRmw8SubU(a)
            | Atomic::I64AtomicRmw16SubU(a)
            | Atomic::I64AtomicRmw32SubU(a)
            | Atomic::I32AtomicRmwAnd(a)
            | Atomic::I64AtomicRmwAnd(a) => a.ranged(),
            Atomic::I32AtomicRmw8AndU(a)
            | Atomic::I32AtomicRmw16AndU(a)
            | Atomic::I64AtomicRmw8AndU(a)
            | Atomic::I64AtomicRmw16AndU(a)
            | Atomic::I64AtomicRmw32AndU(a)
            | Atomic::I32AtomicRmwOr(a)
            | Atomic::I64AtomicRmwOr(a)
            | Atomic::I32AtomicRmw8OrU(a)
            | Atomic::I32AtomicRmw16OrU(a)
            | Atomic::I64AtomicRmw8OrU(a)
            | Atomic::I64AtomicRmw16OrU(a) => a.ranged(),
            Atomic::I64AtomicRmw32OrU(a)
            | Atomic::I32AtomicRmwXor(a)
            | Atomic::I64AtomicRmwXor(a)
            | Atomic::I32AtomicRmw8XorU(a)
            | Atomic::I32AtomicRmw16XorU(a)
            | Atomic::I64AtomicRmw8XorU(a)
            | Atomic::I64AtomicRmw16XorU(a)
            | Atomic::I64AtomicRmw32XorU(a)
            | Atomic::I32AtomicRmwXchg(a)
            | Atomic::I64AtomicRmwXchg(a)
            | Atomic::I32AtomicRmw8XchgU(a) => a.ranged(),
            Atomic::I32AtomicRmw16XchgU(a)
            | Atomic::I64AtomicRmw8XchgU(a)
            | Atomic::I64AtomicRmw16XchgU(a)
            | Atomic::I64AtomicRmw32XchgU(a)
            | Atomic::I32AtomicRmwCmpxchg(a)
            | Atomic::I64AtomicRmwCmpxchg(a)
            | Atomic::I32AtomicRmw8CmpxchgU(a)
            | Atomic::I32AtomicRmw16CmpxchgU(a)
            | Atomic::I64AtomicRmw8CmpxchgU(a)
            | Atomic::I64AtomicRmw16CmpxchgU(a)
            | Atomic::I64AtomicRmw32CmpxchgU(a) => a.ranged(),
            Atomic::AtomicFence(_) => {}
            Atomic::GlobalAtomicGet {
                ordering: _,
                global_index: b,
            }
            | Atomic::GlobalAtomicSet {
                ordering: _,
                global_index: b,
            }
            | Atomic::GlobalAtomicRmwAdd {
                ordering: _,
                global_index: b,
            }
            | Atomic::GlobalAtomicRmwSub {
                ordering: _,
                global_index: b,
            }
            | Atomic::GlobalAtomicRmwAnd {
                ordering: _,
                global_index: b,
            }
            | Atomic::GlobalAtomicRmwOr {
                ordering: _,
                global_index: b,
            }
            | Atomic::GlobalAtomicRmwXor {
                ordering: _,
                global_index: b,
            }
            | Atomic::GlobalAtomicRmwXchg {
                ordering: _,
                global_index: b,
            }
            | Atomic::GlobalAtomicRmwCmpxchg {
                ordering: _,
                global_index: b,
            }
            | Atomic::TableAtomicGet {
                ordering: _,
                table_index: b,
            }
            | Atomic::TableAtomicSet {
                ordering: _,
                table_index: b,
            }
            | Atomic::TableAtomicRmwXchg {
                ordering: _,
                table_index: b,
            } => b.ranged(),
            Atomic::TableAtomicRmwCmpxchg {
                ordering: _,
                table_index: b,
            }
            | Atomic::ArrayAtomicGet {
                ordering: _,
                array_type_index: b,
            }
            | Atomic::ArrayAtomicGetS {
                ordering: _,
                array_type_index: b,
            }
            | Atomic::ArrayAtomicGetU {
                ordering: _,
                array_type_index: b,
            }
            | Atomic::ArrayAtomicSet {
                ordering: _,
                array_type_index: b,
            }
            | Atomic::ArrayAtomicRmwAdd {
                ordering: _,
                array_type_index: b,
            }
            | Atomic::ArrayAtomicRmwSub {
                ordering: _,
                array_type_index: b,
            }
            | Atomic::ArrayAtomicRmwAnd {
                ordering: _,
                array_type_index: b,
            }
            | Atomic::ArrayAtomicRmwOr {
                ordering: _,
                array_type_index: b,
            }
            | Atomic::ArrayAtomicRmwXor {
                ordering: _,
                array_type_index: b,
            }
            | Atomic::ArrayAtomicRmwXchg {
                ordering: _,
                array_type_index: b,
            }
            | Atomic::ArrayAtomicRmwCmpxchg {
                ordering: _,
                array_type_index: b,
            } => b.ranged(),
            Atomic::StructAtomicGet {
                ordering: _,
                struct_type_index: b,
                field_index: c,
            }
            | Atomic::StructAtomicGetS {
                ordering: _,
                struct_type_index: b,
                field_index: c,
            }
            | Atomic::StructAtomicGetU {
                ordering: _,
                struct_type_index: b,
                field_index: c,
            }
            | Atomic::StructAtomicSet {
                ordering: _,
                struct_type_index: b,
                field_index: c,
            }
            | Atomic::StructAtomicRmwAdd {
                ordering: _,
                struct_type_index: b,
                field_index: c,
            }
            | Atomic::StructAtomicRmwSub {
                ordering: _,
                struct_type_index: b,
                field_index: c,
            }
            | Atomic::StructAtomicRmwAnd {
                ordering: _,
                struct_type_index: b,
                field_index: c,
            }
            | Atomic::StructAtomicRmwOr {
                ordering: _,
                struct_type_index: b,
                field_index: c,
            }
            | Atomic::StructAtomicRmwXor {
                ordering: _,
                struct_type_index: b,
                field_index: c,
            }
            | Atomic::StructAtomicRmwXchg {
                ordering: _,
                struct_type_index: b,
                field_index: c,
            }
            | Atomic::StructAtomicRmwCmpxchg {
                ordering: _,
                struct_type_index: b,
                field_index: c,
            } => {
                b.ranged();
                c.ranged();
            }
            Atomic::Pause | Atomic::RefI31Shared => {}
            // end: written by tools/instructions
        }
    }
}

/// Proves the property of each item of a list.
fn each_ranged<T: Ranged>(items: &[T])
    ensures { All T.in_range items.now }
{
    for item in items {
        item.ranged();
    }
}

/// Proves that the immediates of a cast are in range.
#[tactic(auto, using(crate::proofs::PlainLaws::cast_flag_below))]
fn cast_ranged(label: u32, from: RefType, to: RefType)
    ensures { AreWellFormed (flag (cast_flag_of from to) ∷ unsigned label ∷ heap from.heap_type ∷ heap to.heap_type ∷ []) }
{
    from.heap_type.ranged();
    to.heap_type.ranged();
}

/// Proves that the immediates of an instruction are in range, if its alignments are.
pub(crate) fn arguments_ranged<A: Allocator>(instruction: &Instruction<'_, A>)
    ensures { IsWellFormedWhereAligned instruction.now }
{
    match instruction {
        // begin: written by tools/instructions
        Instruction::Block(a) | Instruction::Loop(a) | Instruction::If(a) | Instruction::Try(a) =>
            a.ranged(),
        Instruction::Catch(a)
        | Instruction::Throw(a)
        | Instruction::Rethrow(a)
        | Instruction::Br(a)
        | Instruction::BrIf(a)
        | Instruction::Call(a)
        | Instruction::ReturnCall(a)
        | Instruction::CallRef(a)
        | Instruction::ReturnCallRef(a)
        | Instruction::Delegate(a)
        | Instruction::LocalGet(a) => a.ranged(),
        Instruction::LocalSet(a)
        | Instruction::LocalTee(a)
        | Instruction::GlobalGet(a)
        | Instruction::GlobalSet(a)
        | Instruction::TableGet(a)
        | Instruction::TableSet(a)
        | Instruction::MemorySize(a)
        | Instruction::MemoryGrow(a)
        | Instruction::RefFunc(a)
        | Instruction::BrOnNull(a)
        | Instruction::BrOnNonNull(a) => a.ranged(),
        Instruction::ContNew(a)
        | Instruction::Suspend(a)
        | Instruction::StructNew(a)
        | Instruction::StructNewDefault(a)
        | Instruction::ArrayNew(a)
        | Instruction::ArrayNewDefault(a)
        | Instruction::ArrayGet(a)
        | Instruction::ArrayGetS(a)
        | Instruction::ArrayGetU(a)
        | Instruction::ArraySet(a)
        | Instruction::ArrayFill(a) => a.ranged(),
        Instruction::StructNewDesc(a)
        | Instruction::StructNewDefaultDesc(a)
        | Instruction::RefGetDesc(a)
        | Instruction::DataDrop(a)
        | Instruction::MemoryFill(a)
        | Instruction::ElemDrop(a)
        | Instruction::TableGrow(a)
        | Instruction::TableSize(a)
        | Instruction::TableFill(a)
        | Instruction::MemoryDiscard(a) => a.ranged(),
        Instruction::BrTable(a, b) => {
            each_ranged(a.as_slice());
            b.ranged();
        }
        Instruction::CallIndirect {
            type_index,
            table_index,
        }
        | Instruction::ReturnCallIndirect {
            type_index,
            table_index,
        } => {
            type_index.ranged();
            table_index.ranged();
        }
        Instruction::TypedSelect(a) => a.ranged(),
        Instruction::TypedSelectMulti(a) => each_ranged(a.as_slice()),
        Instruction::TryTable(a, b) => {
            a.ranged();
            each_ranged(b.as_slice());
        }
        Instruction::I32Load(a)
        | Instruction::I64Load(a)
        | Instruction::F32Load(a)
        | Instruction::F64Load(a)
        | Instruction::I32Load8S(a)
        | Instruction::I32Load8U(a)
        | Instruction::I32Load16S(a)
        | Instruction::I32Load16U(a)
        | Instruction::I64Load8S(a)
        | Instruction::I64Load8U(a)
        | Instruction::I64Load16S(a)
        | Instruction::I64Load16U(a) => a.ranged(),
        Instruction::I64Load32S(a)
        | Instruction::I64Load32U(a)
        | Instruction::I32Store(a)
        | Instruction::I64Store(a)
        | Instruction::F32Store(a)
        | Instruction::F64Store(a)
        | Instruction::I32Store8(a)
        | Instruction::I32Store16(a)
        | Instruction::I64Store8(a)
        | Instruction::I64Store16(a)
        | Instruction::I64Store32(a) => a.ranged(),
        Instruction::I32Const(a) => a.ranged(),
        Instruction::I64Const(a) => a.ranged(),
        Instruction::F32Const(a) => a.ranged(),
        Instruction::F64Const(a) => a.ranged(),
        Instruction::RefNull(a)
        | Instruction::RefTestNonNull(a)
        | Instruction::RefTestNullable(a)
        | Instruction::RefCastNonNull(a)
        | Instruction::RefCastNullable(a)
        | Instruction::RefCastDescEqNonNull(a)
        | Instruction::RefCastDescEqNullable(a) => a.ranged(),
        Instruction::ContBind {
            argument_index: a,
            result_index: b,
        }
        | Instruction::Switch {
            cont_type_index: a,
            tag_index: b,
        }
        | Instruction::StructGet {
            struct_type_index: a,
            field_index: b,
        }
        | Instruction::StructGetS {
            struct_type_index: a,
            field_index: b,
        }
        | Instruction::StructGetU {
            struct_type_index: a,
            field_index: b,
        }
        | Instruction::StructSet {
            struct_type_index: a,
            field_index: b,
        }
        | Instruction::ArrayNewFixed {
            array_type_index: a,
            array_size: b,
        }
        | Instruction::ArrayNewData {
            array_type_index: a,
            array_data_index: b,
        } => {
            a.ranged();
            b.ranged();
        }
        Instruction::ArrayNewElem {
            array_type_index: a,
            array_elem_index: b,
        }
        | Instruction::ArrayCopy {
            array_type_index_dst: a,
            array_type_index_src: b,
        }
        | Instruction::ArrayInitData {
            array_type_index: a,
            array_data_index: b,
        }
        | Instruction::ArrayInitElem {
            array_type_index: a,
            array_elem_index: b,
        }
        | Instruction::MemoryInit {
            data_index: a,
            mem: b,
        }
        | Instruction::MemoryCopy {
            dst_mem: a,
            src_mem: b,
        }
        | Instruction::TableInit {
            elem_index: a,
            table: b,
        }
        | Instruction::TableCopy {
            dst_table: a,
            src_table: b,
        } => {
            a.ranged();
            b.ranged();
        }
        Instruction::Resume {
            cont_type_index: a,
            resume_table: b,
        }
        | Instruction::ResumeThrowRef {
            cont_type_index: a,
            resume_table: b,
        } => {
            a.ranged();
            each_ranged(b.as_slice());
        }
        Instruction::ResumeThrow {
            cont_type_index: a,
            tag_index: b,
            resume_table: c,
        } => {
            a.ranged();
            b.ranged();
            each_ranged(c.as_slice());
        }
        Instruction::BrOnCast {
            relative_depth: a,
            from_ref_type: b,
            to_ref_type: c,
        }
        | Instruction::BrOnCastFail {
            relative_depth: a,
            from_ref_type: b,
            to_ref_type: c,
        }
        | Instruction::BrOnCastDescEq {
            relative_depth: a,
            from_ref_type: b,
            to_ref_type: c,
        }
        | Instruction::BrOnCastDescEqFail {
            relative_depth: a,
            from_ref_type: b,
            to_ref_type: c,
        } => cast_ranged(*a, *b, *c),
        Instruction::Unreachable
        | Instruction::Nop
        | Instruction::Else
        | Instruction::ThrowRef
        | Instruction::End
        | Instruction::Return
        | Instruction::CatchAll
        | Instruction::Drop => {}
        Instruction::Select
        | Instruction::RefIsNull
        | Instruction::RefEq
        | Instruction::RefAsNonNull
        | Instruction::Numeric(_)
        | Instruction::Aggregate(_)
        | Instruction::PrefixedNumeric(_)
        | Instruction::Vector(_) => {}
        Instruction::VectorImmediate(a) => a.ranged(),
        Instruction::Atomic(a) => a.ranged(),
        // end: written by tools/instructions
    }
}
