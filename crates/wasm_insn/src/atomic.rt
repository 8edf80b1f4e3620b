// Atomic instructions: those after the prefix FE.
ghost use Rattle.std.specs.Prelude.{◌≡◌};
ghost use Rattle.wasm_base.specs.Calls.{Appends};
ghost use Rattle.wasm_insn.specs.Arguments.{arguments_encoding, arguments_encodable};
ghost use Rattle.wasm_insn.specs.Atomic.{atomic_row};

use crate::instruction::Instruction;
use crate::op::Op;
use std::alloc::Allocator;
use wasm_base::{Encode, Result};
use wasm_immediates::{MemArg, Ordering};

/// Atomic instructions: those after the prefix FE.
#[derive(Clone, Copy)]
pub enum Atomic {
    // begin: written by tools/instructions
    MemoryAtomicNotify(MemArg),
    MemoryAtomicWait32(MemArg),
    MemoryAtomicWait64(MemArg),
    AtomicFence(Ordering),
    Pause,
    I32AtomicLoad(MemArg),
    I64AtomicLoad(MemArg),
    I32AtomicLoad8U(MemArg),
    I32AtomicLoad16U(MemArg),
    I64AtomicLoad8U(MemArg),
    I64AtomicLoad16U(MemArg),
    I64AtomicLoad32U(MemArg),
    I32AtomicStore(MemArg),
    I64AtomicStore(MemArg),
    I32AtomicStore8(MemArg),
    I32AtomicStore16(MemArg),
    I64AtomicStore8(MemArg),
    I64AtomicStore16(MemArg),
    I64AtomicStore32(MemArg),
    I32AtomicRmwAdd(MemArg),
    I64AtomicRmwAdd(MemArg),
    I32AtomicRmw8AddU(MemArg),
    I32AtomicRmw16AddU(MemArg),
    I64AtomicRmw8AddU(MemArg),
    I64AtomicRmw16AddU(MemArg),
    I64AtomicRmw32AddU(MemArg),
    I32AtomicRmwSub(MemArg),
    I64AtomicRmwSub(MemArg),
    I32AtomicRmw8SubU(MemArg),
    I32AtomicRmw16SubU(MemArg),
    I64AtomicRmw8SubU(MemArg),
    I64AtomicRmw16SubU(MemArg),
    I64AtomicRmw32SubU(MemArg),
    I32AtomicRmwAnd(MemArg),
    I64AtomicRmwAnd(MemArg),
    I32AtomicRmw8AndU(MemArg),
    I32AtomicRmw16AndU(MemArg),
    I64AtomicRmw8AndU(MemArg),
    I64AtomicRmw16AndU(MemArg),
    I64AtomicRmw32AndU(MemArg),
    I32AtomicRmwOr(MemArg),
    I64AtomicRmwOr(MemArg),
    I32AtomicRmw8OrU(MemArg),
    I32AtomicRmw16OrU(MemArg),
    I64AtomicRmw8OrU(MemArg),
    I64AtomicRmw16OrU(MemArg),
    I64AtomicRmw32OrU(MemArg),
    I32AtomicRmwXor(MemArg),
    I64AtomicRmwXor(MemArg),
    I32AtomicRmw8XorU(MemArg),
    I32AtomicRmw16XorU(MemArg),
    I64AtomicRmw8XorU(MemArg),
    I64AtomicRmw16XorU(MemArg),
    I64AtomicRmw32XorU(MemArg),
    I32AtomicRmwXchg(MemArg),
    I64AtomicRmwXchg(MemArg),
    I32AtomicRmw8XchgU(MemArg),
    I32AtomicRmw16XchgU(MemArg),
    I64AtomicRmw8XchgU(MemArg),
    I64AtomicRmw16XchgU(MemArg),
    I64AtomicRmw32XchgU(MemArg),
    I32AtomicRmwCmpxchg(MemArg),
    I64AtomicRmwCmpxchg(MemArg),
    I32AtomicRmw8CmpxchgU(MemArg),
    I32AtomicRmw16CmpxchgU(MemArg),
    I64AtomicRmw8CmpxchgU(MemArg),
    I64AtomicRmw16CmpxchgU(MemArg),
    I64AtomicRmw32CmpxchgU(MemArg),
    GlobalAtomicGet {
        ordering: Ordering,
        global_index: u32,
    },
    GlobalAtomicSet {
        ordering: Ordering,
        global_index: u32,
    },
    GlobalAtomicRmwAdd {
        ordering: Ordering,
        global_index: u32,
    },
    GlobalAtomicRmwSub {
        ordering: Ordering,
        global_index: u32,
    },
    GlobalAtomicRmwAnd {
        ordering: Ordering,
        global_index: u32,
    },
    GlobalAtomicRmwOr {
        ordering: Ordering,
        global_index: u32,
    },
    GlobalAtomicRmwXor {
        ordering: Ordering,
        global_index: u32,
    },
    GlobalAtomicRmwXchg {
        ordering: Ordering,
        global_index: u32,
    },
    GlobalAtomicRmwCmpxchg {
        ordering: Ordering,
        global_index: u32,
    },
    TableAtomicGet {
        ordering: Ordering,
        table_index: u32,
    },
    TableAtomicSet {
        ordering: Ordering,
        table_index: u32,
    },
    TableAtomicRmwXchg {
        ordering: Ordering,
        table_index: u32,
    },
    TableAtomicRmwCmpxchg {
        ordering: Ordering,
        table_index: u32,
    },
    StructAtomicGet {
        ordering: Ordering,
        struct_type_index: u32,
        field_index: u32,
    },
    StructAtomicGetS {
        ordering: Ordering,
        struct_type_index: u32,
        field_index: u32,
    },
    StructAtomicGetU {
        ordering: Ordering,
        struct_type_index: u32,
        field_index: u32,
    },
    StructAtomicSet {
        ordering: Ordering,
        struct_type_index: u32,
        field_index: u32,
    },
    StructAtomicRmwAdd {
        ordering: Ordering,
        struct_type_index: u32,
        field_index: u32,
    },
    StructAtomicRmwSub {
        ordering: Ordering,
        struct_type_index: u32,
        field_index: u32,
    },
    StructAtomicRmwAnd {
        ordering: Ordering,
        struct_type_index: u32,
        field_index: u32,
    },
    StructAtomicRmwOr {
        ordering: Ordering,
        struct_type_index: u32,
        field_index: u32,
    },
    StructAtomicRmwXor {
        ordering: Ordering,
        struct_type_index: u32,
        field_index: u32,
    },
    StructAtomicRmwXchg {
        ordering: Ordering,
        struct_type_index: u32,
        field_index: u32,
    },
    StructAtomicRmwCmpxchg {
        ordering: Ordering,
        struct_type_index: u32,
        field_index: u32,
    },
    ArrayAtomicGet {
        ordering: Ordering,
        array_type_index: u32,
    },
    ArrayAtomicGetS {
        ordering: Ordering,
        array_type_index: u32,
    },
    ArrayAtomicGetU {
        ordering: Ordering,
        array_type_index: u32,
    },
    ArrayAtomicSet {
        ordering: Ordering,
        array_type_index: u32,
    },
    ArrayAtomicRmwAdd {
        ordering: Ordering,
        array_type_index: u32,
    },
    ArrayAtomicRmwSub {
        ordering: Ordering,
        array_type_index: u32,
    },
    ArrayAtomicRmwAnd {
        ordering: Ordering,
        array_type_index: u32,
    },
    ArrayAtomicRmwOr {
        ordering: Ordering,
        array_type_index: u32,
    },
    ArrayAtomicRmwXor {
        ordering: Ordering,
        array_type_index: u32,
    },
    ArrayAtomicRmwXchg {
        ordering: Ordering,
        array_type_index: u32,
    },
    ArrayAtomicRmwCmpxchg {
        ordering: Ordering,
        array_type_index: u32,
    },
    RefI31Shared,
    // end: written by tools/instructions
}

impl Atomic {
    /// Returns the opcode, as in the opcode table.
    pub fn op(self) -> Op
        ensures { result ≡ (atomic_row self).op }
    {
        match self {
            // begin: written by tools/instructions
            Atomic::MemoryAtomicNotify(..) => Op::Prefixed(0xFE, 0x00),
            Atomic::MemoryAtomicWait32(..) => Op::Prefixed(0xFE, 0x01),
            Atomic::MemoryAtomicWait64(..) => Op::Prefixed(0xFE, 0x02),
            Atomic::AtomicFence(..) => Op::Prefixed(0xFE, 0x03),
            Atomic::Pause => Op::Prefixed(0xFE, 0x04),
            Atomic::I32AtomicLoad(..) => Op::Prefixed(0xFE, 0x10),
            Atomic::I64AtomicLoad(..) => Op::Prefixed(0xFE, 0x11),
            Atomic::I32AtomicLoad8U(..) => Op::Prefixed(0xFE, 0x12),
            Atomic::I32AtomicLoad16U(..) => Op::Prefixed(0xFE, 0x13),
            Atomic::I64AtomicLoad8U(..) => Op::Prefixed(0xFE, 0x14),
            Atomic::I64AtomicLoad16U(..) => Op::Prefixed(0xFE, 0x15),
            Atomic::I64AtomicLoad32U(..) => Op::Prefixed(0xFE, 0x16),
            Atomic::I32AtomicStore(..) => Op::Prefixed(0xFE, 0x17),
            Atomic::I64AtomicStore(..) => Op::Prefixed(0xFE, 0x18),
            Atomic::I32AtomicStore8(..) => Op::Prefixed(0xFE, 0x19),
            Atomic::I32AtomicStore16(..) => Op::Prefixed(0xFE, 0x1A),
            Atomic::I64AtomicStore8(..) => Op::Prefixed(0xFE, 0x1B),
            Atomic::I64AtomicStore16(..) => Op::Prefixed(0xFE, 0x1C),
            Atomic::I64AtomicStore32(..) => Op::Prefixed(0xFE, 0x1D),
            Atomic::I32AtomicRmwAdd(..) => Op::Prefixed(0xFE, 0x1E),
            Atomic::I64AtomicRmwAdd(..) => Op::Prefixed(0xFE, 0x1F),
            Atomic::I32AtomicRmw8AddU(..) => Op::Prefixed(0xFE, 0x20),
            Atomic::I32AtomicRmw16AddU(..) => Op::Prefixed(0xFE, 0x21),
            Atomic::I64AtomicRmw8AddU(..) => Op::Prefixed(0xFE, 0x22),
            Atomic::I64AtomicRmw16AddU(..) => Op::Prefixed(0xFE, 0x23),
            Atomic::I64AtomicRmw32AddU(..) => Op::Prefixed(0xFE, 0x24),
            Atomic::I32AtomicRmwSub(..) => Op::Prefixed(0xFE, 0x25),
            Atomic::I64AtomicRmwSub(..) => Op::Prefixed(0xFE, 0x26),
            Atomic::I32AtomicRmw8SubU(..) => Op::Prefixed(0xFE, 0x27),
            Atomic::I32AtomicRmw16SubU(..) => Op::Prefixed(0xFE, 0x28),
            Atomic::I64AtomicRmw8SubU(..) => Op::Prefixed(0xFE, 0x29),
            Atomic::I64AtomicRmw16SubU(..) => Op::Prefixed(0xFE, 0x2A),
            Atomic::I64AtomicRmw32SubU(..) => Op::Prefixed(0xFE, 0x2B),
            Atomic::I32AtomicRmwAnd(..) => Op::Prefixed(0xFE, 0x2C),
            Atomic::I64AtomicRmwAnd(..) => Op::Prefixed(0xFE, 0x2D),
            Atomic::I32AtomicRmw8AndU(..) => Op::Prefixed(0xFE, 0x2E),
            Atomic::I32AtomicRmw16AndU(..) => Op::Prefixed(0xFE, 0x2F),
            Atomic::I64AtomicRmw8AndU(..) => Op::Prefixed(0xFE, 0x30),
            Atomic::I64AtomicRmw16AndU(..) => Op::Prefixed(0xFE, 0x31),
            Atomic::I64AtomicRmw32AndU(..) => Op::Prefixed(0xFE, 0x32),
            Atomic::I32AtomicRmwOr(..) => Op::Prefixed(0xFE, 0x33),
            Atomic::I64AtomicRmwOr(..) => Op::Prefixed(0xFE, 0x34),
            Atomic::I32AtomicRmw8OrU(..) => Op::Prefixed(0xFE, 0x35),
            Atomic::I32AtomicRmw16OrU(..) => Op::Prefixed(0xFE, 0x36),
            Atomic::I64AtomicRmw8OrU(..) => Op::Prefixed(0xFE, 0x37),
            Atomic::I64AtomicRmw16OrU(..) => Op::Prefixed(0xFE, 0x38),
            Atomic::I64AtomicRmw32OrU(..) => Op::Prefixed(0xFE, 0x39),
            Atomic::I32AtomicRmwXor(..) => Op::Prefixed(0xFE, 0x3A),
            Atomic::I64AtomicRmwXor(..) => Op::Prefixed(0xFE, 0x3B),
            Atomic::I32AtomicRmw8XorU(..) => Op::Prefixed(0xFE, 0x3C),
            Atomic::I32AtomicRmw16XorU(..) => Op::Prefixed(0xFE, 0x3D),
            Atomic::I64AtomicRmw8XorU(..) => Op::Prefixed(0xFE, 0x3E),
            Atomic::I64AtomicRmw16XorU(..) => Op::Prefixed(0xFE, 0x3F),
            Atomic::I64AtomicRmw32XorU(..) => Op::Prefixed(0xFE, 0x40),
            Atomic::I32AtomicRmwXchg(..) => Op::Prefixed(0xFE, 0x41),
            Atomic::I64AtomicRmwXchg(..) => Op::Prefixed(0xFE, 0x42),
            Atomic::I32AtomicRmw8XchgU(..) => Op::Prefixed(0xFE, 0x43),
            Atomic::I32AtomicRmw16XchgU(..) => Op::Prefixed(0xFE, 0x44),
            Atomic::I64AtomicRmw8XchgU(..) => Op::Prefixed(0xFE, 0x45),
            Atomic::I64AtomicRmw16XchgU(..) => Op::Prefixed(0xFE, 0x46),
            Atomic::I64AtomicRmw32XchgU(..) => Op::Prefixed(0xFE, 0x47),
            Atomic::I32AtomicRmwCmpxchg(..) => Op::Prefixed(0xFE, 0x48),
            Atomic::I64AtomicRmwCmpxchg(..) => Op::Prefixed(0xFE, 0x49),
            Atomic::I32AtomicRmw8CmpxchgU(..) => Op::Prefixed(0xFE, 0x4A),
            Atomic::I32AtomicRmw16CmpxchgU(..) => Op::Prefixed(0xFE, 0x4B),
            Atomic::I64AtomicRmw8CmpxchgU(..) => Op::Prefixed(0xFE, 0x4C),
            Atomic::I64AtomicRmw16CmpxchgU(..) => Op::Prefixed(0xFE, 0x4D),
            Atomic::I64AtomicRmw32CmpxchgU(..) => Op::Prefixed(0xFE, 0x4E),
            Atomic::GlobalAtomicGet { .. } => Op::Prefixed(0xFE, 0x4F),
            Atomic::GlobalAtomicSet { .. } => Op::Prefixed(0xFE, 0x50),
            Atomic::GlobalAtomicRmwAdd { .. } => Op::Prefixed(0xFE, 0x51),
            Atomic::GlobalAtomicRmwSub { .. } => Op::Prefixed(0xFE, 0x52),
            Atomic::GlobalAtomicRmwAnd { .. } => Op::Prefixed(0xFE, 0x53),
            Atomic::GlobalAtomicRmwOr { .. } => Op::Prefixed(0xFE, 0x54),
            Atomic::GlobalAtomicRmwXor { .. } => Op::Prefixed(0xFE, 0x55),
            Atomic::GlobalAtomicRmwXchg { .. } => Op::Prefixed(0xFE, 0x56),
            Atomic::GlobalAtomicRmwCmpxchg { .. } => Op::Prefixed(0xFE, 0x57),
            Atomic::TableAtomicGet { .. } => Op::Prefixed(0xFE, 0x58),
            Atomic::TableAtomicSet { .. } => Op::Prefixed(0xFE, 0x59),
            Atomic::TableAtomicRmwXchg { .. } => Op::Prefixed(0xFE, 0x5A),
            Atomic::TableAtomicRmwCmpxchg { .. } => Op::Prefixed(0xFE, 0x5B),
            Atomic::StructAtomicGet { .. } => Op::Prefixed(0xFE, 0x5C),
            Atomic::StructAtomicGetS { .. } => Op::Prefixed(0xFE, 0x5D),
            Atomic::StructAtomicGetU { .. } => Op::Prefixed(0xFE, 0x5E),
            Atomic::StructAtomicSet { .. } => Op::Prefixed(0xFE, 0x5F),
            Atomic::StructAtomicRmwAdd { .. } => Op::Prefixed(0xFE, 0x60),
            Atomic::StructAtomicRmwSub { .. } => Op::Prefixed(0xFE, 0x61),
            Atomic::StructAtomicRmwAnd { .. } => Op::Prefixed(0xFE, 0x62),
            Atomic::StructAtomicRmwOr { .. } => Op::Prefixed(0xFE, 0x63),
            Atomic::StructAtomicRmwXor { .. } => Op::Prefixed(0xFE, 0x64),
            Atomic::StructAtomicRmwXchg { .. } => Op::Prefixed(0xFE, 0x65),
            Atomic::StructAtomicRmwCmpxchg { .. } => Op::Prefixed(0xFE, 0x66),
            Atomic::ArrayAtomicGet { .. } => Op::Prefixed(0xFE, 0x67),
            Atomic::ArrayAtomicGetS { .. } => Op::Prefixed(0xFE, 0x68),
            Atomic::ArrayAtomicGetU { .. } => Op::Prefixed(0xFE, 0x69),
            Atomic::ArrayAtomicSet { .. } => Op::Prefixed(0xFE, 0x6A),
            Atomic::ArrayAtomicRmwAdd { .. } => Op::Prefixed(0xFE, 0x6B),
            Atomic::ArrayAtomicRmwSub { .. } => Op::Prefixed(0xFE, 0x6C),
            Atomic::ArrayAtomicRmwAnd { .. } => Op::Prefixed(0xFE, 0x6D),
            Atomic::ArrayAtomicRmwOr { .. } => Op::Prefixed(0xFE, 0x6E),
            Atomic::ArrayAtomicRmwXor { .. } => Op::Prefixed(0xFE, 0x6F),
            Atomic::ArrayAtomicRmwXchg { .. } => Op::Prefixed(0xFE, 0x70),
            Atomic::ArrayAtomicRmwCmpxchg { .. } => Op::Prefixed(0xFE, 0x71),
            Atomic::RefI31Shared => Op::Prefixed(0xFE, 0x72),
            // end: written by tools/instructions
        }
    }

    /// Appends the immediates.
    pub(crate) fn encode_arguments<A: Allocator>(self, sink: &mut Vec<u8, A>) -> Result<()>
        ensures { Appends (arguments_encoding (atomic_row self).arguments) (arguments_encodable (atomic_row self).arguments) sink.old sink.new result }
    {
        match self {
            // begin: written by tools/instructions
            Atomic::MemoryAtomicNotify(a)
            | Atomic::MemoryAtomicWait32(a)
            | Atomic::MemoryAtomicWait64(a)
            | Atomic::I32AtomicLoad(a)
            | Atomic::I64AtomicLoad(a)
            | Atomic::I32AtomicLoad8U(a)
            | Atomic::I32AtomicLoad16U(a)
            | Atomic::I64AtomicLoad8U(a)
            | Atomic::I64AtomicLoad16U(a)
            | Atomic::I64AtomicLoad32U(a)
            | Atomic::I32AtomicStore(a) => a.encode(sink),
            Atomic::I64AtomicStore(a)
            | Atomic::I32AtomicStore8(a)
            | Atomic::I32AtomicStore16(a)
            | Atomic::I64AtomicStore8(a)
            | Atomic::I64AtomicStore16(a)
            | Atomic::I64AtomicStore32(a)
            | Atomic::I32AtomicRmwAdd(a)
            | Atomic::I64AtomicRmwAdd(a)
            | Atomic::I32AtomicRmw8AddU(a)
            | Atomic::I32AtomicRmw16AddU(a)
            | Atomic::I64AtomicRmw8AddU(a) => a.encode(sink),
            Atomic::I64AtomicRmw16AddU(a)
            | Atomic::I64AtomicRmw32AddU(a)
            | Atomic::I32AtomicRmwSub(a)
            | Atomic::I64AtomicRmwSub(a)
            | Atomic::I32AtomicRmw8SubU(a)
            | Atomic::I32AtomicRmw16SubU(a)
            | Atomic::I64AtomicRmw8SubU(a)
            | Atomic::I64AtomicRmw16SubU(a)
            | Atomic::I64AtomicRmw32SubU(a)
            | Atomic::I32AtomicRmwAnd(a)
            | Atomic::I64AtomicRmwAnd(a) => a.encode(sink),
            Atomic::I32AtomicRmw8AndU(a)
            | Atomic::I32AtomicRmw16AndU(a)
            | Atomic::I64AtomicRmw8AndU(a)
            | Atomic::I64AtomicRmw16AndU(a)
            | Atomic::I64AtomicRmw32AndU(a)
            | Atomic::I32AtomicRmwOr(a)
            | Atomic::I64AtomicRmwOr(a)
            | Atomic::I32AtomicRmw8OrU(a)
            | Atomic::I32AtomicRmw16OrU(a)
            | Atomic::I64AtomicRmw8OrU(a)
            | Atomic::I64AtomicRmw16OrU(a) => a.encode(sink),
            Atomic::I64AtomicRmw32OrU(a)
            | Atomic::I32AtomicRmwXor(a)
            | Atomic::I64AtomicRmwXor(a)
            | Atomic::I32AtomicRmw8XorU(a)
            | Atomic::I32AtomicRmw16XorU(a)
            | Atomic::I64AtomicRmw8XorU(a)
            | Atomic::I64AtomicRmw16XorU(a)
            | Atomic::I64AtomicRmw32XorU(a)
            | Atomic::I32AtomicRmwXchg(a)
            | Atomic::I64AtomicRmwXchg(a)
            | Atomic::I32AtomicRmw8XchgU(a) => a.encode(sink),
            Atomic::I32AtomicRmw16XchgU(a)
            | Atomic::I64AtomicRmw8XchgU(a)
            | Atomic::I64AtomicRmw16XchgU(a)
            | Atomic::I64AtomicRmw32XchgU(a)
            | Atomic::I32AtomicRmwCmpxchg(a)
            | Atomic::I64AtomicRmwCmpxchg(a)
            | Atomic::I32AtomicRmw8CmpxchgU(a)
            | Atomic::I32AtomicRmw16CmpxchgU(a)
            | Atomic::I64AtomicRmw8CmpxchgU(a)
            | Atomic::I64AtomicRmw16CmpxchgU(a)
            | Atomic::I64AtomicRmw32CmpxchgU(a) => a.encode(sink),
            Atomic::AtomicFence(a) => a.encode(sink),
            Atomic::GlobalAtomicGet {
                ordering: a,
                global_index: b,
            }
            | Atomic::GlobalAtomicSet {
                ordering: a,
                global_index: b,
            }
            | Atomic::GlobalAtomicRmwAdd {
                ordering: a,
                global_index: b,
            }
            | Atomic::GlobalAtomicRmwSub {
                ordering: a,
                global_index: b,
            }
            | Atomic::GlobalAtomicRmwAnd {
                ordering: a,
                global_index: b,
            }
            | Atomic::GlobalAtomicRmwOr {
                ordering: a,
                global_index: b,
            }
            | Atomic::GlobalAtomicRmwXor {
                ordering: a,
                global_index: b,
            }
            | Atomic::GlobalAtomicRmwXchg {
                ordering: a,
                global_index: b,
            }
            | Atomic::GlobalAtomicRmwCmpxchg {
                ordering: a,
                global_index: b,
            }
            | Atomic::TableAtomicGet {
                ordering: a,
                table_index: b,
            }
            | Atomic::TableAtomicSet {
                ordering: a,
                table_index: b,
            }
            | Atomic::TableAtomicRmwXchg {
                ordering: a,
                table_index: b,
            } => (a, b).encode(sink),
            Atomic::TableAtomicRmwCmpxchg {
                ordering: a,
                table_index: b,
            }
            | Atomic::ArrayAtomicGet {
                ordering: a,
                array_type_index: b,
            }
            | Atomic::ArrayAtomicGetS {
                ordering: a,
                array_type_index: b,
            }
            | Atomic::ArrayAtomicGetU {
                ordering: a,
                array_type_index: b,
            }
            | Atomic::ArrayAtomicSet {
                ordering: a,
                array_type_index: b,
            }
            | Atomic::ArrayAtomicRmwAdd {
                ordering: a,
                array_type_index: b,
            }
            | Atomic::ArrayAtomicRmwSub {
                ordering: a,
                array_type_index: b,
            }
            | Atomic::ArrayAtomicRmwAnd {
                ordering: a,
                array_type_index: b,
            }
            | Atomic::ArrayAtomicRmwOr {
                ordering: a,
                array_type_index: b,
            }
            | Atomic::ArrayAtomicRmwXor {
                ordering: a,
                array_type_index: b,
            }
            | Atomic::ArrayAtomicRmwXchg {
                ordering: a,
                array_type_index: b,
            }
            | Atomic::ArrayAtomicRmwCmpxchg {
                ordering: a,
                array_type_index: b,
            } => (a, b).encode(sink),
            Atomic::StructAtomicGet {
                ordering: a,
                struct_type_index: b,
                field_index: c,
            }
            | Atomic::StructAtomicGetS {
                ordering: a,
                struct_type_index: b,
                field_index: c,
            }
            | Atomic::StructAtomicGetU {
                ordering: a,
                struct_type_index: b,
                field_index: c,
            }
            | Atomic::StructAtomicSet {
                ordering: a,
                struct_type_index: b,
                field_index: c,
            }
            | Atomic::StructAtomicRmwAdd {
                ordering: a,
                struct_type_index: b,
                field_index: c,
            }
            | Atomic::StructAtomicRmwSub {
                ordering: a,
                struct_type_index: b,
                field_index: c,
            }
            | Atomic::StructAtomicRmwAnd {
                ordering: a,
                struct_type_index: b,
                field_index: c,
            }
            | Atomic::StructAtomicRmwOr {
                ordering: a,
                struct_type_index: b,
                field_index: c,
            }
            | Atomic::StructAtomicRmwXor {
                ordering: a,
                struct_type_index: b,
                field_index: c,
            }
            | Atomic::StructAtomicRmwXchg {
                ordering: a,
                struct_type_index: b,
                field_index: c,
            }
            | Atomic::StructAtomicRmwCmpxchg {
                ordering: a,
                struct_type_index: b,
                field_index: c,
            } => (a, b, c).encode(sink),
            Atomic::Pause | Atomic::RefI31Shared => Ok(()),
            // end: written by tools/instructions
        }
    }
}

/// The instructions without fields as constants of `Instruction`.
impl Instruction<'static> {
    // begin: written by tools/instructions
    pub const Pause: Self = Instruction::Atomic(Atomic::Pause);

    pub const RefI31Shared: Self = Instruction::Atomic(Atomic::RefI31Shared);
    // end: written by tools/instructions
}
