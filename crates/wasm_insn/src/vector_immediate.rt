// Vector instructions with immediates: those after the prefix FD.
ghost use Rattle.std.specs.Prelude.{◌≡◌};
ghost use Rattle.wasm_base.specs.Calls.{Appends};
ghost use Rattle.wasm_immediates.specs.Immediates.{vector_encoding};
ghost use Rattle.wasm_insn.specs.Arguments.{arguments_encoding, arguments_encodable};
ghost use Rattle.wasm_insn.specs.VectorImmediate.{vector_immediate_row};

use crate::op::Op;
use std::alloc::Allocator;
use wasm_base::{Encode, Result};
use wasm_immediates::{Lane, MemArg};

/// Returns the bytes of a vector, little-endian.
#[tactic(auto, using(wasm_immediates::proofs::FixedBytes::vector_bytes))]
pub(crate) fn vector_bytes(value: i128) -> [u8; 16]
    ensures { result ≡ vector_encoding value }
{
    value.to_le_bytes()
}

/// Vector instructions with immediates: those after the prefix FD.
#[derive(Clone, Copy)]
pub enum VectorImmediate {
    // begin: written by tools/instructions
    V128Load(MemArg),
    V128Load8x8S(MemArg),
    V128Load8x8U(MemArg),
    V128Load16x4S(MemArg),
    V128Load16x4U(MemArg),
    V128Load32x2S(MemArg),
    V128Load32x2U(MemArg),
    V128Load8Splat(MemArg),
    V128Load16Splat(MemArg),
    V128Load32Splat(MemArg),
    V128Load64Splat(MemArg),
    V128Store(MemArg),
    V128Const(i128),
    I8x16Shuffle([Lane; 16]),
    I8x16ExtractLaneS(Lane),
    I8x16ExtractLaneU(Lane),
    I8x16ReplaceLane(Lane),
    I16x8ExtractLaneS(Lane),
    I16x8ExtractLaneU(Lane),
    I16x8ReplaceLane(Lane),
    I32x4ExtractLane(Lane),
    I32x4ReplaceLane(Lane),
    I64x2ExtractLane(Lane),
    I64x2ReplaceLane(Lane),
    F32x4ExtractLane(Lane),
    F32x4ReplaceLane(Lane),
    F64x2ExtractLane(Lane),
    F64x2ReplaceLane(Lane),
    V128Load8Lane { memarg: MemArg, lane: Lane },
    V128Load16Lane { memarg: MemArg, lane: Lane },
    V128Load32Lane { memarg: MemArg, lane: Lane },
    V128Load64Lane { memarg: MemArg, lane: Lane },
    V128Store8Lane { memarg: MemArg, lane: Lane },
    V128Store16Lane { memarg: MemArg, lane: Lane },
    V128Store32Lane { memarg: MemArg, lane: Lane },
    V128Store64Lane { memarg: MemArg, lane: Lane },
    V128Load32Zero(MemArg),
    V128Load64Zero(MemArg),
    // end: written by tools/instructions
}

impl VectorImmediate {
    /// Returns the opcode, as in the opcode table.
    pub fn op(self) -> Op
        ensures { result ≡ (vector_immediate_row self).op }
    {
        match self {
            // begin: written by tools/instructions
            VectorImmediate::V128Load(..) => Op::Prefixed(0xFD, 0),
            VectorImmediate::V128Load8x8S(..) => Op::Prefixed(0xFD, 1),
            VectorImmediate::V128Load8x8U(..) => Op::Prefixed(0xFD, 2),
            VectorImmediate::V128Load16x4S(..) => Op::Prefixed(0xFD, 3),
            VectorImmediate::V128Load16x4U(..) => Op::Prefixed(0xFD, 4),
            VectorImmediate::V128Load32x2S(..) => Op::Prefixed(0xFD, 5),
            VectorImmediate::V128Load32x2U(..) => Op::Prefixed(0xFD, 6),
            VectorImmediate::V128Load8Splat(..) => Op::Prefixed(0xFD, 7),
            VectorImmediate::V128Load16Splat(..) => Op::Prefixed(0xFD, 8),
            VectorImmediate::V128Load32Splat(..) => Op::Prefixed(0xFD, 9),
            VectorImmediate::V128Load64Splat(..) => Op::Prefixed(0xFD, 10),
            VectorImmediate::V128Store(..) => Op::Prefixed(0xFD, 11),
            VectorImmediate::V128Const(..) => Op::Prefixed(0xFD, 12),
            VectorImmediate::I8x16Shuffle(..) => Op::Prefixed(0xFD, 13),
            VectorImmediate::I8x16ExtractLaneS(..) => Op::Prefixed(0xFD, 21),
            VectorImmediate::I8x16ExtractLaneU(..) => Op::Prefixed(0xFD, 22),
            VectorImmediate::I8x16ReplaceLane(..) => Op::Prefixed(0xFD, 23),
            VectorImmediate::I16x8ExtractLaneS(..) => Op::Prefixed(0xFD, 24),
            VectorImmediate::I16x8ExtractLaneU(..) => Op::Prefixed(0xFD, 25),
            VectorImmediate::I16x8ReplaceLane(..) => Op::Prefixed(0xFD, 26),
            VectorImmediate::I32x4ExtractLane(..) => Op::Prefixed(0xFD, 27),
            VectorImmediate::I32x4ReplaceLane(..) => Op::Prefixed(0xFD, 28),
            VectorImmediate::I64x2ExtractLane(..) => Op::Prefixed(0xFD, 29),
            VectorImmediate::I64x2ReplaceLane(..) => Op::Prefixed(0xFD, 30),
            VectorImmediate::F32x4ExtractLane(..) => Op::Prefixed(0xFD, 31),
            VectorImmediate::F32x4ReplaceLane(..) => Op::Prefixed(0xFD, 32),
            VectorImmediate::F64x2ExtractLane(..) => Op::Prefixed(0xFD, 33),
            VectorImmediate::F64x2ReplaceLane(..) => Op::Prefixed(0xFD, 34),
            VectorImmediate::V128Load8Lane { .. } => Op::Prefixed(0xFD, 84),
            VectorImmediate::V128Load16Lane { .. } => Op::Prefixed(0xFD, 85),
            VectorImmediate::V128Load32Lane { .. } => Op::Prefixed(0xFD, 86),
            VectorImmediate::V128Load64Lane { .. } => Op::Prefixed(0xFD, 87),
            VectorImmediate::V128Store8Lane { .. } => Op::Prefixed(0xFD, 88),
            VectorImmediate::V128Store16Lane { .. } => Op::Prefixed(0xFD, 89),
            VectorImmediate::V128Store32Lane { .. } => Op::Prefixed(0xFD, 90),
            VectorImmediate::V128Store64Lane { .. } => Op::Prefixed(0xFD, 91),
            VectorImmediate::V128Load32Zero(..) => Op::Prefixed(0xFD, 92),
            VectorImmediate::V128Load64Zero(..) => Op::Prefixed(0xFD, 93),
            // end: written by tools/instructions
        }
    }

    /// Appends the immediates.
    pub(crate) fn encode_arguments<A: Allocator>(self, sink: &mut Vec<u8, A>) -> Result<()>
        ensures { Appends (arguments_encoding (vector_immediate_row self).arguments) (arguments_encodable (vector_immediate_row self).arguments) sink.old sink.new result }
    {
        match self {
            // begin: written by tools/instructions
            VectorImmediate::V128Load(a)
            | VectorImmediate::V128Load8x8S(a)
            | VectorImmediate::V128Load8x8U(a)
            | VectorImmediate::V128Load16x4S(a)
            | VectorImmediate::V128Load16x4U(a)
            | VectorImmediate::V128Load32x2S(a)
            | VectorImmediate::V128Load32x2U(a) => a.encode(sink),
            VectorImmediate::V128Load8Splat(a)
            | VectorImmediate::V128Load16Splat(a)
            | VectorImmediate::V128Load32Splat(a)
            | VectorImmediate::V128Load64Splat(a)
            | VectorImmediate::V128Store(a)
            | VectorImmediate::V128Load32Zero(a)
            | VectorImmediate::V128Load64Zero(a) => a.encode(sink),
            VectorImmediate::V128Const(a) => vector_bytes(a).encode(sink),
            VectorImmediate::I8x16Shuffle(a) => a.encode(sink),
            VectorImmediate::I8x16ExtractLaneS(a)
            | VectorImmediate::I8x16ExtractLaneU(a)
            | VectorImmediate::I8x16ReplaceLane(a)
            | VectorImmediate::I16x8ExtractLaneS(a)
            | VectorImmediate::I16x8ExtractLaneU(a)
            | VectorImmediate::I16x8ReplaceLane(a)
            | VectorImmediate::I32x4ExtractLane(a) => a.encode(sink),
            VectorImmediate::I32x4ReplaceLane(a)
            | VectorImmediate::I64x2ExtractLane(a)
            | VectorImmediate::I64x2ReplaceLane(a)
            | VectorImmediate::F32x4ExtractLane(a)
            | VectorImmediate::F32x4ReplaceLane(a)
            | VectorImmediate::F64x2ExtractLane(a)
            | VectorImmediate::F64x2ReplaceLane(a) => a.encode(sink),
            VectorImmediate::V128Load8Lane { memarg: a, lane: b }
            | VectorImmediate::V128Load16Lane { memarg: a, lane: b }
            | VectorImmediate::V128Load32Lane { memarg: a, lane: b }
            | VectorImmediate::V128Load64Lane { memarg: a, lane: b }
            | VectorImmediate::V128Store8Lane { memarg: a, lane: b }
            | VectorImmediate::V128Store16Lane { memarg: a, lane: b }
            | VectorImmediate::V128Store32Lane { memarg: a, lane: b }
            | VectorImmediate::V128Store64Lane { memarg: a, lane: b } => (a, b).encode(sink),
            // end: written by tools/instructions
        }
    }
}
