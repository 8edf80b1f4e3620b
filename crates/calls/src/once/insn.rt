//! Instructions, and calls of a sink.
use std::alloc::{Allocator, Global};
use wasm_base::{Result, ValType};
use wasm_immediates::{Ieee32, Ieee64, Ordering};
use wasm_insn::{
    Aggregate, Atomic, BlockType, Instruction, InstructionSink, Numeric, Op, PrefixedNumeric,
    Shape, Vector, VectorImmediate,
};

pub fn opcodes() {
    let nop: Instruction = Instruction::Nop;
    let _ = nop.op();
    let _ = Op::Byte(0x20).shape();
    let _ = Shape::U.parts();
    let _ = Numeric::I32Add.op();
    let _ = PrefixedNumeric::I32TruncSatF32S.op();
    let _ = Aggregate::ArrayLen.op();
    let _ = Atomic::AtomicFence(Ordering::SeqCst).op();
    let _ = Vector::I8x16Swizzle.op();
    let _ = VectorImmediate::V128Const(1).op();
}

pub fn bits() {
    let _ = Ieee32::new(1).bits();
    let _ = Ieee64::new(1).bits();
}

pub fn control<A: Allocator + Copy>(alloc: A) -> Result<()> {
    let mut bytes = Vec::new(alloc);
    let mut sink = InstructionSink::new(&mut bytes);
    sink.op(Op::Byte(0x01))?;
    sink.unreachable()?;
    sink.nop()?;
    sink.loop_(BlockType::Empty)?;
    sink.else_()?;
    sink.br(0)?;
    Ok(())
}

pub fn other_calls<A: Allocator + Copy>(alloc: A) -> Result<()> {
    let mut bytes = Vec::new(alloc);
    let mut sink = InstructionSink::new(&mut bytes);
    sink.typed_select(ValType::I32)?;
    sink.typed_select_multi(&[ValType::I32])?;
    sink.memory_size(0)?;
    sink.memory_grow(0)?;
    sink.ref_is_null()?;
    Ok(())
}
