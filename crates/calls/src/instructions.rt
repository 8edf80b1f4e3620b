//! Callers of the sink: the contracts state each byte that they append.
ghost use Rattle.std.specs.Prelude.{◌≡◌, [], ◌∷◌, ◌++◌, IfOk, OnOk, OnErr};

use std::alloc::Allocator;
use wasm_base::Result;
use wasm_insn::{BlockType, Buffer, InstructionSink};

/// Appends the sum of two locals, to any buffer.
#[tactic(auto, using(crate::proofs::OneByte::one_byte))]
pub fn sum<B: Buffer>(sink: &mut InstructionSink<'_, B>) -> Result<()>
    ensures same_reference { sink.new.sink.ghost_name ≡ sink.old.sink.ghost_name }
    ensures bytes { OnOk result (B.written sink.new.sink.now ≡ B.written sink.old.sink.now ++ 0x20 ∷ 0 ∷ 0x20 ∷ 1 ∷ 0x6A ∷ []) }
{
    sink.local_get(0)?;
    sink.local_get(1)?;
    sink.i32_add()
}

/// Appends the body of a function of two numbers.
#[tactic(auto, using(crate::proofs::OneByte::one_byte))]
pub fn append_sum<A: Allocator>(bytes: &mut Vec<u8, A>) -> Result<()>
    ensures { OnOk result (bytes.new.items ≡ bytes.old.items ++ 0x20 ∷ 0 ∷ 0x20 ∷ 1 ∷ 0x6A ∷ 0x0B ∷ []) }
{
    let mut sink = InstructionSink::new(bytes);
    sum(&mut sink)?;
    sink.end()
}

/// Returns a block, in bytes of their own.
#[tactic(auto, using(crate::proofs::OneByte::one_byte))]
pub fn block<A: Allocator>(alloc: A) -> Result<Vec<u8, A>>
    ensures { IfOk result (λ bytes. bytes.items ≡ 0x02 ∷ 0x40 ∷ 0x01 ∷ 0x0B ∷ []) }
{
    let mut bytes = Vec::new(alloc);
    let mut sink = InstructionSink::new(&mut bytes);
    sink.block(BlockType::Empty)?;
    sink.nop()?;
    sink.end()?;
    Ok(bytes)
}

/// Appends `End`. On an error, the bytes are unchanged.
#[tactic(auto, using(crate::proofs::OneByte::one_byte))]
pub fn append_end<A: Allocator>(bytes: &mut Vec<u8, A>) -> Result<()>
    ensures ok { OnOk result (bytes.new.items ≡ bytes.old.items ++ 0x0B ∷ []) }
    ensures err { OnErr result (bytes.new.items ≡ bytes.old.items) }
{
    InstructionSink::new(bytes).end()
}

/// Appends a call through a table. The encoding has the index of the type, and then that of the
/// table.
#[tactic(auto, using(crate::proofs::OneByte::one_byte))]
pub fn append_call<A: Allocator>(bytes: &mut Vec<u8, A>) -> Result<()>
    ensures { OnOk result (bytes.new.items ≡ bytes.old.items ++ 0x11 ∷ 1 ∷ 2 ∷ []) }
{
    InstructionSink::new(bytes).call_indirect(2, 1)
}
