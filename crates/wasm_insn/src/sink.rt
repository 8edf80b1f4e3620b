// The instruction sink: a method for each common instruction, which appends it to a buffer.
ghost use Rattle.std.specs.Prelude.{◌≡◌, ℕ, ◌+◌, ◌≤◌, List, length, vec_len, vec_capacity, ⊤};
ghost use Rattle.wasm_base.specs.Iterators.{HasKnownLength};
ghost use Rattle.wasm_insn.specs.Opcodes.{op_encoding};
ghost use Rattle.wasm_insn.specs.Sink.{Writes, WritesVec, WritesInstruction, WritesLabels};

use crate::instruction::Instruction;
use crate::numeric::Numeric;
use crate::op::Op;
use crate::vector_immediate::{VectorImmediate, vector_bytes};
use std::alloc::Allocator;
use std::slice;
use wasm_base::{CowSlice, Encode, HeapType, Refused, Result, ValType, encode_vec};
use wasm_immediates::{BlockType, Ieee32, Ieee64, MemArg};

/// A buffer to which instructions are appended.
pub trait Buffer {
    /// `written`: the bytes in the buffer.
    ghost written: { Self → List ℕ };

    /// `has_spare_capacity`: the buffer has spare capacity for this many bytes. A buffer may leave
    /// this unspecified.
    ghost has_spare_capacity: { Self → ℕ → Type 0 } = { λ _ _. ⊥ };

    /// Appends the encoding of the value.
    ///
    /// # Errors
    ///
    /// Returns [`Refused`], and leaves the bytes unchanged, if the value does not fit or an
    /// allocation fails.
    fn append<E: Encode>(&mut self, value: &E) -> Result<()>
        ensures { Writes (E.encoding value.now) (E.encodable value.now) (has_spare_capacity self.old (length (E.encoding value.now))) (written self.old) (written self.new) result };

    /// Appends a value, the elements as a vector, and another value.
    ///
    /// # Errors
    ///
    /// Returns [`Refused`], and leaves the bytes unchanged, if a value does not fit or an
    /// allocation fails. If the length that the elements report exceeds 4294967295, the call
    /// returns `TooLong`; a `Vec` then requests no element, as tests show.
    fn append_vec<S: Encode, T: Encode + Drop, V: IntoIterator<Item = T>, U: Encode>(
        &mut self,
        before: &S,
        elements: V,
        after: &U,
    ) -> Result<()>
    where
        V::IntoIter: ExactSizeIterator + Drop,
        requires { HasKnownLength V.into_iter_gives V.IntoIter.can_next V.IntoIter.next_gives V.IntoIter.remaining elements }
        ensures { WritesVec V.into_iter_gives V.IntoIter.next_gives V.IntoIter.remaining T.encodable T.encoding elements (S.encodable before.now × U.encodable after.now) (S.encoding before.now) (U.encoding after.now) (written self.old) (written self.new) result };
}

/// Appends to the vector itself.
impl<A: Allocator> Buffer for Vec<u8, A> {
    ghost written = { λ bytes. bytes.items };

    ghost has_spare_capacity = { λ bytes n. vec_len bytes + n ≤ vec_capacity bytes };

    fn append<E: Encode>(&mut self, value: &E) -> Result<()> {
        value.encode(self)
    }

    fn append_vec<S: Encode, T: Encode + Drop, V: IntoIterator<Item = T>, U: Encode>(
        &mut self,
        before: &S,
        elements: V,
        after: &U,
    ) -> Result<()>
    where
        V::IntoIter: ExactSizeIterator + Drop,
    {
        let elements = elements.into_iter();
        if u32::try_from(elements.len()).is_err() {
            return Err(Refused::TooLong);
        }
        let start = self.len();
        before.encode(self)?;
        if let Err(refused) = encode_vec(elements, self) {
            self.truncate(start);
            return Err(refused);
        }
        if let Err(refused) = after.encode(self) {
            self.truncate(start);
            return Err(refused);
        }
        Ok(())
    }
}

/// Appends instructions to a buffer that it borrows.
///
/// # Errors
///
/// A call that fails leaves the buffer's bytes unchanged. The error is `TooLong` only if a list is
/// too long.
#[derive(Drop)]
pub struct InstructionSink<'a, B: Buffer> {
    sink: &'a mut B,
}

impl<'a, B: Buffer> InstructionSink<'a, B> {
    /// Returns a sink that appends to `sink`.
    pub fn new(sink: &'a mut B) -> Self
        ensures same_reference { result.sink.ghost_name ≡ sink.entry.ghost_name }
        ensures same { result.sink.now ≡ sink.old }
    {
        InstructionSink { sink }
    }

    /// Appends one encoded instruction. All appending methods except `br_table` call it.
    fn emit<E: Encode>(&mut self, value: &E) -> Result<()>
        ensures same_reference { self.new.sink.ghost_name ≡ self.old.sink.ghost_name }
        ensures writes { Writes (E.encoding value.now) (E.encodable value.now) (B.has_spare_capacity self.old.sink.now (length (E.encoding value.now))) (B.written self.old.sink.now) (B.written self.new.sink.now) result }
    {
        self.sink.append(value)
    }

    /// Appends an opcode.
    pub fn op(&mut self, op: Op) -> Result<()>
        ensures same_reference { self.new.sink.ghost_name ≡ self.old.sink.ghost_name }
        ensures writes { Writes (op_encoding op) ⊤ (B.has_spare_capacity self.old.sink.now (length (op_encoding op))) (B.written self.old.sink.now) (B.written self.new.sink.now) result }
    {
        self.emit(&op)
    }

    /// Appends the encoding of `Unreachable`.
    pub fn unreachable(&mut self) -> Result<()>
        ensures same_reference { self.new.sink.ghost_name ≡ self.old.sink.ghost_name }
        ensures writes { WritesInstruction B.written B.has_spare_capacity Instruction.Unreachable self.old.sink.now self.new.sink.now result }
    {
        self.emit(&0x00u8)
    }

    /// Appends the encoding of `Nop`.
    pub fn nop(&mut self) -> Result<()>
        ensures same_reference { self.new.sink.ghost_name ≡ self.old.sink.ghost_name }
        ensures writes { WritesInstruction B.written B.has_spare_capacity Instruction.Nop self.old.sink.now self.new.sink.now result }
    {
        self.emit(&0x01u8)
    }

    /// Appends the encoding of `Block`.
    pub fn block(&mut self, block_type: BlockType) -> Result<()>
        ensures same_reference { self.new.sink.ghost_name ≡ self.old.sink.ghost_name }
        ensures writes { WritesInstruction B.written B.has_spare_capacity (Instruction.Block block_type) self.old.sink.now self.new.sink.now result }
    {
        self.emit(&(0x02u8, block_type))
    }

    /// Appends the encoding of `Loop`.
    pub fn loop_(&mut self, block_type: BlockType) -> Result<()>
        ensures same_reference { self.new.sink.ghost_name ≡ self.old.sink.ghost_name }
        ensures writes { WritesInstruction B.written B.has_spare_capacity (Instruction.Loop block_type) self.old.sink.now self.new.sink.now result }
    {
        self.emit(&(0x03u8, block_type))
    }

    /// Appends the encoding of `If`.
    pub fn if_(&mut self, block_type: BlockType) -> Result<()>
        ensures same_reference { self.new.sink.ghost_name ≡ self.old.sink.ghost_name }
        ensures writes { WritesInstruction B.written B.has_spare_capacity (Instruction.If block_type) self.old.sink.now self.new.sink.now result }
    {
        self.emit(&(0x04u8, block_type))
    }

    /// Appends the encoding of `Else`.
    pub fn else_(&mut self) -> Result<()>
        ensures same_reference { self.new.sink.ghost_name ≡ self.old.sink.ghost_name }
        ensures writes { WritesInstruction B.written B.has_spare_capacity Instruction.Else self.old.sink.now self.new.sink.now result }
    {
        self.emit(&0x05u8)
    }

    /// Appends the encoding of `End`.
    pub fn end(&mut self) -> Result<()>
        ensures same_reference { self.new.sink.ghost_name ≡ self.old.sink.ghost_name }
        ensures writes { WritesInstruction B.written B.has_spare_capacity Instruction.End self.old.sink.now self.new.sink.now result }
    {
        self.emit(&0x0Bu8)
    }

    /// Appends the encoding of `Br`.
    pub fn br(&mut self, label: u32) -> Result<()>
        ensures same_reference { self.new.sink.ghost_name ≡ self.old.sink.ghost_name }
        ensures writes { WritesInstruction B.written B.has_spare_capacity (Instruction.Br label) self.old.sink.now self.new.sink.now result }
    {
        self.emit(&(0x0Cu8, label))
    }

    /// Appends the encoding of `BrIf`.
    pub fn br_if(&mut self, label: u32) -> Result<()>
        ensures same_reference { self.new.sink.ghost_name ≡ self.old.sink.ghost_name }
        ensures writes { WritesInstruction B.written B.has_spare_capacity (Instruction.BrIf label) self.old.sink.now self.new.sink.now result }
    {
        self.emit(&(0x0Du8, label))
    }

    /// Appends the encoding of `BrTable`, with these labels and this default label.
    pub fn br_table<V: IntoIterator<Item = u32>>(&mut self, labels: V, default: u32) -> Result<()>
    where
        V::IntoIter: ExactSizeIterator + Drop,
        requires { HasKnownLength V.into_iter_gives V.IntoIter.can_next V.IntoIter.next_gives V.IntoIter.remaining labels }
        ensures same_reference { self.new.sink.ghost_name ≡ self.old.sink.ghost_name }
        ensures writes { WritesLabels V.into_iter_gives V.IntoIter.next_gives V.IntoIter.remaining labels default (B.written self.old.sink.now) (B.written self.new.sink.now) result }
    {
        self.sink.append_vec(&0x0Eu8, labels, &default)
    }

    /// Appends the encoding of `Return`.
    pub fn return_(&mut self) -> Result<()>
        ensures same_reference { self.new.sink.ghost_name ≡ self.old.sink.ghost_name }
        ensures writes { WritesInstruction B.written B.has_spare_capacity Instruction.Return self.old.sink.now self.new.sink.now result }
    {
        self.emit(&0x0Fu8)
    }

    /// Appends the encoding of `Call`.
    pub fn call(&mut self, function_index: u32) -> Result<()>
        ensures same_reference { self.new.sink.ghost_name ≡ self.old.sink.ghost_name }
        ensures writes { WritesInstruction B.written B.has_spare_capacity (Instruction.Call function_index) self.old.sink.now self.new.sink.now result }
    {
        self.emit(&(0x10u8, function_index))
    }

    /// Appends the encoding of `CallIndirect`.
    pub fn call_indirect(&mut self, table_index: u32, type_index: u32) -> Result<()>
        ensures same_reference { self.new.sink.ghost_name ≡ self.old.sink.ghost_name }
        ensures writes { WritesInstruction B.written B.has_spare_capacity (Instruction.CallIndirect type_index table_index) self.old.sink.now self.new.sink.now result }
    {
        self.emit(&(0x11u8, type_index, table_index))
    }

    /// Appends the encoding of `Drop`.
    pub fn drop_(&mut self) -> Result<()>
        ensures same_reference { self.new.sink.ghost_name ≡ self.old.sink.ghost_name }
        ensures writes { WritesInstruction B.written B.has_spare_capacity Instruction.Drop self.old.sink.now self.new.sink.now result }
    {
        self.emit(&0x1Au8)
    }

    /// Appends the encoding of `Select`.
    pub fn select(&mut self) -> Result<()>
        ensures same_reference { self.new.sink.ghost_name ≡ self.old.sink.ghost_name }
        ensures writes { WritesInstruction B.written B.has_spare_capacity Instruction.Select self.old.sink.now self.new.sink.now result }
    {
        self.emit(&0x1Bu8)
    }

    /// Appends the encoding of `TypedSelect`.
    pub fn typed_select(&mut self, ty: ValType) -> Result<()>
        ensures same_reference { self.new.sink.ghost_name ≡ self.old.sink.ghost_name }
        ensures writes { WritesInstruction B.written B.has_spare_capacity (Instruction.TypedSelect ty) self.old.sink.now self.new.sink.now result }
    {
        self.emit(&(0x1Cu8, slice::from_ref(&ty)))
    }

    /// Appends the encoding of `TypedSelectMulti`.
    pub fn typed_select_multi(&mut self, types: &[ValType]) -> Result<()>
        ensures same_reference { self.new.sink.ghost_name ≡ self.old.sink.ghost_name }
        ensures writes { WritesInstruction B.written B.has_spare_capacity (Instruction.TypedSelectMulti (CowSlice.Borrowed types.entry)) self.old.sink.now self.new.sink.now result }
    {
        self.emit(&(0x1Cu8, types))
    }

    /// Appends the encoding of `LocalGet`.
    pub fn local_get(&mut self, index: u32) -> Result<()>
        ensures same_reference { self.new.sink.ghost_name ≡ self.old.sink.ghost_name }
        ensures writes { WritesInstruction B.written B.has_spare_capacity (Instruction.LocalGet index) self.old.sink.now self.new.sink.now result }
    {
        self.emit(&(0x20u8, index))
    }

    /// Appends the encoding of `LocalSet`.
    pub fn local_set(&mut self, index: u32) -> Result<()>
        ensures same_reference { self.new.sink.ghost_name ≡ self.old.sink.ghost_name }
        ensures writes { WritesInstruction B.written B.has_spare_capacity (Instruction.LocalSet index) self.old.sink.now self.new.sink.now result }
    {
        self.emit(&(0x21u8, index))
    }

    /// Appends the encoding of `LocalTee`.
    pub fn local_tee(&mut self, index: u32) -> Result<()>
        ensures same_reference { self.new.sink.ghost_name ≡ self.old.sink.ghost_name }
        ensures writes { WritesInstruction B.written B.has_spare_capacity (Instruction.LocalTee index) self.old.sink.now self.new.sink.now result }
    {
        self.emit(&(0x22u8, index))
    }

    /// Appends the encoding of `GlobalGet`.
    pub fn global_get(&mut self, index: u32) -> Result<()>
        ensures same_reference { self.new.sink.ghost_name ≡ self.old.sink.ghost_name }
        ensures writes { WritesInstruction B.written B.has_spare_capacity (Instruction.GlobalGet index) self.old.sink.now self.new.sink.now result }
    {
        self.emit(&(0x23u8, index))
    }

    /// Appends the encoding of `GlobalSet`.
    pub fn global_set(&mut self, index: u32) -> Result<()>
        ensures same_reference { self.new.sink.ghost_name ≡ self.old.sink.ghost_name }
        ensures writes { WritesInstruction B.written B.has_spare_capacity (Instruction.GlobalSet index) self.old.sink.now self.new.sink.now result }
    {
        self.emit(&(0x24u8, index))
    }

    /// Appends the encoding of `I32Load`.
    pub fn i32_load(&mut self, memarg: MemArg) -> Result<()>
        ensures same_reference { self.new.sink.ghost_name ≡ self.old.sink.ghost_name }
        ensures writes { WritesInstruction B.written B.has_spare_capacity (Instruction.I32Load memarg) self.old.sink.now self.new.sink.now result }
    {
        self.emit(&(0x28u8, memarg))
    }

    /// Appends the encoding of `I32Store`.
    pub fn i32_store(&mut self, memarg: MemArg) -> Result<()>
        ensures same_reference { self.new.sink.ghost_name ≡ self.old.sink.ghost_name }
        ensures writes { WritesInstruction B.written B.has_spare_capacity (Instruction.I32Store memarg) self.old.sink.now self.new.sink.now result }
    {
        self.emit(&(0x36u8, memarg))
    }

    /// Appends the encoding of `MemorySize`.
    pub fn memory_size(&mut self, memory: u32) -> Result<()>
        ensures same_reference { self.new.sink.ghost_name ≡ self.old.sink.ghost_name }
        ensures writes { WritesInstruction B.written B.has_spare_capacity (Instruction.MemorySize memory) self.old.sink.now self.new.sink.now result }
    {
        self.emit(&(0x3Fu8, memory))
    }

    /// Appends the encoding of `MemoryGrow`.
    pub fn memory_grow(&mut self, memory: u32) -> Result<()>
        ensures same_reference { self.new.sink.ghost_name ≡ self.old.sink.ghost_name }
        ensures writes { WritesInstruction B.written B.has_spare_capacity (Instruction.MemoryGrow memory) self.old.sink.now self.new.sink.now result }
    {
        self.emit(&(0x40u8, memory))
    }

    /// Appends the encoding of `I32Const`.
    pub fn i32_const(&mut self, value: i32) -> Result<()>
        ensures same_reference { self.new.sink.ghost_name ≡ self.old.sink.ghost_name }
        ensures writes { WritesInstruction B.written B.has_spare_capacity (Instruction.I32Const value) self.old.sink.now self.new.sink.now result }
    {
        self.emit(&(0x41u8, value))
    }

    /// Appends the encoding of `I64Const`.
    pub fn i64_const(&mut self, value: i64) -> Result<()>
        ensures same_reference { self.new.sink.ghost_name ≡ self.old.sink.ghost_name }
        ensures writes { WritesInstruction B.written B.has_spare_capacity (Instruction.I64Const value) self.old.sink.now self.new.sink.now result }
    {
        self.emit(&(0x42u8, value))
    }

    /// Appends the encoding of `F32Const`.
    pub fn f32_const(&mut self, value: Ieee32) -> Result<()>
        ensures same_reference { self.new.sink.ghost_name ≡ self.old.sink.ghost_name }
        ensures writes { WritesInstruction B.written B.has_spare_capacity (Instruction.F32Const value) self.old.sink.now self.new.sink.now result }
    {
        self.emit(&(0x43u8, value))
    }

    /// Appends the encoding of `F64Const`.
    pub fn f64_const(&mut self, value: Ieee64) -> Result<()>
        ensures same_reference { self.new.sink.ghost_name ≡ self.old.sink.ghost_name }
        ensures writes { WritesInstruction B.written B.has_spare_capacity (Instruction.F64Const value) self.old.sink.now self.new.sink.now result }
    {
        self.emit(&(0x44u8, value))
    }

    /// Appends the encoding of `V128Const`.
    pub fn v128_const(&mut self, value: i128) -> Result<()>
        ensures same_reference { self.new.sink.ghost_name ≡ self.old.sink.ghost_name }
        ensures writes { WritesInstruction B.written B.has_spare_capacity (Instruction.VectorImmediate (VectorImmediate.V128Const value)) self.old.sink.now self.new.sink.now result }
    {
        self.emit(&(0xFDu8, 12u32, vector_bytes(value)))
    }

    /// Appends the encoding of `I32Eqz`.
    pub fn i32_eqz(&mut self) -> Result<()>
        ensures same_reference { self.new.sink.ghost_name ≡ self.old.sink.ghost_name }
        ensures writes { WritesInstruction B.written B.has_spare_capacity (Instruction.Numeric Numeric.I32Eqz) self.old.sink.now self.new.sink.now result }
    {
        self.emit(&0x45u8)
    }

    /// Appends the encoding of `I32Add`.
    pub fn i32_add(&mut self) -> Result<()>
        ensures same_reference { self.new.sink.ghost_name ≡ self.old.sink.ghost_name }
        ensures writes { WritesInstruction B.written B.has_spare_capacity (Instruction.Numeric Numeric.I32Add) self.old.sink.now self.new.sink.now result }
    {
        self.emit(&0x6Au8)
    }

    /// Appends the encoding of `I32Sub`.
    pub fn i32_sub(&mut self) -> Result<()>
        ensures same_reference { self.new.sink.ghost_name ≡ self.old.sink.ghost_name }
        ensures writes { WritesInstruction B.written B.has_spare_capacity (Instruction.Numeric Numeric.I32Sub) self.old.sink.now self.new.sink.now result }
    {
        self.emit(&0x6Bu8)
    }

    /// Appends the encoding of `I32Mul`.
    pub fn i32_mul(&mut self) -> Result<()>
        ensures same_reference { self.new.sink.ghost_name ≡ self.old.sink.ghost_name }
        ensures writes { WritesInstruction B.written B.has_spare_capacity (Instruction.Numeric Numeric.I32Mul) self.old.sink.now self.new.sink.now result }
    {
        self.emit(&0x6Cu8)
    }

    /// Appends the encoding of `I64Add`.
    pub fn i64_add(&mut self) -> Result<()>
        ensures same_reference { self.new.sink.ghost_name ≡ self.old.sink.ghost_name }
        ensures writes { WritesInstruction B.written B.has_spare_capacity (Instruction.Numeric Numeric.I64Add) self.old.sink.now self.new.sink.now result }
    {
        self.emit(&0x7Cu8)
    }

    /// Appends the encoding of `I64Sub`.
    pub fn i64_sub(&mut self) -> Result<()>
        ensures same_reference { self.new.sink.ghost_name ≡ self.old.sink.ghost_name }
        ensures writes { WritesInstruction B.written B.has_spare_capacity (Instruction.Numeric Numeric.I64Sub) self.old.sink.now self.new.sink.now result }
    {
        self.emit(&0x7Du8)
    }

    /// Appends the encoding of `I64Mul`.
    pub fn i64_mul(&mut self) -> Result<()>
        ensures same_reference { self.new.sink.ghost_name ≡ self.old.sink.ghost_name }
        ensures writes { WritesInstruction B.written B.has_spare_capacity (Instruction.Numeric Numeric.I64Mul) self.old.sink.now self.new.sink.now result }
    {
        self.emit(&0x7Eu8)
    }

    /// Appends the encoding of `RefNull`.
    pub fn ref_null(&mut self, ty: HeapType) -> Result<()>
        ensures same_reference { self.new.sink.ghost_name ≡ self.old.sink.ghost_name }
        ensures writes { WritesInstruction B.written B.has_spare_capacity (Instruction.RefNull ty) self.old.sink.now self.new.sink.now result }
    {
        self.emit(&(0xD0u8, ty))
    }

    /// Appends the encoding of `RefIsNull`.
    pub fn ref_is_null(&mut self) -> Result<()>
        ensures same_reference { self.new.sink.ghost_name ≡ self.old.sink.ghost_name }
        ensures writes { WritesInstruction B.written B.has_spare_capacity Instruction.RefIsNull self.old.sink.now self.new.sink.now result }
    {
        self.emit(&0xD1u8)
    }

    /// Appends the encoding of `RefFunc`.
    pub fn ref_func(&mut self, function_index: u32) -> Result<()>
        ensures same_reference { self.new.sink.ghost_name ≡ self.old.sink.ghost_name }
        ensures writes { WritesInstruction B.written B.has_spare_capacity (Instruction.RefFunc function_index) self.old.sink.now self.new.sink.now result }
    {
        self.emit(&(0xD2u8, function_index))
    }
}
