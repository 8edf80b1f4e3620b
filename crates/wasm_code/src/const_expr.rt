// Constant expressions: the initializers of globals, tables and segments.
ghost use Rattle.std.specs.Prelude.{◌≡◌, ◌≢◌, ◌<◌, ℕ, List, [], ◌++◌, IfOk, ⊤};
ghost use Rattle.std.specs.Iterator.{Drains, IsFinite};
ghost use Rattle.wasm_base.specs.Calls.{DecodesBack};
ghost use Rattle.wasm_base.specs.declared.refused.Refused.TheVariants.{TooLong};
ghost use Rattle.wasm_base.specs.Encodings.{optional_encoding};
ghost use Rattle.wasm_code.specs.Expressions.{expression, expression_encoding, StoresInstructions, instruction_of, first_encoding, Stores, StoresGiven, AppendsEach, IsRefFunc};

use crate::expression::END;
use crate::first::First;
use crate::function::append_all;
use std::alloc::{Allocator, Global};
use std::marker::Model;
use wasm_base::{Encode, HeapType, Optional, Result, read_groups};
use wasm_insn::{Ieee32, Ieee64, Instruction, InstructionSink, Numeric, VectorImmediate};

/// A constant expression, modelled as its stored bytes: the instructions without the `End` that
/// follows them in the encoding.
///
/// A single instruction of `global_get`, `ref_null`, `ref_func`, `i32_const`, `i64_const`,
/// `f32_const` or `f64_const` is kept as a value, without an allocation, as tests show. All others
/// are kept as bytes.
///
/// # Errors
///
/// Calls return `Memory` if an allocation fails. Only `extended` can return `TooLong`: if a list in
/// an instruction is too long. A call that consumes an expression drops it on an error.
#[derive(Drop, Debug)]
pub struct ConstExpr<A: Allocator = Global> {
    first: Option<First>,
    bytes: Vec<u8, A>,
}

impl<A: Allocator> Model for ConstExpr<A> {
    ghost Value = { List ℕ };

    ghost view = { λ e. optional_encoding first_encoding e.first ++ e.bytes.items };
}

/// The length of `V128Const` in bytes.
const VECTOR_BYTES: usize = 18;

impl<A: Allocator> ConstExpr<A> {
    /// Returns an expression without instructions, and allocates nothing.
    pub fn empty(alloc: A) -> Self
        ensures { result ≡ [] }
    {
        ConstExpr {
            first: None,
            bytes: Vec::new(alloc),
        }
    }

    /// Returns the expression of these bytes, which should encode instructions. The call does not
    /// check that.
    pub fn raw<I: IntoIterator<Item = u8>>(alloc: A, bytes: I) -> Result<Self>
    where
        I::IntoIter: Drop,
        requires { (it : I.IntoIter) → I.into_iter_gives bytes it → I.IntoIter.can_next it × IsFinite (I.IntoIter.remaining it) }
        ensures ok { IfOk result (λ e. (it : I.IntoIter) × (xs : List ℕ)
            × I.into_iter_gives bytes it
            × Drains I.IntoIter.next_gives it xs
            × (e ≡ xs)) }
        ensures memory { result ≢ Err TooLong }
    {
        let mut stored = Vec::new(alloc);
        append_all(&mut stored, bytes)?;
        Ok(ConstExpr::stored(stored))
    }

    /// Returns the expression of the instructions, one after another.
    pub fn extended<'i, I: IntoIterator<Item = Instruction<'i>>>(
        alloc: A,
        instructions: I,
    ) -> Result<Self>
    where
        I::IntoIter: Drop,
        requires { (it : I.IntoIter) → I.into_iter_gives instructions it → I.IntoIter.can_next it × IsFinite (I.IntoIter.remaining it) }
        ensures { StoresGiven I.into_iter_gives I.IntoIter.next_gives instructions result }
    {
        let mut bytes = Vec::new(alloc);
        encode_each(instructions, &mut bytes)?;
        Ok(ConstExpr { first: None, bytes })
    }

    /// Returns the expression whose stored bytes these are, and allocates nothing.
    pub(crate) fn stored(bytes: Vec<u8, A>) -> Self
        ensures { result ≡ bytes.items }
    {
        ConstExpr { first: None, bytes }
    }

    /// Returns the expression of the instruction alone, and allocates nothing.
    #[inline]
    pub(crate) fn of(alloc: A, first: First) -> Self
        ensures { Stores (instruction_of first) [] result }
    {
        let bytes = Vec::new(alloc);
        ConstExpr {
            first: Some(first),
            bytes,
        }
    }

    /// Returns the expression of `GlobalGet` alone.
    #[inline]
    pub fn global_get(alloc: A, index: u32) -> Result<Self>
        ensures stores { IfOk result (Stores (Instruction.GlobalGet index) []) }
        ensures memory { result ≢ Err TooLong }
    {
        Ok(ConstExpr::of(alloc, First::GlobalGet(index)))
    }

    /// Returns the expression of `RefNull` alone.
    #[inline]
    pub fn ref_null(alloc: A, ty: HeapType) -> Result<Self>
        ensures stores { IfOk result (Stores (Instruction.RefNull ty) []) }
        ensures memory { result ≢ Err TooLong }
    {
        Ok(ConstExpr::of(alloc, First::RefNull(ty)))
    }

    /// Returns the expression of `RefFunc` alone.
    #[inline]
    pub fn ref_func(alloc: A, function_index: u32) -> Result<Self>
        ensures stores { IfOk result (Stores (Instruction.RefFunc function_index) []) }
        ensures memory { result ≢ Err TooLong }
    {
        Ok(ConstExpr::of(alloc, First::RefFunc(function_index)))
    }

    /// Returns the expression of `I32Const` alone.
    #[inline]
    pub fn i32_const(alloc: A, value: i32) -> Result<Self>
        ensures stores { IfOk result (Stores (Instruction.I32Const value) []) }
        ensures memory { result ≢ Err TooLong }
    {
        Ok(ConstExpr::of(alloc, First::I32Const(value)))
    }

    /// Returns the expression of `I64Const` alone.
    #[inline]
    pub fn i64_const(alloc: A, value: i64) -> Result<Self>
        ensures stores { IfOk result (Stores (Instruction.I64Const value) []) }
        ensures memory { result ≢ Err TooLong }
    {
        Ok(ConstExpr::of(alloc, First::I64Const(value)))
    }

    /// Returns the expression of `F32Const` alone.
    #[inline]
    pub fn f32_const(alloc: A, value: Ieee32) -> Result<Self>
        ensures stores { IfOk result (Stores (Instruction.F32Const value) []) }
        ensures memory { result ≢ Err TooLong }
    {
        Ok(ConstExpr::of(alloc, First::F32Const(value)))
    }

    /// Returns the expression of `F64Const` alone.
    #[inline]
    pub fn f64_const(alloc: A, value: Ieee64) -> Result<Self>
        ensures stores { IfOk result (Stores (Instruction.F64Const value) []) }
        ensures memory { result ≢ Err TooLong }
    {
        Ok(ConstExpr::of(alloc, First::F64Const(value)))
    }

    /// Returns the expression of `V128Const` alone.
    pub fn v128_const(alloc: A, value: i128) -> Result<Self>
        ensures stores { IfOk result (Stores (Instruction.VectorImmediate (VectorImmediate.V128Const value)) []) }
        ensures memory { result ≢ Err TooLong }
    {
        let bytes = Vec::with_capacity(alloc, VECTOR_BYTES)?;
        ConstExpr::stored(bytes).with_v128_const(value)
    }

    /// Appends `GlobalGet` to the expression.
    #[inline]
    pub fn with_global_get(mut self, index: u32) -> Result<Self>
        ensures stores { IfOk result (Stores (Instruction.GlobalGet index) self) }
        ensures memory { result ≢ Err TooLong }
    {
        InstructionSink::new(&mut self.bytes).global_get(index)?;
        Ok(self)
    }

    /// Appends `RefNull` to the expression.
    #[inline]
    pub fn with_ref_null(mut self, ty: HeapType) -> Result<Self>
        ensures stores { IfOk result (Stores (Instruction.RefNull ty) self) }
        ensures memory { result ≢ Err TooLong }
    {
        InstructionSink::new(&mut self.bytes).ref_null(ty)?;
        Ok(self)
    }

    /// Appends `RefFunc` to the expression.
    #[inline]
    pub fn with_ref_func(mut self, function_index: u32) -> Result<Self>
        ensures stores { IfOk result (Stores (Instruction.RefFunc function_index) self) }
        ensures memory { result ≢ Err TooLong }
    {
        InstructionSink::new(&mut self.bytes).ref_func(function_index)?;
        Ok(self)
    }

    /// Appends `I32Const` to the expression.
    #[inline]
    pub fn with_i32_const(mut self, value: i32) -> Result<Self>
        ensures stores { IfOk result (Stores (Instruction.I32Const value) self) }
        ensures memory { result ≢ Err TooLong }
    {
        InstructionSink::new(&mut self.bytes).i32_const(value)?;
        Ok(self)
    }

    /// Appends `I64Const` to the expression.
    #[inline]
    pub fn with_i64_const(mut self, value: i64) -> Result<Self>
        ensures stores { IfOk result (Stores (Instruction.I64Const value) self) }
        ensures memory { result ≢ Err TooLong }
    {
        InstructionSink::new(&mut self.bytes).i64_const(value)?;
        Ok(self)
    }

    /// Appends `F32Const` to the expression.
    #[inline]
    pub fn with_f32_const(mut self, value: Ieee32) -> Result<Self>
        ensures stores { IfOk result (Stores (Instruction.F32Const value) self) }
        ensures memory { result ≢ Err TooLong }
    {
        InstructionSink::new(&mut self.bytes).f32_const(value)?;
        Ok(self)
    }

    /// Appends `F64Const` to the expression.
    #[inline]
    pub fn with_f64_const(mut self, value: Ieee64) -> Result<Self>
        ensures stores { IfOk result (Stores (Instruction.F64Const value) self) }
        ensures memory { result ≢ Err TooLong }
    {
        InstructionSink::new(&mut self.bytes).f64_const(value)?;
        Ok(self)
    }

    /// Appends `V128Const` to the expression.
    #[inline]
    pub fn with_v128_const(mut self, value: i128) -> Result<Self>
        ensures stores { IfOk result (Stores (Instruction.VectorImmediate (VectorImmediate.V128Const value)) self) }
        ensures memory { result ≢ Err TooLong }
    {
        InstructionSink::new(&mut self.bytes).v128_const(value)?;
        Ok(self)
    }

    /// Appends `I32Add` to the expression.
    #[inline]
    pub fn with_i32_add(mut self) -> Result<Self>
        ensures stores { IfOk result (Stores (Instruction.Numeric Numeric.I32Add) self) }
        ensures memory { result ≢ Err TooLong }
    {
        InstructionSink::new(&mut self.bytes).i32_add()?;
        Ok(self)
    }

    /// Appends `I32Sub` to the expression.
    #[inline]
    pub fn with_i32_sub(mut self) -> Result<Self>
        ensures stores { IfOk result (Stores (Instruction.Numeric Numeric.I32Sub) self) }
        ensures memory { result ≢ Err TooLong }
    {
        InstructionSink::new(&mut self.bytes).i32_sub()?;
        Ok(self)
    }

    /// Appends `I32Mul` to the expression.
    #[inline]
    pub fn with_i32_mul(mut self) -> Result<Self>
        ensures stores { IfOk result (Stores (Instruction.Numeric Numeric.I32Mul) self) }
        ensures memory { result ≢ Err TooLong }
    {
        InstructionSink::new(&mut self.bytes).i32_mul()?;
        Ok(self)
    }

    /// Appends `I64Add` to the expression.
    #[inline]
    pub fn with_i64_add(mut self) -> Result<Self>
        ensures stores { IfOk result (Stores (Instruction.Numeric Numeric.I64Add) self) }
        ensures memory { result ≢ Err TooLong }
    {
        InstructionSink::new(&mut self.bytes).i64_add()?;
        Ok(self)
    }

    /// Appends `I64Sub` to the expression.
    #[inline]
    pub fn with_i64_sub(mut self) -> Result<Self>
        ensures stores { IfOk result (Stores (Instruction.Numeric Numeric.I64Sub) self) }
        ensures memory { result ≢ Err TooLong }
    {
        InstructionSink::new(&mut self.bytes).i64_sub()?;
        Ok(self)
    }

    /// Appends `I64Mul` to the expression.
    #[inline]
    pub fn with_i64_mul(mut self) -> Result<Self>
        ensures stores { IfOk result (Stores (Instruction.Numeric Numeric.I64Mul) self) }
        ensures memory { result ≢ Err TooLong }
    {
        InstructionSink::new(&mut self.bytes).i64_mul()?;
        Ok(self)
    }

    /// Returns the index of `RefFunc` if the expression begins with it, and `None` otherwise.
    #[tactic(auto, using(crate::proofs::RefFuncLaws::first_index))]
    pub fn get_ref_func(&self) -> Option<u32>
        ensures { IsRefFunc self.now result }
    {
        match self.first {
            Some(first) => first.function_index(),
            None => function_at_front(&self.bytes),
        }
    }
}

/// Returns the index of `RefFunc` if the bytes begin with it, and `None` otherwise.
#[tactic(auto, using(crate::proofs::RefFuncLaws::ref_func_steps))]
pub(crate) fn function_at_front(bytes: &[u8]) -> Option<u32>
    ensures { IsRefFunc bytes.now result }
{
    let [op, rest @ ..] = bytes else {
        return None;
    };
    if *op != 0xD2 {
        return None;
    }
    let Ok((index, _)) = read_groups(rest, 5) else {
        return None;
    };
    if index.sum < 1 << 32 {
        Some(index.sum as u32)
    } else {
        None
    }
}

/// Appends the encodings of the elements. After an error, some of them may be in the sink.
fn encode_each<T: Encode + Drop, I: IntoIterator<Item = T>, A: Allocator>(
    elements: I,
    sink: &mut Vec<u8, A>,
) -> Result<()>
where
    I::IntoIter: Drop,
    requires { (it : I.IntoIter) → I.into_iter_gives elements it → I.IntoIter.can_next it × IsFinite (I.IntoIter.remaining it) }
    ensures { AppendsEach I.into_iter_gives I.IntoIter.next_gives T.encodable T.encoding elements sink.old.items sink.new.items result }
{
    for element in elements {
        element.encode(sink)?;
    }
    Ok(())
}

impl<A: Allocator + Copy> ConstExpr<A> {
    /// Returns a copy of the expression in newly allocated memory.
    pub fn clone(&self) -> Result<Self>
        ensures same { IfOk result (λ e. e ≡ self.now) }
        ensures memory { result ≢ Err TooLong }
    {
        let alloc = *self.bytes.allocator();
        Ok(ConstExpr {
            first: self.first,
            bytes: Vec::from_slice(alloc, &self.bytes)?,
        })
    }
}

/// Stored bytes as a component of an encoding.
#[derive(Drop)]
pub(crate) struct Stored<'a>(pub(crate) &'a [u8]);

/// Encodes the bytes as they are.
impl Encode for Stored<'_> {
    ghost encoding = { λ stored. stored.0.now };

    ghost encodable = { λ _. ⊤ };

    #[inline]
    fn encode<A: Allocator>(&self, sink: &mut Vec<u8, A>) -> Result<()> {
        sink.extend_from_slice(self.0)?;
        Ok(())
    }
}

/// Encodes the stored bytes, and `End`.
impl<A: Allocator> Encode for ConstExpr<A> {
    ghost encoding = { expression_encoding };

    ghost encodable = { λ _. ⊤ };

    ghost decoding = { λ e. DecodesBack expression (StoresInstructions e) (expression_encoding e) };

    #[tactic(auto, using(crate::proofs::ExpressionLaws::expression_decodes))]
    #[inline]
    fn encode<B: Allocator>(&self, sink: &mut Vec<u8, B>) -> Result<()> {
        (Optional(self.first), Stored(&self.bytes), END).encode(sink)
    }
}
