// The first instruction of a constant expression, kept as a value.
ghost use Rattle.std.specs.Prelude.{◌≡◌, ◌<◌, ◌^◌, IfSome, ⊤};
ghost use Rattle.wasm_code.specs.Expressions.{first_encoding, index_of};

use std::alloc::Allocator;
use wasm_base::{Encode, HeapType, Result};
use wasm_insn::{Ieee32, Ieee64};

/// An instruction that is usually a whole expression. It is kept as a value and not as bytes: it
/// needs no allocation, and is encoded once, with the expression.
#[derive(Clone, Copy, Debug)]
pub enum First {
    GlobalGet(u32),
    RefNull(HeapType),
    RefFunc(u32),
    I32Const(i32),
    I64Const(i64),
    F32Const(Ieee32),
    F64Const(Ieee64),
}

impl First {
    /// Returns the index of `RefFunc`, or `None` for other instructions.
    pub fn function_index(self) -> Option<u32>
        ensures index { result ≡ index_of self }
        ensures range { IfSome result (λ index. index < 2 ^ 32) }
    {
        match self {
            First::RefFunc(index) => Some(index),
            _ => None,
        }
    }
}

/// Encodes the instruction.
impl Encode for First {
    ghost encoding = { first_encoding };

    ghost encodable = { λ _. ⊤ };

    #[inline]
    fn encode<A: Allocator>(&self, sink: &mut Vec<u8, A>) -> Result<()> {
        match *self {
            First::GlobalGet(index) => (0x23u8, index).encode(sink),
            First::RefNull(ty) => (0xD0u8, ty).encode(sink),
            First::RefFunc(index) => (0xD2u8, index).encode(sink),
            First::I32Const(value) => (0x41u8, value).encode(sink),
            First::I64Const(value) => (0x42u8, value).encode(sink),
            First::F32Const(value) => (0x43u8, value).encode(sink),
            First::F64Const(value) => (0x44u8, value).encode(sink),
        }
    }
}
