// The values of locals and stacks in a core dump.
ghost use Rattle.std.specs.Prelude.{⊤};
ghost use Rattle.wasm_custom.specs.CoreValues.{value_encoding, value as value_format};
ghost use Rattle.wasm_custom.specs.declared.core_values.CoreDumpValue.{CoreDumpValue as ValueModel};

use std::alloc::Allocator;
use wasm_base::{DecodeError, Encode, Grammar, Layout, ReadFault, Readable, Result};
use wasm_immediates::{Ieee32, Ieee64};

/// The value of a local or of an operand, or `Missing` if it was optimized away.
#[derive(Clone, Copy, Debug)]
pub enum CoreDumpValue {
    Missing,
    I32(i32),
    I64(i64),
    F32(Ieee32),
    F64(Ieee64),
}

/// Encodes a byte for the type, and the value.
impl Encode for CoreDumpValue {
    ghost encoding = { value_encoding };

    ghost encodable = { λ _. ⊤ };

    fn encode<A: Allocator>(&self, sink: &mut Vec<u8, A>) -> Result<()> {
        match *self {
            CoreDumpValue::Missing => 0x01u8.encode(sink),
            CoreDumpValue::I32(value) => (0x7Fu8, value).encode(sink),
            CoreDumpValue::I64(value) => (0x7Eu8, value).encode(sink),
            CoreDumpValue::F32(value) => (0x7Du8, value).encode(sink),
            CoreDumpValue::F64(value) => (0x7Cu8, value).encode(sink),
        }
    }
}

impl Layout for CoreDumpValue {
    ghost Value = { ValueModel };

    ghost format = { value_format };

    ghost view = { λ value. value };

    #[tactic(auto, using(crate::proofs::CoreStackLaws::value_unambiguous))]
    fn laws() {}
}

impl<'a, A: Allocator + Copy, G: Grammar> Readable<'a, A, G> for CoreDumpValue {
    ghost may_allocate = { ⊥ };

    #[tactic(auto, using(crate::proofs::CoreStackLaws::value_steps))]
    fn read(bytes: &'a [u8], alloc: A) -> Result<(CoreDumpValue, &'a [u8]), DecodeError> {
        let (tag, rest) = <u8 as Readable<'a, A, G>>::read(bytes, alloc)?;
        match tag {
            0x01 => Ok((CoreDumpValue::Missing, rest)),
            0x7F => {
                let (value, rest) = <i32 as Readable<'a, A, G>>::read(rest, alloc)?;
                Ok((CoreDumpValue::I32(value), rest))
            }
            0x7E => {
                let (value, rest) = <i64 as Readable<'a, A, G>>::read(rest, alloc)?;
                Ok((CoreDumpValue::I64(value), rest))
            }
            0x7D => {
                let (value, rest) = <Ieee32 as Readable<'a, A, G>>::read(rest, alloc)?;
                Ok((CoreDumpValue::F32(value), rest))
            }
            0x7C => {
                let (value, rest) = <Ieee64 as Readable<'a, A, G>>::read(rest, alloc)?;
                Ok((CoreDumpValue::F64(value), rest))
            }
            _ => Err(ReadFault::UnknownTag.just_before(rest)),
        }
    }
}
