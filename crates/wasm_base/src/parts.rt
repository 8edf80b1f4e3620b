// Components of values: borrowed ones, and optional ones.
ghost use Rattle.std.specs.Prelude.{IfSome, ◌≡◌, ◌≢◌, IfOk, IfErr, option_map};
ghost use Rattle.wasm_base.specs.Encodings.{optional_encoding};
ghost use Rattle.wasm_base.specs.Formats.{optional};
ghost use Rattle.wasm_base.specs.Numbers.{padded_of};
ghost use Rattle.wasm_base.specs.Decoding.{Decodes, Rejects};
ghost use Rattle.wasm_base.specs.declared.fault.ReadFault.TheVariants.{Memory};

use crate::encode::Encode;
use crate::fault::DecodeError;
use crate::grammar::Grammar;
use crate::readable::Readable;
use crate::refused::Result;
use std::alloc::Allocator;

/// A borrowed value as a component of an encoding.
#[derive(Drop, Debug)]
pub struct Lent<'a, T>(pub &'a T);

/// Encodes the value.
impl<T: Encode> Encode for Lent<'_, T> {
    ghost encoding = { λ lent. T.encoding lent.0.now };

    ghost encodable = { λ lent. T.encodable lent.0.now };

    #[inline]
    fn encode<A: Allocator>(&self, sink: &mut Vec<u8, A>) -> Result<()> {
        self.0.encode(sink)
    }
}

/// An optional component of an encoding.
#[derive(Clone, Copy, Debug)]
pub struct Optional<T>(pub Option<T>);

/// Encodes the value, or nothing if there is none.
impl<T: Encode> Encode for Optional<T> {
    ghost encoding = { λ part. optional_encoding T.encoding part.0 };

    ghost encodable = { λ part. IfSome part.0 T.encodable };

    #[inline]
    fn encode<A: Allocator>(&self, sink: &mut Vec<u8, A>) -> Result<()> {
        match &self.0 {
            Some(part) => part.encode(sink),
            None => Ok(()),
        }
    }
}

/// Decodes a value if the flag is set, and returns `None` otherwise.
///
/// # Errors
///
/// Every error except `Memory` means that the flag is set, and no such value is at the front.
#[tactic(auto, using(crate::proofs::Tags::optional_steps))]
pub fn read_optional<'a, T: Readable<'a, A, G>, A: Allocator + Copy, G: Grammar>(
    flag: bool,
    bytes: &'a [u8],
    alloc: A,
) -> Result<(Option<T>, &'a [u8]), DecodeError>
    ensures found { IfOk result (λ x. Decodes (optional flag T.format) (padded_of G.grammar) bytes.now (option_map T.view x.0) x.1.now) }
    ensures none { IfErr result (λ e. e.cause ≢ Memory → Rejects (optional flag T.format) (padded_of G.grammar) bytes.now) }
    ensures no_memory { IfErr result (λ e. e.cause ≡ Memory → T.may_allocate) }
{
    if flag {
        let (value, rest) = T::read(bytes, alloc)?;
        Ok((Some(value), rest))
    } else {
        Ok((None, bytes))
    }
}
