// Fixed-width values: bytes, arrays of bytes, and vectors of 128 bits.
ghost use Rattle.std.specs.Prelude.{◌∷◌, [], ⊤, ℕ, List, ℤ};
ghost use Rattle.wasm_base.specs.Formats.{byte, raw_bytes, vector_format};

use crate::effect::Effect;
use crate::encode::Encode;
use crate::fault::{DecodeError, ReadFault};
use crate::grammar::Grammar;
use crate::readable::{Layout, Readable};
use crate::refused::Result;
use crate::walk::{Canonical, Walk, walk_value};
use std::alloc::Allocator;

/// Encodes the number as one byte.
impl Encode for u8 {
    ghost encoding = { λ n. n ∷ [] };

    ghost encodable = { λ _. ⊤ };

    #[inline]
    fn encode<A: Allocator>(&self, sink: &mut Vec<u8, A>) -> Result<()> {
        sink.push(*self)?;
        Ok(())
    }
}

/// Encodes the bytes as they are, without a count.
impl<const N: usize> Encode for [u8; N] {
    ghost encoding = { λ bytes. bytes };

    ghost encodable = { λ _. ⊤ };

    #[inline]
    fn encode<A: Allocator>(&self, sink: &mut Vec<u8, A>) -> Result<()> {
        sink.extend_from_slice(self)?;
        Ok(())
    }
}

impl Layout for u8 {
    ghost Value = { ℕ };

    ghost format = { byte };

    ghost view = { λ b. b };

    #[tactic(auto, using(crate::proofs::FormatLaws::byte_unambiguous))]
    fn laws() {}
}

impl<'a, A: Allocator + Copy, G: Grammar> Readable<'a, A, G> for u8 {
    ghost may_allocate = { ⊥ };

    #[tactic(auto, using(crate::proofs::DecodingSteps::steps))]
    #[inline]
    fn read(bytes: &'a [u8], _alloc: A) -> Result<(u8, &'a [u8]), DecodeError> {
        match bytes {
            [] => Err(ReadFault::Ended.at(bytes)),
            [b, rest @ ..] => Ok((*b, rest)),
        }
    }
}

impl Canonical for u8 {
    #[tactic(auto, using(crate::proofs::GrammarLaws::byte_canonical))]
    fn canonical() {}
}

impl<G: Grammar> Walk<G> for u8 {
    #[inline]
    fn walk<'a, A: Allocator + Copy, E: Effect>(
        bytes: &'a [u8],
        alloc: A,
        effect: &mut E,
    ) -> Result<&'a [u8], DecodeError> {
        walk_value::<u8, A, G, _>(bytes, alloc, effect)
    }
}

/// A vector's sixteen bytes, little-endian, in two's complement.
impl Layout for i128 {
    ghost Value = { ℤ };

    ghost format = { vector_format };

    ghost view = { λ v. v };

    #[tactic(auto, using(crate::proofs::BaseLaws::vector_unambiguous))]
    fn laws() {}
}

impl<'a, A: Allocator + Copy, G: Grammar> Readable<'a, A, G> for i128 {
    ghost may_allocate = { ⊥ };

    fn read(bytes: &'a [u8], _alloc: A) -> Result<(i128, &'a [u8]), DecodeError> {
        match bytes.split_first_chunk::<16>() {
            Some((front, rest)) => Ok((i128::from_le_bytes(*front), rest)),
            None => Err(ReadFault::Ended.at(b"")),
        }
    }
}

/// Sixteen lanes, one byte each.
impl Layout for [u8; 16] {
    ghost Value = { List ℕ };

    ghost format = { raw_bytes 16 };

    ghost view = { λ lanes. lanes };

    fn laws() {}
}

impl<'a, A: Allocator + Copy, G: Grammar> Readable<'a, A, G> for [u8; 16] {
    ghost may_allocate = { ⊥ };

    #[tactic(auto, using(crate::proofs::DecodeFixed::raw_steps))]
    fn read(bytes: &'a [u8], _alloc: A) -> Result<([u8; 16], &'a [u8]), DecodeError> {
        match bytes.split_first_chunk::<16>() {
            Some((front, rest)) => Ok((*front, rest)),
            None => Err(ReadFault::Ended.at(b"")),
        }
    }
}
