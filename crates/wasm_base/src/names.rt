// Names, and size-prefixed bytes. Decoded ones are slices of the input.
ghost use Rattle.std.specs.Prelude.{◌≡◌, ◌≢◌, ◌<◌, ℕ, List, length, IfOk, IfErr};
ghost use Rattle.wasm_base.specs.Numbers.{padded_of};
ghost use Rattle.wasm_base.specs.Minimal.{IsFrontOf, both_grammars};
ghost use Rattle.wasm_base.specs.Walks.{Keeps, Walks};
ghost use Rattle.wasm_base.specs.declared.fault.ReadFault.TheVariants.{Memory};
ghost use Rattle.wasm_base.specs.Encodings.{longest, size_prefixed_encoding, HasEncodableSize};
ghost use Rattle.wasm_base.specs.Formats.{size_prefixed, any_bytes, name};
ghost use Rattle.wasm_base.specs.Decoding.{Rejects, Unambiguous};

use crate::effect::Effect;
use crate::encode::Encode;
use crate::fault::{DecodeError, ReadFault};
use crate::frames::{SizedBytes, encode_size_prefixed};
use crate::grammar::Grammar;
use crate::readable::{Layout, Readable};
use crate::refused::Result;
use crate::shorten::Shorten;
use crate::walk::Walk;
use std::alloc::Allocator;

/// Encodes a name: the size prefix and the UTF-8 bytes.
impl Encode for &str {
    ghost encoding = { λ name. size_prefixed_encoding name.now };

    ghost encodable = { λ name. HasEncodableSize name.now };

    ghost overlong = { λ name. longest < length name.now };

    #[inline(always)]
    fn encode<A: Allocator>(&self, sink: &mut Vec<u8, A>) -> Result<()> {
        encode_size_prefixed(sink, self.as_bytes())
    }
}

/// The payload of size-prefixed bytes.
impl<'a> Layout for &'a [u8] {
    ghost Value = { List ℕ };

    ghost format = { size_prefixed any_bytes };

    ghost view = { λ b. b.now };

    #[tactic(auto, using(crate::proofs::BaseLaws::size_prefixed_bytes_unambiguous))]
    fn laws()
        ensures { Unambiguous (size_prefixed any_bytes) }
    {}
}

impl<'a, A: Allocator + Copy, G: Grammar> Readable<'a, A, G> for &'a [u8] {
    ghost may_allocate = { ⊥ };

    #[tactic(auto, using(crate::proofs::DecodeSizePrefixed::size_prefixed_steps))]
    fn read(bytes: &'a [u8], alloc: A) -> Result<(&'a [u8], &'a [u8]), DecodeError> {
        let (size, rest) = <u32 as Readable<'a, A, G>>::read(bytes, alloc)?;
        if rest.len() < size as usize {
            return Err(ReadFault::Ended.at(b""));
        }
        Ok(rest.split_at(size as usize))
    }
}

/// A name: a length, and that many bytes of UTF-8.
impl<'a> Layout for &'a str {
    ghost Value = { List ℕ };

    ghost format = { name };

    ghost view = { λ s. s.now };

    #[tactic(auto, using(crate::proofs::BaseLaws::name_unambiguous))]
    fn laws()
        ensures { Unambiguous name }
    {}
}

impl<'a, A: Allocator + Copy, G: Grammar> Readable<'a, A, G> for &'a str {
    ghost may_allocate = { ⊥ };

    #[tactic(auto, using(crate::proofs::DecodeSizePrefixed::name_steps))]
    fn read(bytes: &'a [u8], alloc: A) -> Result<(&'a str, &'a [u8]), DecodeError> {
        let (encoding, rest) = <&'a [u8] as Readable<'a, A, G>>::read(bytes, alloc)?;
        match str::from_utf8(encoding) {
            Ok(name) => Ok((name, rest)),
            Err(_) => Err(ReadFault::NotUtf8.at(encoding).before(rest)),
        }
    }
}

impl Shorten for &[u8] {
    ghost grammars = { both_grammars };

    #[tactic(auto, using(crate::proofs::DecodePlain::bytes_appended, crate::proofs::DecodedValues::bytes_encodable))]
    fn write_minimal<B: Allocator>(&self, sink: &mut Vec<u8, B>) -> Result<()> {
        encode_size_prefixed(sink, self)
    }
}

impl Shorten for &str {
    ghost grammars = { both_grammars };

    #[tactic(auto, using(crate::proofs::DecodePlain::name_appended, crate::proofs::DecodedValues::name_encodable))]
    fn write_minimal<B: Allocator>(&self, sink: &mut Vec<u8, B>) -> Result<()> {
        self.encode(sink)
    }
}

impl<'s, G: Grammar> Walk<G> for &'s str {
    #[tactic(auto, using(crate::proofs::WalkLaws::name_walks, crate::proofs::WalkLaws::keep_steps))]
    #[inline]
    fn walk<'a, A: Allocator + Copy, E: Effect>(
        bytes: &'a [u8],
        alloc: A,
        effect: &mut E,
    ) -> Result<&'a [u8], DecodeError>
        ensures found { IfOk result (λ rest. Walks E.seen G.grammar name bytes.now rest.now effect.old effect.new) }
        ensures none { IfErr result (λ e. e.cause ≢ Memory → Rejects name (padded_of G.grammar) bytes.now) }
        ensures no_memory { IfErr result (λ e. e.cause ≡ Memory → E.may_fail) }
        ensures front { Keeps E.seen effect.old effect.new }
    {
        let (name, rest) = <&'a str as Readable<'a, A, G>>::read(bytes, alloc)?;
        effect.put(&name)?;
        Ok(rest)
    }
}

impl<'s, G: Grammar> Walk<G> for &'s [u8] {
    #[tactic(auto, using(crate::proofs::WalkLaws::bytes_walks, crate::proofs::WalkLaws::keep_steps))]
    #[inline]
    fn walk<'a, A: Allocator + Copy, E: Effect>(
        bytes: &'a [u8],
        alloc: A,
        effect: &mut E,
    ) -> Result<&'a [u8], DecodeError>
        ensures found { IfOk result (λ rest. Walks E.seen G.grammar (size_prefixed any_bytes) bytes.now rest.now effect.old effect.new) }
        ensures none { IfErr result (λ e. e.cause ≢ Memory → Rejects (size_prefixed any_bytes) (padded_of G.grammar) bytes.now) }
        ensures no_memory { IfErr result (λ e. e.cause ≡ Memory → E.may_fail) }
        ensures front { Keeps E.seen effect.old effect.new }
    {
        let (content, rest) = <&'a [u8] as Readable<'a, A, G>>::read(bytes, alloc)?;
        effect.put(&SizedBytes(content))?;
        Ok(rest)
    }
}
