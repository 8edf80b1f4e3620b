// Several values one after another.
ghost use Rattle.std.specs.Prelude.{◌++◌, ◌⊎◌};
ghost use Rattle.wasm_base.specs.Calls.{Appends};
ghost use Rattle.wasm_base.specs.Formats.{pair};
ghost use Rattle.wasm_base.specs.Minimal.{common_grammars};

use crate::effect::Effect;
use crate::encode::Encode;
use crate::fault::DecodeError;
use crate::grammar::Grammar;
use crate::readable::{Layout, Readable};
use crate::refused::Result;
use crate::shorten::Shorten;
use crate::walk::Walk;
use std::alloc::Allocator;

/// Appends the encodings of both values, or of neither.
#[inline(always)]
fn encode_both<S: Encode, T: Encode, A: Allocator>(
    first: &S,
    second: &T,
    sink: &mut Vec<u8, A>,
) -> Result<()>
    ensures { Appends (S.encoding first.now ++ T.encoding second.now) (S.encodable first.now × T.encodable second.now) sink.old sink.new result }
{
    let start = sink.len();
    first.encode(sink)?;
    if let Err(refused) = second.encode(sink) {
        sink.truncate(start);
        return Err(refused);
    }
    Ok(())
}

/// Encodes one value, and then the other.
impl<S: Encode, T: Encode> Encode for (S, T) {
    ghost encoding = { λ p. S.encoding p.0 ++ T.encoding p.1 };

    ghost encodable = { λ p. S.encodable p.0 × T.encodable p.1 };

    #[inline]
    fn encode<A: Allocator>(&self, sink: &mut Vec<u8, A>) -> Result<()> {
        encode_both(&self.0, &self.1, sink)
    }
}

/// Encodes three values in order.
impl<S: Encode, T: Encode, U: Encode> Encode for (S, T, U) {
    ghost encoding = { λ p. S.encoding p.0 ++ (T.encoding p.1 ++ U.encoding p.2) };

    ghost encodable = { λ p. S.encodable p.0 × T.encodable p.1 × U.encodable p.2 };

    #[inline]
    fn encode<A: Allocator>(&self, sink: &mut Vec<u8, A>) -> Result<()> {
        let start = sink.len();
        encode_both(&self.0, &self.1, sink)?;
        if let Err(refused) = self.2.encode(sink) {
            sink.truncate(start);
            return Err(refused);
        }
        Ok(())
    }
}

/// One value, and then another.
impl<T: Layout, U: Layout> Layout for (T, U) {
    ghost Value = { T.Value × U.Value };

    ghost format = { pair T.format U.format };

    ghost view = { λ p. (T.view p.0, U.view p.1) };

    fn laws() {
        T::laws();
        U::laws();
    }
}

impl<'a, A: Allocator + Copy, G: Grammar, T: Readable<'a, A, G>, U: Readable<'a, A, G>> Readable<
    'a,
    A,
    G,
> for (T, U) {
    ghost may_allocate = { T.may_allocate ⊎ U.may_allocate };

    #[tactic(auto, using(crate::proofs::DecodingSteps::steps))]
    #[inline]
    fn read(bytes: &'a [u8], alloc: A) -> Result<((T, U), &'a [u8]), DecodeError> {
        let (first, rest) = T::read(bytes, alloc)?;
        T::laws();
        let (second, rest) = U::read(rest, alloc)?;
        Ok(((first, second), rest))
    }
}

impl<T: Shorten, U: Shorten> Shorten for (T, U) {
    ghost grammars = { common_grammars T.grammars U.grammars };

    #[tactic(auto, using(crate::proofs::MinimalEncodings::pair_in_common, crate::proofs::DecodedValues::left_in_common, crate::proofs::DecodedValues::right_in_common))]
    fn write_minimal<B: Allocator>(&self, sink: &mut Vec<u8, B>) -> Result<()> {
        self.0.write_minimal(sink)?;
        self.1.write_minimal(sink)
    }
}

impl<G: Grammar, T: Walk<G>, U: Walk<G>> Walk<G> for (T, U) {
    #[tactic(auto, using(crate::proofs::WalkLaws::keep_steps, crate::proofs::DecodingSteps::steps))]
    #[inline]
    fn walk<'a, A: Allocator + Copy, E: Effect>(
        bytes: &'a [u8],
        alloc: A,
        effect: &mut E,
    ) -> Result<&'a [u8], DecodeError> {
        let after = T::walk(bytes, alloc, effect)?;
        T::laws();
        let rest = U::walk(after, alloc, effect)?;
        Ok(rest)
    }
}
