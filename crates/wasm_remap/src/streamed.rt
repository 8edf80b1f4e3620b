// Values that are decoded, mapped and appended in one pass over the bytes.
ghost use Rattle.std.specs.Prelude.{◌≡◌, ℕ, IfOk, List, map};
ghost use Rattle.wasm_base.specs.Formats.{vec};
ghost use Rattle.wasm_base.specs.Minimal.{IsFrontOf};
ghost use Rattle.wasm_base.specs.Numbers.{Mode};
ghost use Rattle.wasm_remap.specs.Mapping.{Follows, Mapping};
ghost use Rattle.wasm_remap.specs.Streamed.{Remaps};

use crate::indexed::{Remap, RemapError};
use std::alloc::Allocator;
use wasm_base::{DecodeError, Encode, ReadFault, Readable, Refused, Standard};

/// Why a pass stops.
pub(crate) enum Stopped {
    /// There is no memory.
    Memory,
    /// The bytes do not decode, the map rejects an index, or an encoding is too long. The same
    /// items, decoded to a list, give the error.
    Other,
}

impl From<DecodeError> for Stopped {
    ghost from_gives = { λ _ _. Unit };

    fn from(error: DecodeError) -> Stopped {
        if error.cause() == ReadFault::Memory {
            Stopped::Memory
        } else {
            Stopped::Other
        }
    }
}

impl From<Refused> for Stopped {
    ghost from_gives = { λ _ _. Unit };

    fn from(refused: Refused) -> Stopped {
        match refused {
            Refused::Memory => Stopped::Memory,
            Refused::TooLong => Stopped::Other,
        }
    }
}

impl<E: Drop> From<RemapError<E>> for Stopped {
    ghost from_gives = { λ _ _. Unit };

    fn from(error: RemapError<E>) -> Stopped {
        match error {
            RemapError::Refused(refused) => refused.into(),
            _ => Stopped::Other,
        }
    }
}

/// A value that is decoded, mapped and appended in one pass.
pub(crate) trait Streamed<A: Allocator + Copy> {
    // The values without locations in memory.
    ghost Value: { Type 0 };

    // The format: which bytes encode which value.
    ghost format: { Mode → List ℕ → Value → Type 0 };

    // The value with each index mapped.
    ghost image: { Mapping → Value → Value };

    /// Appends the minimal encoding of the value at the front with each index mapped, and returns the
    /// remaining bytes. After an error, part of it may follow the old bytes of the sink.
    fn append_remapped<'a, M: Remap, B: Allocator>(
        bytes: &'a [u8],
        alloc: A,
        indices: &M,
        sink: &mut Vec<u8, B>,
    ) -> Result<&'a [u8], Stopped>
        ensures found { IfOk result (λ rest. (m : Mapping) → Follows (M.mapped indices.now) (M.rejects indices.now) m → Remaps (image m) format bytes.now rest.now sink.old.items sink.new.items) }
        ensures front { IsFrontOf sink.old.items sink.new.items };
}

/// Appends the minimal encoding of the vector at the front with each index of its members mapped.
/// No list of members is kept.
#[tactic(auto, using(wasm_base::proofs::MinimalEncodings::front_steps))]
pub(crate) fn append_many<'a, T: Streamed<A>, A: Allocator + Copy, M: Remap, B: Allocator>(
    bytes: &'a [u8],
    alloc: A,
    indices: &M,
    sink: &mut Vec<u8, B>,
) -> Result<&'a [u8], Stopped>
    ensures found { IfOk result (λ rest. (m : Mapping) → Follows (M.mapped indices.now) (M.rejects indices.now) m → Remaps (map (T.image m)) (vec T.format) bytes.now rest.now sink.old.items sink.new.items) }
    ensures front { IsFrontOf sink.old.items sink.new.items }
{
    let (count, mut rest) = <u32 as Readable<'a, A, Standard>>::read(bytes, alloc)?;
    count.encode(sink)?;
    for _taken in 0..count {
        rest = T::append_remapped(rest, alloc, indices, sink)?;
    }
    Ok(rest)
}
