// Size-prefixed values: a size, and exactly that many bytes.
ghost use Rattle.std.specs.Prelude.{◌≡◌, ◌≢◌, ◌+◌, ◌<◌, ◌≤◌, ◌++◌, ⊤, length, vec_len, vec_capacity, OnOk, OnErr, IsOk, take, drop, Err};
ghost use Rattle.wasm_base.specs.Calls.{Appends};
ghost use Rattle.wasm_base.specs.Numbers.{unsigned_encoding};
ghost use Rattle.wasm_base.specs.Encodings.{longest, size_prefixed_encoding, HasEncodableSize};
ghost use Rattle.wasm_base.specs.Formats.{size_prefixed};
ghost use Rattle.wasm_base.specs.declared.refused.Refused.TheVariants.{TooLong};
ghost use Rattle.wasm_base.specs.Minimal.{AppendsMinimal, IsFrontOf, HasEncoding};

use crate::effect::Effect;
use crate::encode::Encode;
use crate::fault::DecodeError;
use crate::grammar::Grammar;
use crate::leb128::encoding_size;
use crate::readable::{Layout, Readable};
use crate::refused::{Refused, Result};
use crate::shorten::Shorten;
use crate::walk::{Walk, walk_whole};
use crate::whole::read_before;
use std::alloc::Allocator;

/// Appends a size prefix, and reserves spare capacity for the payload that the caller appends next.
///
/// # Errors
///
/// Returns [`Refused::TooLong`] if the size exceeds 4294967295, and [`Refused::Memory`] if an
/// allocation fails. The bytes of the sink are unchanged in both cases.
pub fn begin_size_prefixed<A: Allocator>(sink: &mut Vec<u8, A>, size: usize) -> Result<()>
    ensures ok { OnOk result (sink.new.items ≡ sink.old.items ++ unsigned_encoding size) }
    ensures reserved { OnOk result (vec_len sink.new + size ≤ vec_capacity sink.new) }
    ensures err { OnErr result (sink.new.items ≡ sink.old.items) }

    ensures was_encodable { OnOk result (size ≤ longest) }
    ensures too_long { size ≤ longest → result ≢ Err Refused.TooLong }
    ensures too_many { longest < size → result ≡ Err Refused.TooLong }

    ensures spare { size ≤ longest
        → vec_len sink.old + (length (unsigned_encoding size) + size) ≤ vec_capacity sink.old
        → IsOk result }
    ensures capacity { vec_capacity sink.old ≤ vec_capacity sink.new }
{
    let Ok(short) = u32::try_from(size) else {
        return Err(Refused::TooLong);
    };
    sink.reserve(size.saturating_add(encoding_size(short)))?;
    short.encode(sink)
}

/// A size below this has one byte.
const SHORT: usize = 0x80;

/// Appends the bytes with their size prefix.
///
/// # Errors
///
/// Returns [`Refused::TooLong`] if there are more than 4294967295 bytes, and [`Refused::Memory`] if
/// an allocation fails. The bytes of the sink are unchanged in both cases.
#[tactic(auto, using(crate::proofs::NumberEncodings::one_group))]
#[inline(always)]
pub fn encode_size_prefixed<A: Allocator>(sink: &mut Vec<u8, A>, bytes: &[u8]) -> Result<()>
    ensures appends { Appends (size_prefixed_encoding bytes.now) (HasEncodableSize bytes.now) sink.old sink.new result }
    ensures too_many { longest < length bytes.now → result ≡ Err Refused.TooLong }
{
    let size = bytes.len();
    if size >= SHORT {
        return encode_long_payload(sink, bytes);
    }
    sink.reserve(size + 1)?;
    sink.push_reserved(size as u8);
    sink.extend_from_slice(bytes).unwrap();
    Ok(())
}

/// Appends the bytes with their size prefix, which may have several bytes.
#[inline(never)]
fn encode_long_payload<A: Allocator>(sink: &mut Vec<u8, A>, bytes: &[u8]) -> Result<()>
    ensures appends { Appends (size_prefixed_encoding bytes.now) (HasEncodableSize bytes.now) sink.old sink.new result }
    ensures too_many { longest < length bytes.now → result ≡ Err Refused.TooLong }
{
    begin_size_prefixed(sink, bytes.len())?;
    sink.extend_from_slice(bytes).unwrap();
    Ok(())
}

/// Appends a size prefix, then `count`, then the bytes. This is a counted section if the bytes are
/// the encodings of `count` entries; the call does not check that.
///
/// # Errors
///
/// Returns [`Refused::TooLong`] if the size exceeds 4294967295, and [`Refused::Memory`] if an
/// allocation fails. The bytes of the sink are unchanged in both cases.
pub fn encode_section<A: Allocator>(sink: &mut Vec<u8, A>, count: u32, bytes: &[u8]) -> Result<()>
    ensures appends { Appends (size_prefixed_encoding (unsigned_encoding count ++ bytes.now)) (HasEncodableSize (unsigned_encoding count ++ bytes.now)) sink.old sink.new result }
    ensures too_many { longest < length (unsigned_encoding count ++ bytes.now) → result ≡ Err Refused.TooLong }
{
    begin_size_prefixed(sink, bytes.len().saturating_add(encoding_size(count)))?;
    count.encode(sink).unwrap();
    sink.extend_from_slice(bytes).unwrap();
    Ok(())
}

/// Bytes that are encoded with their size prefix.
#[derive(Clone, Copy, Debug)]
pub struct SizedBytes<'a>(pub &'a [u8]);

impl Encode for SizedBytes<'_> {
    ghost encoding = { λ b. size_prefixed_encoding b.0.now };

    ghost encodable = { λ b. HasEncodableSize b.0.now };

    ghost overlong = { λ b. longest < length b.0.now };

    #[inline(always)]
    fn encode<A: Allocator>(&self, sink: &mut Vec<u8, A>) -> Result<()> {
        encode_size_prefixed(sink, self.0)
    }
}

/// Bytes that are encoded as they are, without their size.
#[derive(Clone, Copy, Debug)]
pub struct RawBytes<'a>(pub &'a [u8]);

impl Encode for RawBytes<'_> {
    ghost encoding = { λ b. b.0.now };

    ghost encodable = { λ _. ⊤ };

    #[inline]
    fn encode<A: Allocator>(&self, sink: &mut Vec<u8, A>) -> Result<()> {
        sink.extend_from_slice(self.0)?;
        Ok(())
    }
}

/// A size-prefixed value that occupies its payload to the last byte. Its own format determines its
/// end too.
#[derive(Debug, Drop)]
pub struct SizePrefixed<T>(pub T);

impl<T: Layout> Layout for SizePrefixed<T> {
    ghost Value = { T.Value };

    ghost format = { size_prefixed T.format };

    ghost view = { λ f. T.view f.0 };

    fn laws() {
        T::laws();
    }
}

impl<'a, A: Allocator + Copy, G: Grammar, T: Readable<'a, A, G>> Readable<'a, A, G>
    for SizePrefixed<T> {
    ghost may_allocate = { T.may_allocate };

    #[tactic(auto, using(crate::proofs::DecodeSizePrefixed::filled_steps))]
    fn read(bytes: &'a [u8], alloc: A) -> Result<(SizePrefixed<T>, &'a [u8]), DecodeError> {
        let (content, rest) = <&'a [u8] as Readable<'a, A, G>>::read(bytes, alloc)?;
        let value = read_before::<T, A, G>(content, rest, alloc)?;
        Ok((SizePrefixed(value), rest))
    }
}

/// Inserts the size of the bytes from `start` on before them, so that they become a size prefix and
/// its payload.
///
/// # Errors
///
/// Returns [`Refused::TooLong`] only if there are more than 4294967295 such bytes, and
/// [`Refused::Memory`] if an allocation fails. The bytes of the sink are unchanged in both cases.
pub fn prefix_size_since<B: Allocator>(sink: &mut Vec<u8, B>, start: usize) -> Result<()>
    requires { start ≤ vec_len sink.old }
    ensures sized { OnOk result (sink.new.items ≡ take start sink.old.items ++ size_prefixed_encoding (drop start sink.old.items)) }
    ensures was_encodable { OnOk result (HasEncodableSize (drop start sink.old.items)) }
    ensures err { OnErr result (sink.new.items ≡ sink.old.items) }
    ensures too_long { HasEncodableSize (drop start sink.old.items) → result ≢ Err TooLong }
{
    let size = sink.len() - start;
    size.encode(sink)?;
    sink[start..].rotate_left(size);
    Ok(())
}

/// Appends the minimal encoding of the value with its size prefix.
#[tactic(auto, using(crate::proofs::MinimalEncodings::size_prefixed_appended, crate::proofs::DecodedValues::content_encoded, crate::proofs::DecodedValues::behind_encodable))]
fn append_payload<T: Shorten, B: Allocator>(value: &T, sink: &mut Vec<u8, B>) -> Result<()>
    ensures ok { OnOk result (AppendsMinimal T.grammars (size_prefixed T.format) (T.view value.now) sink.old.items sink.new.items) }
    ensures front { IsFrontOf sink.old.items sink.new.items }
    ensures too_long { HasEncoding T.grammars (size_prefixed T.format) (T.view value.now) → result ≢ Err TooLong }
{
    T::laws();
    let start = sink.len();
    value.write_minimal(sink)?;
    prefix_size_since(sink, start)
}

impl<T: Shorten> Shorten for SizePrefixed<T> {
    ghost grammars = { T.grammars };

    fn write_minimal<B: Allocator>(&self, sink: &mut Vec<u8, B>) -> Result<()> {
        let SizePrefixed(value) = self;
        append_payload(value, sink)
    }
}

/// Walks over the payload, and then inserts its size.
impl<G: Grammar, T: Walk<G>> Walk<G> for SizePrefixed<T> {
    #[tactic(auto, using(crate::proofs::WalkLaws::sized_steps, crate::proofs::DecodeSizePrefixed::filled_steps))]
    fn walk<'a, A: Allocator + Copy, E: Effect>(
        bytes: &'a [u8],
        alloc: A,
        effect: &mut E,
    ) -> Result<&'a [u8], DecodeError> {
        let (content, rest) = <&'a [u8] as Readable<'a, A, G>>::read(bytes, alloc)?;
        T::laws();
        let start = effect.position();
        match walk_whole::<T, A, G, _>(content, alloc, effect) {
            Ok(()) => {}
            Err(error) => return Err(error.before(rest)),
        }
        effect.prefix_size(start)?;
        Ok(rest)
    }
}
