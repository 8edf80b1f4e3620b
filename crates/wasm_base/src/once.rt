// Values that are consumed by their encoding, such as the items of an iterator.
ghost use Rattle.std.specs.Prelude.{◌≡◌, ◌≢◌, ℕ, ◌+◌, ◌<◌, ◌≤◌, List, ◌++◌, length, vec_len, vec_capacity, IfOk, IfErr};
ghost use Rattle.std.specs.Iterator.{size, IsFinite, Drains, Yields};
ghost use Rattle.wasm_base.specs.Once.{AppendsOnce, ReportsCount, GivesVec, GivesBytes, GivesPair, GivesTriple, YieldsEncodable};
ghost use Rattle.wasm_base.specs.Encodings.{longest};
ghost use Rattle.wasm_base.specs.declared.refused.Refused.TheVariants.{TooLong};

use crate::encode::Encode;
use crate::refused::{Refused, Result};
use std::alloc::Allocator;

/// A value that is consumed when it is encoded, since an iterator in it yields its items only once.
///
/// # Errors
///
/// `encode_once` returns [`Refused`], and leaves the sink unchanged, if an allocation fails or the
/// encoding does not fit.
pub trait EncodeOnce {
    /// `lawful`: the contract of its iterators.
    ghost lawful: { Self → Type 0 };

    /// `gives`: the encodings that it may have.
    ghost gives: { Self → List ℕ → Type 0 };

    /// `encodable`: whatever its iterators yield, every count and length in the encoding is
    /// representable.
    ghost encodable: { Self → Type 0 };

    /// Appends an encoding of the value. On an error, the bytes of the sink are unchanged.
    fn encode_once<A: Allocator>(self, sink: &mut Vec<u8, A>) -> Result<()>
        requires { lawful self }
        ensures { AppendsOnce (gives self) (encodable self) sink.old sink.new result };
}

/// The vector of an iterator's items, counted before the first item was requested: see [`vec_of`].
#[derive(Drop, Debug)]
pub struct VecOf<I> {
    items: I,
    count: u32,
}

/// The vector of an iterator's bytes, counted before the first byte was requested: see
/// [`bytes_of`].
#[derive(Drop, Debug)]
pub struct BytesOf<I> {
    items: I,
    count: u32,
}

/// Returns the number of items that the iterator reports, or `TooLong` if a count cannot represent
/// it.
fn count_of<I: ExactSizeIterator>(items: &I) -> Result<u32>
    ensures ok { IfOk result (λ count. IsFinite (I.remaining items.now) × (size (I.remaining items.now) ≡ count) × (count ≤ longest)) }
    ensures too_long { size (I.remaining items.now) ≤ longest → result ≢ Err TooLong }
    ensures too_many { longest < size (I.remaining items.now) → result ≡ Err TooLong }
    ensures refused { IfErr result (λ refused. refused ≡ TooLong) }
{
    let Ok(count) = u32::try_from(items.len()) else {
        return Err(Refused::TooLong);
    };
    Ok(count)
}

/// Returns the vector of the elements, to be encoded once. It requests no element, as tests show.
///
/// # Errors
///
/// Returns `TooLong` if the iterator reports more than 4294967295 elements. It never returns
/// `Memory`.
pub fn vec_of<V: IntoIterator>(elements: V) -> Result<VecOf<V::IntoIter>>
where
    V::IntoIter: ExactSizeIterator + Drop,
    ensures ok { IfOk result (λ v. V.into_iter_gives elements v.items × IsFinite (V.IntoIter.remaining v.items) × (size (V.IntoIter.remaining v.items) ≡ v.count) × (v.count ≤ longest)) }
    ensures too_long { ((it : V.IntoIter) → V.into_iter_gives elements it → size (V.IntoIter.remaining it) ≤ longest) → result ≢ Err TooLong }
    ensures too_many { ((it : V.IntoIter) → V.into_iter_gives elements it → longest < size (V.IntoIter.remaining it)) → result ≡ Err TooLong }
    ensures refused { IfErr result (λ refused. refused ≡ TooLong) }
{
    let items = elements.into_iter();
    let count = count_of(&items)?;
    Ok(VecOf { items, count })
}

/// Returns the vector of the bytes, to be encoded once. An iterator that lends its bytes as a slice
/// is copied as a whole. The call requests no byte, as tests show.
///
/// # Errors
///
/// Returns `TooLong` if the iterator reports more than 4294967295 bytes. It never returns `Memory`.
pub fn bytes_of<V: IntoIterator>(bytes: V) -> Result<BytesOf<V::IntoIter>>
where
    V::IntoIter: ExactSizeIterator + Drop,
    ensures ok { IfOk result (λ v. V.into_iter_gives bytes v.items × IsFinite (V.IntoIter.remaining v.items) × (size (V.IntoIter.remaining v.items) ≡ v.count) × (v.count ≤ longest)) }
    ensures too_long { ((it : V.IntoIter) → V.into_iter_gives bytes it → size (V.IntoIter.remaining it) ≤ longest) → result ≢ Err TooLong }
    ensures too_many { ((it : V.IntoIter) → V.into_iter_gives bytes it → longest < size (V.IntoIter.remaining it)) → result ≡ Err TooLong }
    ensures refused { IfErr result (λ refused. refused ≡ TooLong) }
{
    let items = bytes.into_iter();
    let count = count_of(&items)?;
    Ok(BytesOf { items, count })
}

impl<T: Encode + Drop, I: Iterator<Item = T> + Drop> EncodeOnce for VecOf<I> {
    ghost lawful = { λ v. ReportsCount I.can_next I.next_gives I.remaining v.items v.count };

    ghost gives = { λ v. GivesVec I.next_gives T.encodable T.encoding v.items };

    ghost encodable = { λ v. YieldsEncodable I.next_gives T.encodable v.items };

    #[inline(always)]
    fn encode_once<A: Allocator>(self, sink: &mut Vec<u8, A>) -> Result<()> {
        let VecOf { items, count } = self;
        let start = sink.len();
        count.encode(sink)?;
        for item in items {
            if let Err(refused) = item.encode(sink) {
                sink.truncate(start);
                return Err(refused);
            }
        }
        Ok(())
    }
}

/// The largest number of bytes of an encoded count.
const COUNT_BYTES: usize = 5;

/// The number of bytes of a short run that are copied at a time.
const BLOCK: usize = 16;

/// The most bytes of a run that is copied in blocks.
const SHORT: usize = 256;

/// Returns the next `BLOCK` bytes of an iterator that has that many. Only their number is tested,
/// so that the compiler copies them as a whole.
fn next_block<I: Iterator<Item = u8>>(items: &mut I) -> [u8; BLOCK]
    requires ready { I.can_next items.old × IsFinite (I.remaining items.old) }
    requires many { (xs : List ℕ) → Drains I.next_gives items.old xs → 16 ≤ length xs }
    ensures yields { Yields I.next_gives items.old result items.new }
    ensures count { length result ≡ 16 }
    ensures ready { I.can_next items.new × IsFinite (I.remaining items.new) }
{
    let mut block = [0; BLOCK];
    for i in 0..BLOCK {
        block[i] = items.next().unwrap();
    }
    block
}

/// Appends a short run except its last few bytes, one block at a time, and nothing of a long run.
/// The sink has spare capacity for the whole run.
fn append_blocks<I: Iterator<Item = u8>, A: Allocator>(
    sink: &mut Vec<u8, A>,
    items: &mut I,
    count: usize,
)
    requires ready { I.can_next items.old × IsFinite (I.remaining items.old) }
    requires reported { (xs : List ℕ) → Drains I.next_gives items.old xs → length xs ≡ count }
    requires spare { vec_len sink.old + count ≤ vec_capacity sink.old }
    ensures appends { (xs : List ℕ) × Yields I.next_gives items.old xs items.new × (sink.new.items ≡ sink.old.items ++ xs) }
    ensures ready { I.can_next items.new × IsFinite (I.remaining items.new) }
    ensures capacity { vec_capacity sink.old ≤ vec_capacity sink.new }
{
    let mut left = if count <= SHORT { count } else { 0 };
    while left >= BLOCK {
        let block = next_block(items);
        sink.extend_from_slice(&block).unwrap();
        left -= BLOCK;
    }
}

impl<I: Iterator<Item = u8> + Drop> EncodeOnce for BytesOf<I> {
    ghost lawful = { λ v. ReportsCount I.can_next I.next_gives I.remaining v.items v.count };

    ghost gives = { λ v. GivesBytes I.next_gives v.items };

    ghost encodable = { λ _. Unit {0} };

    #[inline(always)]
    fn encode_once<A: Allocator>(self, sink: &mut Vec<u8, A>) -> Result<()> {
        let BytesOf { mut items, count } = self;
        let start = sink.len();
        let len = count as usize;
        sink.reserve(len.saturating_add(COUNT_BYTES))?;
        count.encode(sink)?;
        append_blocks(sink, &mut items, len);
        let Ok(()) = sink.extend(items) else {
            sink.truncate(start);
            return Err(Refused::Memory);
        };
        Ok(())
    }
}

/// A value, and then one that is encoded once.
impl<S: Encode + Drop, T: EncodeOnce + Drop> EncodeOnce for (S, T) {
    ghost lawful = { λ p. T.lawful p.1 };

    ghost gives = { λ p. GivesPair (S.encoding p.0) (S.encodable p.0) (T.gives p.1) };

    ghost encodable = { λ p. S.encodable p.0 × T.encodable p.1 };

    #[inline(always)]
    fn encode_once<A: Allocator>(self, sink: &mut Vec<u8, A>) -> Result<()> {
        let (front, back) = self;
        let start = sink.len();
        front.encode(sink)?;
        if let Err(refused) = back.encode_once(sink) {
            sink.truncate(start);
            return Err(refused);
        }
        Ok(())
    }
}

/// A value, and then two that are encoded once.
impl<S: Encode + Drop, T: EncodeOnce + Drop, U: EncodeOnce + Drop> EncodeOnce for (S, T, U) {
    ghost lawful = { λ p. T.lawful p.1 × U.lawful p.2 };

    ghost gives = { λ p. GivesTriple (S.encoding p.0) (S.encodable p.0) (T.gives p.1) (U.gives p.2) };

    ghost encodable = { λ p. S.encodable p.0 × T.encodable p.1 × U.encodable p.2 };

    #[inline(always)]
    fn encode_once<A: Allocator>(self, sink: &mut Vec<u8, A>) -> Result<()> {
        let (front, middle, back) = self;
        let start = sink.len();
        front.encode(sink)?;
        if let Err(refused) = middle.encode_once(sink) {
            sink.truncate(start);
            return Err(refused);
        }
        if let Err(refused) = back.encode_once(sink) {
            sink.truncate(start);
            return Err(refused);
        }
        Ok(())
    }
}
