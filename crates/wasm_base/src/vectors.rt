// Vectors: a count, and that many members.
ghost use Rattle.wasm_base.specs.Iterators.{HasKnownLength, AppendsVec};
ghost use Rattle.std.specs.Prelude.{◌<◌, length, ◌≡◌, ◌≢◌, List, Err, OnOk, OnErr, map};
ghost use Rattle.wasm_base.specs.Encodings.{longest, vec_encoding, IsEncodableVec};
ghost use Rattle.wasm_base.specs.Formats.{members, vec};
ghost use Rattle.wasm_base.specs.declared.refused.Refused.TheVariants.{TooLong};
ghost use Rattle.wasm_base.specs.Minimal.{AppendsMinimal, IsFrontOf, HasEncoding};

use crate::effect::Effect;
use crate::encode::Encode;
use crate::fault::DecodeError;
use crate::grammar::Grammar;
use crate::once::{EncodeOnce, vec_of};
use crate::readable::{Layout, Readable};
use crate::refused::Result;
use crate::shorten::Shorten;
use crate::walk::{Walk, walk_many};
use std::alloc::Allocator;

/// Encodes the members as a vector.
impl<T: Encode> Encode for &[T] {
    ghost encoding = { λ s. vec_encoding T.encoding s.now };

    ghost encodable = { λ s. IsEncodableVec T.encodable s.now };

    ghost overlong = { λ s. longest < length s.now };

    fn encode<A: Allocator>(&self, sink: &mut Vec<u8, A>) -> Result<()> {
        let start = sink.len();
        self.len().encode(sink)?;
        for item in self.iter() {
            if let Err(refused) = item.encode(sink) {
                sink.truncate(start);
                return Err(refused);
            }
        }
        Ok(())
    }
}

/// Appends the elements as a vector: the length that their iterator reports, and then each element.
///
/// # Errors
///
/// Returns [`Refused`](crate::Refused), and leaves the bytes of the sink unchanged, if an element
/// does not fit or an allocation fails. If the reported length exceeds 4294967295, the call returns
/// `TooLong`, and requests no element, as tests show.
pub fn encode_vec<T: Encode + Drop, V: IntoIterator<Item = T>, A: Allocator>(
    elements: V,
    sink: &mut Vec<u8, A>,
) -> Result<()>
where
    V::IntoIter: ExactSizeIterator + Drop,
    requires { HasKnownLength V.into_iter_gives V.IntoIter.can_next V.IntoIter.next_gives V.IntoIter.remaining elements }
    ensures { AppendsVec V.into_iter_gives V.IntoIter.next_gives V.IntoIter.remaining T.encodable T.encoding elements sink.old sink.new result }
{
    vec_of(elements)?.encode_once(sink)
}

/// A count, and that many members. Memory grows with the members that decode, and is not allocated
/// by the count.
impl<A: Allocator, T: Layout> Layout for Vec<T, A> {
    ghost Value = { List T.Value };

    ghost format = { vec T.format };

    ghost view = { λ v. map T.view v.items };

    fn laws() {
        T::laws();
    }
}

impl<'a, A: Allocator + Copy, G: Grammar, T: Readable<'a, A, G>> Readable<'a, A, G> for Vec<T, A> {
    #[tactic(auto, using(crate::proofs::DecodeVectors::vec_steps))]
    fn read(bytes: &'a [u8], alloc: A) -> Result<(Vec<T, A>, &'a [u8]), DecodeError> {
        let (count, mut rest) = <u32 as Readable<'a, A, G>>::read(bytes, alloc)?;
        let mut items = Vec::new(alloc);
        T::laws();
        for _taken in 0..count {
            let (item, after) = T::read(rest, alloc)?;
            items.push(item)?;
            rest = after;
        }
        Ok((items, rest))
    }
}

/// Writes the bytes that [`append_all`] appends. After an error, part of them may follow the old
/// bytes.
#[tactic(auto, using(crate::proofs::MinimalEncodings::no_members_appended))]
fn write_all<T: Shorten, B: Allocator>(items: &[T], sink: &mut Vec<u8, B>) -> Result<()>
    ensures ok { OnOk result (AppendsMinimal T.grammars (members T.format) (map T.view items.now) sink.old.items sink.new.items) }
    ensures front { IsFrontOf sink.old.items sink.new.items }
    ensures too_long { HasEncoding T.grammars (members T.format) (map T.view items.now) → result ≢ Err TooLong }
{
    for item in items {
        item.write_minimal(sink)?;
    }
    Ok(())
}

/// Appends the minimal encodings of the values, one after another.
///
/// # Errors
///
/// Returns [`Refused`](crate::Refused), and leaves the bytes of the sink unchanged, if an
/// allocation fails. Values that were decoded in one of the `grammars` never cause `TooLong`.
pub fn append_all<T: Shorten, B: Allocator>(items: &[T], sink: &mut Vec<u8, B>) -> Result<()>
    ensures ok { OnOk result (AppendsMinimal T.grammars (members T.format) (map T.view items.now) sink.old.items sink.new.items) }
    ensures err { OnErr result (sink.new.items ≡ sink.old.items) }
    ensures too_long { HasEncoding T.grammars (members T.format) (map T.view items.now) → result ≢ Err TooLong }
{
    let start = sink.len();
    let written = write_all(items, sink);
    if written.is_err() {
        sink.truncate(start);
    }
    written
}

/// Writes the number of values, and the values.
impl<T: Shorten, A: Allocator> Shorten for Vec<T, A> {
    ghost grammars = { T.grammars };

    fn write_minimal<B: Allocator>(&self, sink: &mut Vec<u8, B>) -> Result<()> {
        self.len().encode(sink)?;
        write_all(self, sink)
    }
}

/// Walks over the members one by one, and keeps none.
impl<G: Grammar, T: Walk<G>, C: Allocator> Walk<G> for Vec<T, C> {
    #[tactic(auto, using(crate::proofs::WalkLaws::many_walks))]
    fn walk<'a, A: Allocator + Copy, E: Effect>(
        bytes: &'a [u8],
        alloc: A,
        effect: &mut E,
    ) -> Result<&'a [u8], DecodeError> {
        let (_count, rest) = walk_many::<T, A, G, _>(bytes, alloc, effect)?;
        Ok(rest)
    }
}
