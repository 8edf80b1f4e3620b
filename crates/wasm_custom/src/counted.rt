// Readers and minimizers of custom sections of counted items.
ghost use Rattle.std.specs.Prelude.{◌≡◌, ◌≢◌, ℕ, List, IfOk, IfErr, Err, OnOk, OnErr, map};
ghost use Rattle.wasm_base.specs.Formats.{vec};
ghost use Rattle.wasm_base.specs.Continuing.{RejectsWhole};
ghost use Rattle.wasm_base.specs.Numbers.{Mode, padded_of};
ghost use Rattle.wasm_base.specs.Decoding.{Unambiguous, Decodes, Rejects};
ghost use Rattle.wasm_custom.specs.Entries.{counted_payload};
ghost use Rattle.wasm_base.specs.declared.refused.Refused.TheVariants.{TooLong};
ghost use Rattle.wasm_base.specs.Minimal.{AppendsMinimal, IsFrontOf, HasEncoding, both_grammars};
ghost use Rattle.wasm_base.specs.declared.fault.ReadFault.TheVariants.{Memory};

use crate::entries::CustomKind;
use crate::named::after_name;
use std::alloc::Allocator;
use wasm_base::{DecodeError, Encode, Grammar, ReadFault, Readable, Result};

/// A kind whose items can be encoded from a decoded `T`.
pub(crate) trait ItemsAs<T>: CustomKind {
    // The view of a decoded value: the item, without its location in memory.
    ghost Said: { Type 0 };

    // The format: which bytes encode which item.
    ghost format: { Mode → List ℕ → Said → Type 0 };

    ghost view: { T → Said };

    /// Proves that the format is unambiguous: at most one item decodes from the front of any bytes.
    /// The function does nothing.
    fn unique()
        ensures { Unambiguous format };

    /// Appends the minimal encoding of the item, if any bytes decode to it. After an error, part of
    /// the encoding may follow the old bytes.
    fn append_item<B: Allocator>(item: &T, sink: &mut Vec<u8, B>) -> Result<()>
        ensures ok { OnOk result (AppendsMinimal both_grammars format (view item.now) sink.old.items sink.new.items) }
        ensures front { IsFrontOf sink.old.items sink.new.items }
        ensures too_long { HasEncoding both_grammars format (view item.now) → result ≢ Err TooLong };
}

/// A kind whose items decode to a `T`.
pub(crate) trait DecodesItems<'a, T: Drop, A: Allocator + Copy, G: Grammar>: ItemsAs<T> {
    /// Decodes the item at the front, in the grammar `G`, and returns it with the remaining bytes.
    fn read_item(bytes: &'a [u8], alloc: A) -> Result<(T, &'a [u8]), DecodeError>
        ensures found { IfOk result (λ x. Decodes Self.format (padded_of G.grammar) bytes.now (Self.view x.0) x.1.now) }
        ensures none { IfErr result (λ e. e.cause ≢ Memory → Rejects Self.format (padded_of G.grammar) bytes.now) };
}

/// Decodes a count and that many items, and returns them with the remaining bytes. Memory grows
/// with the items that decode, and is not allocated by the count.
#[tactic(auto, using(wasm_base::proofs::DecodeVectors::vec_steps))]
fn read_items<'a, K: DecodesItems<'a, T, A, G>, T: Drop, A: Allocator + Copy, G: Grammar>(
    bytes: &'a [u8],
    alloc: A,
) -> Result<(Vec<T, A>, &'a [u8]), DecodeError>
    ensures found { IfOk result (λ x. Decodes (vec K.format) (padded_of G.grammar) bytes.now (map K.view x.0.items) x.1.now) }
    ensures none { IfErr result (λ e. e.cause ≢ Memory → Rejects (vec K.format) (padded_of G.grammar) bytes.now) }
{
    let (count, mut rest) = <u32 as Readable<'a, A, G>>::read(bytes, alloc)?;
    let mut items = Vec::new(alloc);
    K::unique();
    for _taken in 0..count {
        let (item, after) = K::read_item(rest, alloc)?;
        items.push(item)?;
        rest = after;
    }
    Ok((items, rest))
}

/// Decodes the payload of a section of this kind, including its name.
pub(crate) fn read_counted<
    'a,
    K: DecodesItems<'a, T, A, G>,
    T: Drop,
    A: Allocator + Copy,
    G: Grammar,
>(bytes: &'a [u8], alloc: A) -> Result<Vec<T, A>, DecodeError>
    ensures found { IfOk result (λ x. counted_payload K.name K.format (padded_of G.grammar) bytes.now (map K.view x.items)) }
    ensures none { IfErr result (λ e. e.cause ≢ Memory → RejectsWhole (counted_payload K.name K.format) (padded_of G.grammar) bytes.now) }
{
    K::unique();
    let rest = after_name::<A, G>(K::name(), bytes, alloc)?;
    let (items, left) = read_items::<'a, K, T, A, G>(rest, alloc)?;
    if left.is_empty() {
        Ok(items)
    } else {
        Err(ReadFault::SizeMismatch.at(left))
    }
}

/// Appends a count and the items.
#[tactic(auto, using(wasm_base::proofs::MinimalEncodings::no_members_appended))]
fn append_items<K: ItemsAs<T>, T, B: Allocator>(items: &[T], sink: &mut Vec<u8, B>) -> Result<()>
    ensures ok { OnOk result (AppendsMinimal both_grammars (vec K.format) (map K.view items.now) sink.old.items sink.new.items) }
    ensures front { IsFrontOf sink.old.items sink.new.items }
    ensures too_long { HasEncoding both_grammars (vec K.format) (map K.view items.now) → result ≢ Err TooLong }
{
    items.len().encode(sink)?;
    for item in items {
        K::append_item(item, sink)?;
    }
    Ok(())
}

/// Writes the bytes that [`append_counted`] appends. After an error, part of them may follow the
/// old bytes.
#[tactic(auto, using(crate::proofs::EntriesLaws::counted_encoded, crate::proofs::EntriesLaws::counted_name_encodable))]
fn write_counted<K: ItemsAs<T>, T, B: Allocator>(items: &[T], sink: &mut Vec<u8, B>) -> Result<()>
    ensures ok { OnOk result (AppendsMinimal both_grammars (counted_payload K.name K.format) (map K.view items.now) sink.old.items sink.new.items) }
    ensures front { IsFrontOf sink.old.items sink.new.items }
    ensures too_long { HasEncoding both_grammars (counted_payload K.name K.format) (map K.view items.now) → result ≢ Err TooLong }
{
    K::name().encode(sink)?;
    append_items::<K, T, _>(items, sink)
}

/// Appends the minimal encoding of the payload of a section of this kind with these items. On an
/// error, the sink is unchanged.
pub(crate) fn append_counted<K: ItemsAs<T>, T, B: Allocator>(
    items: &[T],
    sink: &mut Vec<u8, B>,
) -> Result<()>
    ensures ok { OnOk result (AppendsMinimal both_grammars (counted_payload K.name K.format) (map K.view items.now) sink.old.items sink.new.items) }
    ensures err { OnErr result (sink.new.items ≡ sink.old.items) }
    ensures too_long { HasEncoding both_grammars (counted_payload K.name K.format) (map K.view items.now) → result ≢ Err TooLong }
{
    let start = sink.len();
    let written = write_counted::<K, T, _>(items, sink);
    if written.is_err() {
        sink.truncate(start);
    }
    written
}
