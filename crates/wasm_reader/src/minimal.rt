// Minimizes sections.
ghost use Rattle.std.specs.Prelude.{◌≡◌, ◌≢◌, Err, IfOk, IfErr, OnOk, OnErr};
ghost use Rattle.wasm_base.specs.Continuing.{RejectsWhole};
ghost use Rattle.wasm_base.specs.Numbers.{padded, padded_of};
ghost use Rattle.wasm_base.specs.Decoding.{Rejects};
ghost use Rattle.wasm_base.specs.Minimal.{Minimizes, MinimizesWhole, IsFrontOf};
ghost use Rattle.wasm_base.specs.declared.fault.ReadFault.TheVariants.{Memory};
ghost use Rattle.wasm_base.specs.declared.refused.Refused.TheVariants.{TooLong};
ghost use Rattle.wasm_reader.specs.Kinds.{content, contents_of};
ghost use Rattle.wasm_reader.specs.Sections.{section, AppendsContentIn, HasContentIn, Shortens, ShortensIn};

use crate::kinds::{Items, SectionKind, encode_items};
use crate::walk::walk_content;
use std::alloc::Allocator;
use wasm_base::{
    DecodeError, Grammar, Padded, ReadFault, Readable, Refused, Result as Written,
    prefix_size_since,
};

/// Minimizes the payload of a section of this kind. No list of items is kept.
#[tactic(auto, using(wasm_base::proofs::EffectLaws::appending))]
pub(crate) fn minimize_content<A: Allocator + Copy, G: Grammar, B: Allocator>(
    kind: SectionKind,
    bytes: &[u8],
    alloc: A,
    sink: &mut Vec<u8, B>,
) -> Result<(), DecodeError>
    ensures found { OnOk result (MinimizesWhole G.grammar (content kind) bytes.now sink.old.items sink.new.items) }
    ensures front { IsFrontOf sink.old.items sink.new.items }
    ensures none { IfErr result (λ e. e.cause ≢ Memory → RejectsWhole (content kind) (padded_of G.grammar) bytes.now) }
{
    walk_content::<A, G, _>(kind, bytes, alloc, sink)
}

/// Minimizes the section at the front, without its id, and returns the remaining bytes.
#[tactic(auto, using(wasm_base::proofs::EffectLaws::sized_minimizes, wasm_base::proofs::MinimalEncodings::front_steps))]
fn minimize_section<'a, A: Allocator + Copy, G: Grammar, B: Allocator>(
    kind: SectionKind,
    bytes: &'a [u8],
    alloc: A,
    sink: &mut Vec<u8, B>,
) -> Result<&'a [u8], DecodeError>
    ensures found { IfOk result (λ rest. Minimizes G.grammar (section kind) bytes.now rest.now sink.old.items sink.new.items) }
    ensures front { IsFrontOf sink.old.items sink.new.items }
    ensures none { IfErr result (λ e. e.cause ≢ Memory → Rejects (section kind) (padded_of G.grammar) bytes.now) }
{
    let (payload, rest) = <&'a [u8] as Readable<'a, A, G>>::read(bytes, alloc)?;
    let start = sink.len();
    minimize_content::<A, G, _>(kind, payload, alloc, sink)?;
    prefix_size_since(sink, start)?;
    Ok(rest)
}

/// Appends the minimal encoding of the section at the front, and returns the section's length in
/// the input, in bytes. Both are without the section's id. On an error, the bytes of the sink are
/// unchanged. Items are decoded one by one, and not kept.
///
/// In a code section that becomes shorter, instructions move. Offsets into it that are kept
/// elsewhere are then wrong: relocations, debugging information, branch hints and source maps.
///
/// ```text
/// let padded = [0x86, 0x00, 0x01, 0x85, 0x80, 0x80, 0x80, 0x00];
/// let taken = shorten(SectionKind::Functions, &padded, &mut sink)?;
/// // 02 01 05 was appended, and 8 bytes were taken
/// ```
///
/// # Errors
///
/// Every error except `Memory` means that the bytes do not begin with such a section.
pub fn shorten<A: Allocator + Copy>(
    kind: SectionKind,
    bytes: &[u8],
    sink: &mut Vec<u8, A>,
) -> Result<usize, ReadFault>
    ensures ok { IfOk result (λ n. Shortens kind bytes.now n sink.old.items sink.new.items) }
    ensures err { OnErr result (sink.new.items ≡ sink.old.items) }
    ensures none { IfErr result (λ e. e ≢ Memory → Rejects (section kind) padded bytes.now) }
{
    shorten_in::<A, Padded, _>(*sink.allocator(), kind, bytes, sink)
}

/// Does what [`shorten`] does, in a grammar and with another allocator for decoded items.
pub(crate) fn shorten_in<A: Allocator + Copy, G: Grammar, B: Allocator>(
    alloc: A,
    kind: SectionKind,
    bytes: &[u8],
    sink: &mut Vec<u8, B>,
) -> Result<usize, ReadFault>
    ensures ok { IfOk result (λ n. ShortensIn G.grammar kind bytes.now n sink.old.items sink.new.items) }
    ensures err { OnErr result (sink.new.items ≡ sink.old.items) }
    ensures none { IfErr result (λ e. e ≢ Memory → Rejects (section kind) (padded_of G.grammar) bytes.now) }
{
    let start = sink.len();
    match minimize_section::<A, G, _>(kind, bytes, alloc, sink) {
        Ok(rest) => Ok(bytes.len() - rest.len()),
        Err(error) => {
            sink.truncate(start);
            Err(error.cause())
        }
    }
}

/// Appends the minimal encoding, in the grammar `G`, of a section's payload with these items. On an
/// error, the sink is unchanged.
///
/// In the standard's grammar no encoding of the items is shorter. [`encode_items`] writes types,
/// instructions and flags as builders do, and all else alike.
///
/// The call promises this for items to which some bytes decode in `G` or in the builders' grammar.
/// Code that only the standard's grammar has is an exception at 2^31 bytes: builders may need twice
/// as many, and encode no body of 2^32.
///
/// ```text
/// // A table of `anyref`: 6E, where `encode_items` writes 63 6E
/// encode_items_in::<Standard, _, _, _>(alloc, &Items::Tables(tables), &mut payload)?;
/// ```
///
/// # Errors
///
/// Returns `TooLong` only for items of which the call promises nothing. Returns `Memory` if an
/// allocation fails.
#[tactic(auto, using(wasm_base::proofs::MinimalEncodings::cut_off))]
pub fn encode_items_in<G: Grammar, A: Allocator, B: Allocator, C: Allocator + Copy>(
    alloc: C,
    items: &Items<'_, A>,
    sink: &mut Vec<u8, B>,
) -> Written<()>
    ensures ok { OnOk result (AppendsContentIn G.grammar (contents_of items.now) sink.old.items sink.new.items) }
    ensures err { OnErr result (sink.new.items ≡ sink.old.items) }
    ensures too_long { HasContentIn G.grammar (contents_of items.now) → result ≢ Err TooLong }
{
    let mut written = Vec::new(alloc);
    encode_items(items, &mut written)?;
    let start = sink.len();
    match minimize_content::<C, G, _>(items.kind(), &written, alloc, sink) {
        Ok(()) => Ok(()),
        Err(error) => {
            sink.truncate(start);
            Err(refusal_of(error.cause()))
        }
    }
}

/// Returns why items are not encoded whose encoding by builders does not decode.
fn refusal_of(cause: ReadFault) -> Refused
    ensures memory { cause ≡ Memory → result ≡ Refused.Memory }
    ensures other { cause ≢ Memory → result ≡ TooLong }
{
    if cause == ReadFault::Memory {
        Refused::Memory
    } else {
        Refused::TooLong
    }
}
