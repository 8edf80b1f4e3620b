// Code metadata: the hints of functions, each an offset and a size-prefixed value.
ghost use Rattle.std.specs.Prelude.{◌≡◌, ◌≢◌, ◌+◌, ◌≤◌, ◌++◌, ◌<◌, ℕ, List, [], true, ⊤, length, vec_len, vec_capacity, IfOk, IfErr, IsOk, Err, OnOk, OnErr, take, drop};
ghost use Rattle.wasm_base.specs.Calls.{Appends};
ghost use Rattle.wasm_base.specs.Continuing.{RejectsWhole};
ghost use Rattle.wasm_base.specs.Encodings.{longest, size_prefixed_encoding, vec_encoding, HasEncodableSize};
ghost use Rattle.wasm_base.specs.Formats.{fixed, size_prefixed};
ghost use Rattle.wasm_base.specs.Iterators.{HasKnownLength};
ghost use Rattle.wasm_base.specs.Minimal.{both_grammars};
ghost use Rattle.wasm_base.specs.Numbers.{Mode, padded_of, unsigned_encoding};
ghost use Rattle.wasm_base.specs.Walks.{Keeps, WalksWhole};
ghost use Rattle.wasm_base.specs.declared.fault.ReadFault.TheVariants.{Memory};
ghost use Rattle.wasm_base.specs.declared.refused.Refused.TheVariants.{TooLong};
ghost use Rattle.wasm_custom.specs.Adding.{AddsList};
ghost use Rattle.wasm_custom.specs.CodeMetadata.{HintsIn, hints_in, hinted, hinted_encoding, hinted_items, hint_as, hints_as, PayloadLaws};

use crate::counted::{DecodesItems, ItemsAs};
use crate::entries::{CustomEntries, CustomKind};
use std::alloc::Allocator;
use std::marker::PhantomData;
use wasm_base::{
    DecodeError, Effect, Encode, Grammar, Kind, Layout, Readable, Result, Shorten, Store, Walk,
    vec_of,
};

/// The value of a hint, which occupies all of the hint's payload.
pub trait HintPayload: Drop {
    // The value, without its location in memory.
    ghost Value: { Type 0 };

    // The name of the section of such hints.
    ghost name: { List ℕ };

    // The format of the payload as a whole, and what well-formed values are.
    ghost format: { Mode → List ℕ → Value → Type 0 };

    ghost is_value: { Value → Type 0 };

    // The minimal encoding.
    ghost encoding: { Value → List ℕ };

    ghost view: { Self → Value };

    /// Returns the name of the section.
    fn section_name() -> &'static str
        ensures { result.now ≡ name };

    /// Proves that the format is unambiguous, and the encoding minimal. The function does nothing.
    fn payload_laws()
        ensures { PayloadLaws name format is_value encoding };

    /// Appends the payload, without its size prefix.
    fn append_payload<B: Allocator>(&self, sink: &mut Vec<u8, B>) -> Result<()>
        ensures { Appends (encoding (view self.now)) ⊤ sink.old sink.new result };
}

/// The value of a hint that can be decoded from its payload.
pub trait ReadPayload<'a, A: Allocator + Copy, G: Grammar>: HintPayload {
    /// Decodes the value that occupies all of the bytes, in the grammar `G`.
    fn read_payload(bytes: &'a [u8], alloc: A) -> Result<Self, DecodeError>
        ensures found { IfOk result (λ x. Self.format (padded_of G.grammar) bytes.now (Self.view x)) }
        ensures none { IfErr result (λ e. e.cause ≢ Memory → RejectsWhole Self.format (padded_of G.grammar) bytes.now) };
}

/// The value of a hint that can be walked over.
pub trait WalkPayload<G: Grammar>: HintPayload {
    /// Walks over the value that occupies all of the bytes, in the grammar `G`.
    fn walk_payload<'a, A: Allocator + Copy, E: Effect>(
        bytes: &'a [u8],
        alloc: A,
        effect: &mut E,
    ) -> Result<(), DecodeError>
        ensures found { OnOk result (WalksWhole E.seen G.grammar Self.format bytes.now effect.old effect.new) }
        ensures none { IfErr result (λ e. e.cause ≢ Memory → RejectsWhole Self.format (padded_of G.grammar) bytes.now) }
        ensures no_memory { IfErr result (λ e. e.cause ≡ Memory → E.may_fail) }
        ensures front { Keeps E.seen effect.old effect.new };
}

/// A hint: an offset in a function, and a value.
#[derive(Debug, Drop)]
pub struct CodeHint<T> {
    /// The offset in the raw body of the function, in bytes.
    pub offset: u32,
    /// The value, such as an [`InstructionFrequency`](crate::InstructionFrequency).
    pub value: T,
}

/// Inserts the size of the bytes from `start` on before them.
fn prefix_size<B: Allocator>(sink: &mut Vec<u8, B>, start: usize) -> Result<()>
    requires { start ≤ vec_len sink.old }
    ensures sized { OnOk result (sink.new.items ≡ take start sink.old.items ++ size_prefixed_encoding (drop start sink.old.items)) }
    ensures was_encodable { OnOk result (HasEncodableSize (drop start sink.old.items)) }
    ensures err { OnErr result (sink.new.items ≡ sink.old.items) }
    ensures too_long { HasEncodableSize (drop start sink.old.items) → result ≢ Err TooLong }
    ensures spare { HasEncodableSize (drop start sink.old.items)
        → vec_len sink.old + length (unsigned_encoding (length (drop start sink.old.items))) ≤ vec_capacity sink.old
        → IsOk result }
    ensures capacity { vec_capacity sink.old ≤ vec_capacity sink.new }
{
    let size = sink.len() - start;
    size.encode(sink)?;
    sink[start..].rotate_left(size);
    Ok(())
}

/// A borrowed value that is encoded with its size prefix.
#[derive(Drop)]
struct SizedValue<'a, T>(&'a T);

impl<T: HintPayload> Encode for SizedValue<'_, T> {
    ghost encoding = { λ s. size_prefixed_encoding (T.encoding (T.view s.0.now)) };

    ghost encodable = { λ s. HasEncodableSize (T.encoding (T.view s.0.now)) };

    fn encode<A: Allocator>(&self, sink: &mut Vec<u8, A>) -> Result<()> {
        let start = sink.len();
        self.0.append_payload(sink)?;
        if let Err(refused) = prefix_size(sink, start) {
            sink.truncate(start);
            return Err(refused);
        }
        Ok(())
    }
}

/// Encodes the offset, and the value with its size prefix.
impl<T: HintPayload> Encode for CodeHint<T> {
    ghost encoding = { λ h. hinted_encoding T.encoding (h.offset, T.view h.value) };

    ghost encodable = { λ h. HasEncodableSize (T.encoding (T.view h.value)) };

    fn encode<A: Allocator>(&self, sink: &mut Vec<u8, A>) -> Result<()> {
        (self.offset, SizedValue(&self.value)).encode(sink)
    }
}

/// A decoded value with its size prefix.
#[derive(Debug, Drop)]
pub(crate) struct Payload<T>(pub T);

impl<T: HintPayload> Layout for Payload<T> {
    ghost Value = { T.Value };

    ghost format = { size_prefixed T.format };

    ghost view = { λ p. T.view p.0 };

    #[tactic(auto, using(crate::proofs::MetadataLaws::payload_unambiguous))]
    fn laws() {
        T::payload_laws();
    }
}

impl<'a, A: Allocator + Copy, G: Grammar, T: ReadPayload<'a, A, G>> Readable<'a, A, G>
    for Payload<T> {
    #[tactic(auto, using(wasm_base::proofs::DecodeSizePrefixed::filled_steps))]
    fn read(bytes: &'a [u8], alloc: A) -> Result<(Payload<T>, &'a [u8]), DecodeError> {
        let (content, rest) = <&'a [u8] as Readable<'a, A, G>>::read(bytes, alloc)?;
        match T::read_payload(content, alloc) {
            Ok(value) => Ok((Payload(value), rest)),
            Err(error) => Err(error.before(rest)),
        }
    }
}

/// Walks over the payload, and then inserts its size.
impl<G: Grammar, T: WalkPayload<G>> Walk<G> for Payload<T> {
    #[tactic(auto, using(wasm_base::proofs::WalkLaws::sized_steps, wasm_base::proofs::DecodeSizePrefixed::filled_steps))]
    fn walk<'a, A: Allocator + Copy, E: Effect>(
        bytes: &'a [u8],
        alloc: A,
        effect: &mut E,
    ) -> Result<&'a [u8], DecodeError> {
        let (content, rest) = <&'a [u8] as Readable<'a, A, G>>::read(bytes, alloc)?;
        T::payload_laws();
        let start = effect.position();
        match T::walk_payload(content, alloc, effect) {
            Ok(()) => {}
            Err(error) => return Err(error.before(rest)),
        }
        effect.prefix_size(start)?;
        Ok(rest)
    }
}

impl<T: HintPayload> Layout for CodeHint<T> {
    ghost Value = { ℕ × T.Value };

    ghost format = { hinted T.format };

    ghost view = { hint_as T.view };

    #[tactic(auto, using(crate::proofs::MetadataLaws::hinted_unambiguous))]
    fn laws() {
        T::payload_laws();
    }
}

impl<'a, A: Allocator + Copy, G: Grammar, T: ReadPayload<'a, A, G>> Readable<'a, A, G>
    for CodeHint<T> {
    fn read(bytes: &'a [u8], alloc: A) -> Result<(CodeHint<T>, &'a [u8]), DecodeError> {
        let ((offset, Payload(value)), rest) = <(u32, Payload<T>) as Readable<'a, A, G>>::read(
            bytes, alloc,
        )?;
        Ok((CodeHint { offset, value }, rest))
    }
}

impl<G: Grammar, T: WalkPayload<G>> Walk<G> for CodeHint<T> {
    fn walk<'a, A: Allocator + Copy, E: Effect>(
        bytes: &'a [u8],
        alloc: A,
        effect: &mut E,
    ) -> Result<&'a [u8], DecodeError> {
        <(u32, Payload<T>) as Walk<G>>::walk(bytes, alloc, effect)
    }
}

impl<T: HintPayload> Shorten for CodeHint<T> {
    ghost grammars = { both_grammars };

    #[tactic(auto, using(crate::proofs::MetadataLaws::hint_steps))]
    fn write_minimal<B: Allocator>(&self, sink: &mut Vec<u8, B>) -> Result<()> {
        T::payload_laws();
        self.encode(sink)
    }
}

/// The kind of the items of a code metadata section: the hints of one function each, of values `T`.
#[derive(Debug, Drop)]
pub struct HintsOf<T>(PhantomData<T>);

impl<T: HintPayload> Kind for HintsOf<T> {
    ghost Record = { HintsIn (ℕ × T.Value) };

    ghost Item = { HintsIn (ℕ × T.Value) };

    ghost kind = { hinted_items T.format T.is_value T.encoding };

    #[tactic(auto, using(crate::proofs::MetadataLaws::hinted_laws))]
    fn laws() {
        T::payload_laws();
    }
}

impl<T: HintPayload> CustomKind for HintsOf<T> {
    ghost name = { T.name };

    ghost front = { [] };

    ghost front_format = { fixed [] (tt {0}) };

    ghost counted = { true };

    fn name() -> &'static str {
        T::section_name()
    }

    fn front() -> &'static [u8] {
        &[]
    }

    fn counted() -> bool {
        true
    }

    #[tactic(auto, using(crate::proofs::MetadataLaws::hinted_layout))]
    fn layout_laws() {
        T::payload_laws();
    }
}

impl<T: HintPayload, S: Store> CustomEntries<HintsOf<T>, S> {
    /// Adds the hints of a function.
    ///
    /// If there are more than 4294967295 hints, the call returns `TooLong` and requests none of
    /// them, as tests show.
    pub fn function_hints<H: IntoIterator<Item = CodeHint<T>>>(
        &mut self,
        func: u32,
        hints: H,
    ) -> Result<()>
    where
        H::IntoIter: ExactSizeIterator + Drop,
        requires { HasKnownLength H.into_iter_gives H.IntoIter.can_next H.IntoIter.next_gives H.IntoIter.remaining hints }
        ensures { AddsList S.model H.into_iter_gives H.IntoIter.next_gives H.IntoIter.remaining hints (λ h. HasEncodableSize (T.encoding (T.view h.value))) (λ items. unsigned_encoding func ++ vec_encoding (λ h. hinted_encoding T.encoding (h.offset, T.view h.value)) items) self.old self.new result }
    {
        let hints = vec_of(hints)?;
        self.add_once((func, hints))
    }
}

impl<T: HintPayload, A: Allocator> ItemsAs<(u32, Vec<CodeHint<T>, A>)> for HintsOf<T> {
    ghost Said = { HintsIn (ℕ × T.Value) };

    ghost format = { hints_in (hinted T.format) };

    ghost view = { hints_as T.view };

    #[tactic(auto, using(crate::proofs::MetadataLaws::hints_in_unambiguous, crate::proofs::MetadataLaws::hinted_unambiguous))]
    fn unique() {
        T::payload_laws();
    }

    fn append_item<B: Allocator>(
        item: &(u32, Vec<CodeHint<T>, A>),
        sink: &mut Vec<u8, B>,
    ) -> Result<()> {
        item.write_minimal(sink)
    }
}

impl<'a, A: Allocator + Copy, G: Grammar, T: ReadPayload<'a, A, G>> DecodesItems<
    'a,
    (u32, Vec<CodeHint<T>, A>),
    A,
    G,
> for HintsOf<T> {
    fn read_item(
        bytes: &'a [u8],
        alloc: A,
    ) -> Result<((u32, Vec<CodeHint<T>, A>), &'a [u8]), DecodeError> {
        <(u32, Vec<CodeHint<T>, A>) as Readable<'a, A, G>>::read(bytes, alloc)
    }
}
