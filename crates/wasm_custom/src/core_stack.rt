// The stack section of a core dump: its builder, its reader and its minimizer.
ghost use Rattle.std.specs.Prelude.{◌≡◌, ◌≢◌, ℕ, List, ◌∷◌, ◌++◌, IfOk, true, ⊤, IfErr, Err, OnOk, OnErr, map};
ghost use Rattle.wasm_base.specs.Calls.{DecodesBack};
ghost use Rattle.wasm_base.specs.Cow.{items_of, utf8_of};
ghost use Rattle.wasm_base.specs.Continuing.{RejectsWhole};
ghost use Rattle.wasm_base.specs.Iterators.{HasKnownLength};
ghost use Rattle.wasm_base.specs.Numbers.{unsigned_encoding, padded_of};
ghost use Rattle.wasm_base.specs.Encodings.{HasEncodableSize, vec_encoding};
ghost use Rattle.wasm_base.specs.declared.refused.Refused.TheVariants.{TooLong};
ghost use Rattle.wasm_custom.specs.Adding.{AddsTwoLists};
ghost use Rattle.wasm_custom.specs.CoreDumps.{marked_encoding};
ghost use Rattle.wasm_custom.specs.CoreStacks.{frame_items, stack_name, stack_section, SaysStackIn, StackFrame, stack_frame, stack_frame_view, stack_payload};
ghost use Rattle.wasm_custom.specs.CoreValues.{value_encoding};
ghost use Rattle.wasm_custom.specs.Customs.{named_encoding, IsEncodableNamed};
ghost use Rattle.wasm_custom.specs.Entries.{joined_data};
ghost use Rattle.wasm_base.specs.Minimal.{AppendsMinimal, IsFrontOf, HasEncoding, both_grammars};
ghost use Rattle.wasm_base.specs.declared.fault.ReadFault.TheVariants.{Memory};

use crate::core_dumps::append_marked;
use crate::core_values::CoreDumpValue;
use crate::custom_section::CustomSection;
use crate::entries::{data_of, encode_entries};
use crate::marked::read_marked;
use crate::named::after_name;
use std::alloc::{Allocator, Global};
use std::marker::Model;
use wasm_base::{
    CowSlice, CowStr, DecodeError, Encode, Grammar, ItemsOf, Kind, Layout, NewStore, Pieces,
    Readable, Result, Section, SectionId, Shorten, Store, read_whole, vec_of,
};

/// The `corestack` section of a thread: the frames of its stack.
///
/// ```rust
/// let mut stack = CoreDumpStackSection::new(alloc, "main")?;
/// stack.frame(0, 42, 51, [CoreDumpValue::I32(1)], [CoreDumpValue::Missing])?;
/// ```
pub type CoreDumpStackSection<A = Global> = CoreDumpStackIn<Pieces<A>>;

/// The kind of a stack's items: frames.
#[derive(Clone, Copy, Debug)]
pub struct FrameItems;

impl Kind for FrameItems {
    ghost Record = { StackFrame };

    ghost Item = { StackFrame };

    ghost kind = { frame_items };

    #[tactic(auto, using(crate::proofs::CoreStackLaws::stack_frame_laws))]
    fn laws() {}
}

/// The `corestack` section of a thread, modelled as the bytes before its stack frames and the store
/// of the frames. The former are the byte 00 and the name of the thread.
///
/// # Errors
///
/// An adding call that returns an error leaves the section unchanged. The error is `TooLong` only
/// if the section is full or an item does not fit, and `Memory` only if an allocation fails.
#[derive(Drop, Debug)]
pub struct CoreDumpStackIn<E: Store = Pieces> {
    front: Vec<u8, E::Alloc>,
    frames: E,
}

impl<E: Store> Model for CoreDumpStackIn<E> {
    ghost Value = { List ℕ × E };

    ghost view = { λ s. (s.front.items, s.frames) };
}

impl<A: Allocator + Copy, E: NewStore<Alloc = A>> CoreDumpStackIn<E> {
    /// Returns the stack of the thread of this name, without frames.
    pub fn new(alloc: A, thread_name: &str) -> Result<Self>
        ensures is { IfOk result (λ s. s ≡ (marked_encoding thread_name.now, E.none)) }
        ensures was_encodable { IfOk result (λ _. HasEncodableSize thread_name.now) }
        ensures too_long { HasEncodableSize thread_name.now → result ≢ Err TooLong }
    {
        let mut front = Vec::new(alloc);
        (0x00u8, thread_name).encode(&mut front)?;
        Ok(CoreDumpStackIn {
            front,
            frames: E::new_in(alloc),
        })
    }

    /// Returns the same stack, in memory of its own.
    pub fn clone(&self) -> Result<Self>
        ensures same { IfOk result (λ s. s ≡ self.now) }
        ensures memory { result ≢ Err TooLong }
    {
        Ok(CoreDumpStackIn {
            front: Vec::from_slice(*self.front.allocator(), &self.front)?,
            frames: self.frames.copy()?,
        })
    }
}

impl<E: Store> CoreDumpStackIn<E> {
    /// Adds a stack frame: its instance and function, the offset in the function, its locals, and
    /// its operand stack.
    ///
    /// If there are more than 4294967295 values in either list, the call returns `TooLong` and
    /// requests none of either, as tests show.
    pub fn frame<
        L: IntoIterator<Item = CoreDumpValue>,
        S: IntoIterator<Item = CoreDumpValue> + Drop,
    >(&mut self, instanceidx: u32, funcidx: u32, codeoffset: u32, locals: L, stack: S) -> Result<()>
    where
        L::IntoIter: ExactSizeIterator + Drop,
        S::IntoIter: ExactSizeIterator + Drop,
        requires locals { HasKnownLength L.into_iter_gives L.IntoIter.can_next L.IntoIter.next_gives L.IntoIter.remaining locals }
        requires stack { HasKnownLength S.into_iter_gives S.IntoIter.can_next S.IntoIter.next_gives S.IntoIter.remaining stack }
        ensures adds { AddsTwoLists E.model L.into_iter_gives L.IntoIter.next_gives L.IntoIter.remaining locals S.into_iter_gives S.IntoIter.next_gives S.IntoIter.remaining stack (λ _. ⊤) (λ _. ⊤)
            (λ xs ys. (0x00 ∷ (unsigned_encoding instanceidx ++ (unsigned_encoding funcidx ++ unsigned_encoding codeoffset))) ++ (vec_encoding value_encoding xs ++ vec_encoding value_encoding ys)) self.old.1 self.new.1 result }
        ensures same_thread { self.new.0 ≡ self.old.0 }
    {
        let locals = vec_of(locals)?;
        let stack = vec_of(stack)?;
        let place = (instanceidx, funcidx, codeoffset);
        self.frames.add_item_once(((0x00u8, place), locals, stack))
    }

    /// Returns the section as a custom section, which owns a copy of the data.
    pub fn as_custom<B: Allocator>(&self, alloc: B) -> Result<CustomSection<'_, B>>
        ensures same { IfOk result (λ s. (utf8_of s.name ≡ stack_name) × (items_of s.bytes ≡ joined_data self.now.0 true (E.model.joins self.now.1))) }
        ensures memory { result ≢ Err TooLong }
    {
        let data = data_of(alloc, &self.front, true, &self.frames)?;
        Ok(CustomSection {
            name: CowStr::Borrowed("corestack"),
            bytes: CowSlice::Owned(data),
        })
    }
}

/// Encodes the size prefix, the name of the section, and the data: the name of the thread, the
/// number of frames, and the frames.
impl<E: Store> Encode for CoreDumpStackIn<E> {
    ghost encoding = { λ s. named_encoding stack_name (joined_data s.0 true (E.model.joins s.1)) };

    ghost encodable = { λ s. IsEncodableNamed stack_name (joined_data s.0 true (E.model.joins s.1)) };

    ghost decoding = { λ s. DecodesBack stack_section (SaysStackIn E.model s.0 s.1) (named_encoding stack_name (joined_data s.0 true (E.model.joins s.1))) };

    fn encode<B: Allocator>(&self, sink: &mut Vec<u8, B>) -> Result<()> {
        self.frames.cut::<ItemsOf<FrameItems>>();
        encode_entries(sink, "corestack", &self.front, true, &self.frames)
    }
}

impl<E: Store> Section for CoreDumpStackIn<E> {
    ghost use Rattle.wasm_base.specs.SectionId.{number_of};
    ghost use Rattle.wasm_base.specs.declared.section_id.SectionId.TheVariants as ids;
    ghost use Rattle.wasm_custom.specs.CoreStacks.{StackFrame, stack_name, stack_section, SaysStackIn};
    ghost use Rattle.wasm_custom.specs.Customs.{NamedPayload, named_sized};
    ghost use Rattle.wasm_custom.specs.Entries.{joined_data};

    ghost id_of = { λ _. number_of ids.Custom };

    ghost Items = { List ℕ × List StackFrame };

    ghost format = { stack_section };

    ghost says = { λ s. SaysStackIn E.model s.0 s.1 };

    ghost payload = { λ s. NamedPayload stack_name (joined_data s.0 true (E.model.joins s.1)) };

    fn id(&self) -> u8 {
        SectionId::Custom.into()
    }

    ghost sized = { λ s bytes encodable pays. named_sized stack_name (joined_data s.0 true (E.model.joins s.1)) bytes encodable pays };

    ghost decodes_back = { λ s promised. promised };
}

/// A decoded stack frame.
#[derive(Debug, Drop)]
pub struct CoreFrame<A: Allocator = Global> {
    pub instanceidx: u32,
    pub funcidx: u32,
    /// The offset in the function.
    pub codeoffset: u32,
    pub locals: Vec<CoreDumpValue, A>,
    pub stack: Vec<CoreDumpValue, A>,
}

impl<A: Allocator> Layout for CoreFrame<A> {
    ghost Value = { StackFrame };

    ghost format = { stack_frame };

    ghost view = { stack_frame_view };

    #[tactic(auto, using(crate::proofs::CoreStackLaws::stack_frame_unambiguous))]
    fn laws() {}
}

impl<'a, A: Allocator + Copy, G: Grammar> Readable<'a, A, G> for CoreFrame<A> {
    #[tactic(auto, using(crate::proofs::CoreStackLaws::frame_steps))]
    fn read(bytes: &'a [u8], alloc: A) -> Result<(CoreFrame<A>, &'a [u8]), DecodeError> {
        let ((instanceidx, (funcidx, codeoffset)), rest) = read_marked::<
            'a,
            (u32, (u32, u32)),
            A,
            G,
        >(0x00, bytes, alloc)?;
        let (locals, rest) = <Vec<CoreDumpValue, A> as Readable<'a, A, G>>::read(rest, alloc)?;
        let (stack, rest) = <Vec<CoreDumpValue, A> as Readable<'a, A, G>>::read(rest, alloc)?;
        let frame = CoreFrame {
            instanceidx,
            funcidx,
            codeoffset,
            locals,
            stack,
        };
        Ok((frame, rest))
    }
}

/// Decodes the payload of a stack section, in the grammar `G`: the name of the thread, and the
/// frames of its stack.
///
/// # Errors
///
/// Every error except `Memory` means that the bytes are not such a payload.
#[tactic(auto, using(crate::proofs::CoreStackLaws::stack_steps))]
pub fn read_stack<'a, A: Allocator + Copy, G: Grammar>(
    bytes: &'a [u8],
    alloc: A,
) -> Result<(&'a str, Vec<CoreFrame<A>, A>), DecodeError>
    ensures found { IfOk result (λ x. stack_payload (padded_of G.grammar) bytes.now (x.0.now, map stack_frame_view x.1.items)) }
    ensures none { IfErr result (λ e. e.cause ≢ Memory → RejectsWhole stack_payload (padded_of G.grammar) bytes.now) }
{
    let rest = after_name::<A, G>("corestack", bytes, alloc)?;
    let (thread, rest) = read_marked::<'a, &'a str, A, G>(0x00, rest, alloc)?;
    let frames = read_whole::<'a, Vec<CoreFrame<A>, A>, A, G>(rest, alloc)?;
    Ok((thread, frames))
}

impl<A: Allocator> Shorten for CoreFrame<A> {
    ghost grammars = { both_grammars };

    #[tactic(auto, using(crate::proofs::CoreStackLaws::frame_appended, crate::proofs::CoreStackLaws::locals_encodable, crate::proofs::CoreStackLaws::stack_encodable))]
    fn write_minimal<B: Allocator>(&self, sink: &mut Vec<u8, B>) -> Result<()> {
        0x00u8.encode(sink)?;
        self.instanceidx.write_minimal(sink)?;
        self.funcidx.write_minimal(sink)?;
        self.codeoffset.write_minimal(sink)?;
        self.locals.as_slice().encode(sink)?;
        self.stack.as_slice().encode(sink)
    }
}

/// Writes the bytes that [`append_stack`] appends. After an error, part of them may follow the old
/// bytes.
#[tactic(auto, using(crate::proofs::CoreStackLaws::stack_appended, crate::proofs::CoreStackLaws::thread_encoded, crate::proofs::CoreStackLaws::frames_encoded))]
fn write_stack<A: Allocator, B: Allocator>(
    thread: &str,
    frames: &Vec<CoreFrame<A>, A>,
    sink: &mut Vec<u8, B>,
) -> Result<()>
    ensures ok { OnOk result (AppendsMinimal both_grammars stack_payload (thread.now, map stack_frame_view frames.now.items) sink.old.items sink.new.items) }
    ensures front { IsFrontOf sink.old.items sink.new.items }
    ensures too_long { HasEncoding both_grammars stack_payload (thread.now, map stack_frame_view frames.now.items) → result ≢ Err TooLong }
{
    "corestack".encode(sink)?;
    append_marked(thread, sink)?;
    frames.write_minimal(sink)
}

/// Appends the minimal encoding of the payload of the section of this stack. On an error, the sink
/// is unchanged.
pub fn append_stack<A: Allocator, B: Allocator>(
    thread: &str,
    frames: &Vec<CoreFrame<A>, A>,
    sink: &mut Vec<u8, B>,
) -> Result<()>
    ensures ok { OnOk result (AppendsMinimal both_grammars stack_payload (thread.now, map stack_frame_view frames.now.items) sink.old.items sink.new.items) }
    ensures err { OnErr result (sink.new.items ≡ sink.old.items) }
    ensures too_long { HasEncoding both_grammars stack_payload (thread.now, map stack_frame_view frames.now.items) → result ≢ Err TooLong }
{
    let start = sink.len();
    let written = write_stack(thread, frames, sink);
    if written.is_err() {
        sink.truncate(start);
    }
    written
}
