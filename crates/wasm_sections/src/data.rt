// The data section: its builder and its reader.
ghost use Rattle.std.specs.Prelude.{◌≡◌, ◌≢◌, ℕ, List, ◌++◌, IfOk, ⊤, IfErr, Err, OnOk, map};
ghost use Rattle.std.specs.Bool.{Decides};
ghost use Rattle.wasm_base.specs.Calls.{AddsTo};
ghost use Rattle.wasm_base.specs.Formats.{byte, pair, vec};
ghost use Rattle.wasm_base.specs.Continuing.{RejectsWhole};
ghost use Rattle.wasm_base.specs.Iterators.{HasKnownLength};
ghost use Rattle.wasm_base.specs.Numbers.{padded_of};
ghost use Rattle.wasm_base.specs.Decoding.{Unambiguous};
ghost use Rattle.wasm_base.specs.Encodings.{size_prefixed_encoding};
ghost use Rattle.wasm_base.specs.declared.refused.Refused.TheVariants.{TooLong};
ghost use Rattle.wasm_code.specs.Expressions.{expression};
ghost use Rattle.wasm_base.specs.Minimal.{AppendsMinimal, IsFrontOf, HasEncoding, builders_alone};
ghost use Rattle.wasm_base.specs.declared.fault.ReadFault.TheVariants.{Memory};
ghost use Rattle.wasm_sections.specs.Constants.{instructions_view};
ghost use Rattle.wasm_immediates.specs.ImmediateFormats.{HasIndex};
ghost use Rattle.wasm_sections.specs.DataSegments.{data_items, DataItem, active, data_item, segment_view};

use crate::counted_section::{CountedSection, ItemKind};
use std::alloc::{Allocator, Global};
use wasm_base::{
    DecodeError, Encode, Grammar, Kind, Layout, Lent, Pieces, ReadFault, Readable, Result,
    SectionId, Shorten, Store, bytes_of, encode_size_prefixed, read_whole,
};
use wasm_code::{ConstExpr, Expression};

/// The data section: segments of bytes that a module copies to memories.
///
/// ```rust
/// let mut data = DataSection::new(alloc);
/// data.active(0, &ConstExpr::i32_const(alloc, 42)?, b"hello".iter().copied())?;
/// data.passive(bytes)?;
/// module.section(&data)?;
/// ```
pub type DataSection<A = Global> = CountedSection<DataItems, Pieces<A>>;

/// The kind of a data section's items: segments of bytes.
#[derive(Clone, Copy, Debug)]
pub struct DataItems;

/// The mode of a data segment: when its bytes are copied to a memory.
#[derive(Drop, Debug)]
pub enum DataSegmentMode<'a, A: Allocator = Global> {
    /// The bytes are copied when the module is instantiated.
    Active {
        memory_index: u32,
        /// Computes the offset of the first byte in the memory.
        offset: &'a ConstExpr<A>,
    },
    /// The bytes are copied by an instruction `MemoryInit`.
    Passive,
}

/// A data segment, whose bytes an iterator yields.
#[derive(Drop, Debug)]
pub struct DataSegment<'a, D, A: Allocator = Global> {
    pub mode: DataSegmentMode<'a, A>,
    pub bytes: D,
}

impl<'a, A: Allocator> DataSegmentMode<'a, A> {
    /// Returns the same mode.
    pub fn clone(&self) -> Result<Self>
        ensures same { IfOk result (λ mode. mode ≡ self.now) }
        ensures memory { result ≢ Err TooLong }
    {
        Ok(match self {
            DataSegmentMode::Active {
                memory_index,
                offset,
            } => DataSegmentMode::Active {
                memory_index: *memory_index,
                offset,
            },
            DataSegmentMode::Passive => DataSegmentMode::Passive,
        })
    }
}

impl<'a, D: Clone, A: Allocator> DataSegment<'a, D, A> {
    /// Returns the same segment: its mode, and a clone of its bytes.
    pub fn clone(&self) -> Result<Self>
        ensures mode { IfOk result (λ segment. segment.mode ≡ self.now.mode) }
        ensures bytes { IfOk result (λ segment. D.is_clone self.now.bytes segment.bytes) }
        ensures memory { result ≢ Err TooLong }
    {
        Ok(DataSegment {
            mode: self.mode.clone()?,
            bytes: self.bytes.clone()?,
        })
    }
}

impl Kind for DataItems {
    ghost use Rattle.wasm_sections.specs.DataSegments.{GivenData};

    ghost Record = { GivenData };

    ghost Item = { DataItem };

    ghost kind = { data_items };

    #[tactic(auto, using(crate::proofs::DataLaws::data_laws))]
    fn laws() {}
}

impl ItemKind for DataItems {
    ghost use Rattle.wasm_base.specs.SectionId.{number_of};
    ghost use Rattle.wasm_base.specs.declared.section_id.SectionId.TheVariants as ids;

    ghost section_id = { number_of ids.Data };

    fn id() -> u8 {
        SectionId::Data.into()
    }
}

/// Adding calls. A segment is a flag, the memory if it is not 0, the offset of an active segment,
/// and the bytes. Core specification, Binary Format, Modules, Data Section.
impl<S: Store> CountedSection<DataItems, S> {
    ghost use Rattle.wasm_sections.specs.DataSegments.{segment_encoding, active_encoding, passive_encoding, AddsBytes};

    /// Adds a segment.
    ///
    /// If there are more than 4294967295 bytes, the call returns `TooLong` and requests none of
    /// them, as tests show.
    pub fn segment<D: IntoIterator<Item = u8>, B: Allocator>(
        &mut self,
        segment: DataSegment<'_, D, B>,
    ) -> Result<()>
    where
        D::IntoIter: ExactSizeIterator + Drop,
        requires { HasKnownLength D.into_iter_gives D.IntoIter.can_next D.IntoIter.next_gives D.IntoIter.remaining segment.bytes }
        ensures { AddsBytes S.model D.into_iter_gives D.IntoIter.next_gives D.IntoIter.remaining segment.entry.bytes (segment_encoding segment.entry.mode) self.old self.new result }
    {
        let DataSegment { mode, bytes } = segment;
        match mode {
            DataSegmentMode::Active {
                memory_index,
                offset,
            } => self.active(memory_index, offset, bytes),
            DataSegmentMode::Passive => self.passive(bytes),
        }
    }

    /// Adds a segment whose bytes are copied to this memory when the module is instantiated.
    ///
    /// If there are more than 4294967295 bytes, the call returns `TooLong`.
    pub fn active<D: IntoIterator<Item = u8>, B: Allocator>(
        &mut self,
        memory_index: u32,
        offset: &ConstExpr<B>,
        bytes: D,
    ) -> Result<()>
    where
        D::IntoIter: ExactSizeIterator + Drop,
        requires { HasKnownLength D.into_iter_gives D.IntoIter.can_next D.IntoIter.next_gives D.IntoIter.remaining bytes }
        ensures { AddsBytes S.model D.into_iter_gives D.IntoIter.next_gives D.IntoIter.remaining bytes (active_encoding memory_index offset.now) self.old self.new result }
    {
        if memory_index == 0 {
            self.add_bytes((ACTIVE, Lent(offset)), bytes)
        } else {
            self.add_bytes((ACTIVE_IN_MEMORY, memory_index, Lent(offset)), bytes)
        }
    }

    /// Adds a segment whose bytes are copied to a memory by an instruction.
    ///
    /// If there are more than 4294967295 bytes, the call returns `TooLong`.
    pub fn passive<D: IntoIterator<Item = u8>>(&mut self, bytes: D) -> Result<()>
    where
        D::IntoIter: ExactSizeIterator + Drop,
        requires { HasKnownLength D.into_iter_gives D.IntoIter.can_next D.IntoIter.next_gives D.IntoIter.remaining bytes }
        ensures { AddsBytes S.model D.into_iter_gives D.IntoIter.next_gives D.IntoIter.remaining bytes passive_encoding self.old self.new result }
    {
        self.add_bytes(PASSIVE, bytes)
    }

    /// Adds a segment that is already encoded. The call does not check that it is one.
    pub fn raw(&mut self, segment: &[u8]) -> Result<()>
        ensures { AddsTo S.model segment.now ⊤ self.old self.new result }
    {
        self.add_piece(segment)
    }

    /// Adds a segment that is encoded as `front` and the size-prefixed bytes.
    fn add_bytes<F: Encode + Drop, D: IntoIterator<Item = u8>>(
        &mut self,
        front: F,
        bytes: D,
    ) -> Result<()>
    where
        D::IntoIter: ExactSizeIterator + Drop,
        requires length { HasKnownLength D.into_iter_gives D.IntoIter.can_next D.IntoIter.next_gives D.IntoIter.remaining bytes }
        requires encodable { F.encodable front }
        ensures { AddsBytes S.model D.into_iter_gives D.IntoIter.next_gives D.IntoIter.remaining bytes (λ b. F.encoding front ++ size_prefixed_encoding b) self.old self.new result }
    {
        let bytes = bytes_of(bytes)?;
        self.add_once((front, bytes))
    }
}

// The flags of segments. Core specification, Binary Format, Modules, Data Section.
pub(crate) const ACTIVE: u8 = 0x00;

pub(crate) const PASSIVE: u8 = 0x01;

pub(crate) const ACTIVE_IN_MEMORY: u8 = 0x02;

/// Size-prefixed bytes, as a vector of bytes.
#[derive(Clone, Copy, Debug)]
struct Bytes<'a>(&'a [u8]);

impl<'a> Layout for Bytes<'a> {
    ghost Value = { List ℕ };

    ghost format = { vec byte };

    ghost view = { λ b. b.0.now };

    #[tactic(auto, using(wasm_base::proofs::BaseLaws::vec_bytes_unambiguous))]
    fn laws()
        ensures { Unambiguous (vec byte) }
    {}
}

impl<'a, A: Allocator + Copy, G: Grammar> Readable<'a, A, G> for Bytes<'a> {
    ghost may_allocate = { ⊥ };

    #[tactic(auto, using(crate::proofs::DataLaws::bytes_steps))]
    fn read(bytes: &'a [u8], alloc: A) -> Result<(Bytes<'a>, &'a [u8]), DecodeError> {
        let (bytes, rest) = <&'a [u8] as Readable<'a, A, G>>::read(bytes, alloc)?;
        Ok((Bytes(bytes), rest))
    }
}

/// A decoded data segment, whose bytes are a slice of the input.
#[derive(Debug, Drop)]
pub enum Segment<'a, A: Allocator = Global> {
    /// The bytes are copied to the memory when the module is instantiated.
    Active {
        memory: u32,
        /// Computes the offset of the first byte in the memory.
        offset: Expression<A>,
        bytes: &'a [u8],
    },
    /// The bytes are copied to a memory by an instruction.
    Passive {
        bytes: &'a [u8],
    },
}

impl<'a, A: Allocator> Layout for Segment<'a, A> {
    ghost Value = { DataItem };

    ghost format = { data_item };

    ghost view = { segment_view };

    #[tactic(auto, using(crate::proofs::DataLaws::data_unambiguous))]
    fn laws()
        ensures { Unambiguous data_item }
    {}
}

/// Returns `true` if the grammar admits this memory after flag 2, where it is explicit. Only the
/// standard's grammar admits memory 0 there.
#[tactic(auto, using(crate::proofs::DataLaws::index_steps))]
#[inline]
pub(crate) fn has_index<G: Grammar>(memory: u32) -> bool
    ensures { Decides result (HasIndex G.grammar memory) }
{
    memory != 0 || G::is_standard()
}

impl<'a, A: Allocator + Copy, G: Grammar> Readable<'a, A, G> for Segment<'a, A> {
    #[tactic(auto, using(crate::proofs::DataLaws::segment_steps))]
    fn read(bytes: &'a [u8], alloc: A) -> Result<(Segment<'a, A>, &'a [u8]), DecodeError> {
        let (flag, rest) = <u32 as Readable<'a, A, G>>::read(bytes, alloc)?;
        match flag {
            0 => {
                let ((offset, Bytes(bytes)), rest) = <(Expression<A>, Bytes<'a>) as Readable<
                    'a,
                    A,
                    G,
                >>::read(rest, alloc)?;
                let memory = 0;
                Ok((
                    Segment::Active {
                        memory,
                        offset,
                        bytes,
                    },
                    rest,
                ))
            }
            1 => {
                let (Bytes(bytes), rest) = <Bytes<'a> as Readable<'a, A, G>>::read(rest, alloc)?;
                Ok((Segment::Passive { bytes }, rest))
            }
            2 => {
                let (memory, rest) = <u32 as Readable<'a, A, G>>::read(rest, alloc)?;
                if !has_index::<G>(memory) {
                    return Err(ReadFault::UnknownTag.just_before(rest));
                }
                let ((offset, Bytes(bytes)), rest) = <(Expression<A>, Bytes<'a>) as Readable<
                    'a,
                    A,
                    G,
                >>::read(rest, alloc)?;
                Ok((
                    Segment::Active {
                        memory,
                        offset,
                        bytes,
                    },
                    rest,
                ))
            }
            _ => Err(ReadFault::UnknownTag.just_before(rest)),
        }
    }
}

/// Decodes the payload of a data section: a count and that many segments, which occupy all of the
/// bytes. Memory grows with the segments that decode, and is not allocated by the count.
///
/// # Errors
///
/// Every error except `Memory` means that the bytes are not such a payload.
pub fn read_segments<'a, A: Allocator + Copy + 'a, G: Grammar>(
    bytes: &'a [u8],
    alloc: A,
) -> Result<Vec<Segment<'a, A>, A>, DecodeError>
    ensures found { IfOk result (λ x. vec data_item (padded_of G.grammar) bytes.now (map segment_view x.items)) }
    ensures none { IfErr result (λ e. e.cause ≢ Memory → RejectsWhole (vec data_item) (padded_of G.grammar) bytes.now) }
{
    read_whole::<'a, Vec<Segment<'a, A>, A>, A, G>(bytes, alloc)
}

/// Appends the offset and the bytes of a segment.
#[tactic(auto, using(crate::proofs::DataLaws::placed_appended, crate::proofs::DataLaws::data_offset_encoded, crate::proofs::DataLaws::bytes_encodable))]
fn append_placed<A: Allocator, B: Allocator>(
    offset: &Expression<A>,
    bytes: &[u8],
    sink: &mut Vec<u8, B>,
) -> Result<()>
    ensures ok { OnOk result (AppendsMinimal builders_alone (pair expression (vec byte)) (instructions_view offset.now, bytes.now) sink.old.items sink.new.items) }
    ensures front { IsFrontOf sink.old.items sink.new.items }
    ensures too_long { HasEncoding builders_alone (pair expression (vec byte)) (instructions_view offset.now, bytes.now) → result ≢ Err TooLong }
{
    offset.write_minimal(sink)?;
    encode_size_prefixed(sink, bytes)
}

/// Appends an active segment. Memory 0 is implied by flag 0, and others are explicit after flag 2.
#[tactic(auto, using(crate::proofs::DataLaws::first_appended, crate::proofs::DataLaws::other_appended))]
fn append_active<A: Allocator, B: Allocator>(
    memory: u32,
    offset: &Expression<A>,
    bytes: &[u8],
    sink: &mut Vec<u8, B>,
) -> Result<()>
    ensures ok { OnOk result (AppendsMinimal builders_alone data_item (active memory (instructions_view offset.now) bytes.now) sink.old.items sink.new.items) }
    ensures front { IsFrontOf sink.old.items sink.new.items }
    ensures too_long { HasEncoding builders_alone data_item (active memory (instructions_view offset.now) bytes.now) → result ≢ Err TooLong }
{
    if memory == 0 {
        0u32.encode(sink)?;
        return append_placed(offset, bytes, sink);
    }
    (2u32, memory).encode(sink)?;
    append_placed(offset, bytes, sink)
}

impl<'a, A: Allocator> Shorten for Segment<'a, A> {
    ghost grammars = { builders_alone };

    #[tactic(auto, using(crate::proofs::DataLaws::passive_data_appended, crate::proofs::DataLaws::passive_encodable))]
    fn write_minimal<B: Allocator>(&self, sink: &mut Vec<u8, B>) -> Result<()> {
        match self {
            Segment::Active {
                memory,
                offset,
                bytes,
            } => append_active(*memory, offset, bytes, sink),
            Segment::Passive { bytes } => {
                1u32.encode(sink)?;
                encode_size_prefixed(sink, bytes)
            }
        }
    }
}
