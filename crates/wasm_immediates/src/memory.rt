// Memory arguments: the immediates of instructions that access memory.
ghost use Rattle.std.specs.Prelude.{◌≡◌, ◌+◌, ◌≤◌, ◌<◌, ◌++◌, ◌∷◌, [], vec_len, vec_capacity, ⊤, ◌≢◌, IfOk, IfErr};
ghost use Rattle.wasm_base.specs.Calls.{Appends};
ghost use Rattle.wasm_base.specs.Numbers.{unsigned_encoding, padded_of};
ghost use Rattle.wasm_immediates.specs.Immediates.{ordering_code, mem_ordering_code, index_of, mem_flags, mem_arg_encoding};
ghost use Rattle.wasm_immediates.specs.declared.memory.MemArgTarget.TheVariants as targets;
ghost use Rattle.wasm_base.specs.Decoding.{Decodes, Rejects};
ghost use Rattle.wasm_immediates.specs.ImmediateFormats.{ordering_format, mem_ordering, target_of, mem_arg};
ghost use Rattle.wasm_immediates.specs.declared.memory.Ordering.{Ordering as OrderingModel};
ghost use Rattle.wasm_immediates.specs.declared.memory.MemArgOrdering.{MemArgOrdering as MemOrderingModel};
ghost use Rattle.wasm_immediates.specs.declared.memory.MemArg.{MemArg as MemArgModel};
ghost use Rattle.wasm_base.specs.declared.fault.ReadFault.TheVariants.{Memory};

use std::alloc::Allocator;
use std::default::Default;
use wasm_base::{
    Canonical, DecodeError, Effect, Encode, Grammar, Layout, ReadFault, Readable, Result, Walk,
    read_optional, walk_value,
};

/// The index of a lane of a vector.
pub type Lane = u8;

/// A memory argument: the location and the ordering of an access.
#[derive(Clone, Copy, Debug)]
pub struct MemArg {
    /// The constant that is added to the address, in bytes.
    pub offset: u64,
    /// The expected alignment, as an exponent of 2.
    pub align: u32,
    pub target: MemArgTarget,
    /// The ordering of an atomic access, if it differs from the default of the instruction.
    pub ordering: Option<MemArgOrdering>,
}

/// The memory or the array type that is accessed.
#[derive(Clone, Copy, PartialEq, Eq, Hash, Debug)]
pub enum MemArgTarget {
    /// The memory of this index.
    Memory(u32),
    /// An array of the type of this index.
    Array(u32),
}

/// The ordering of an access: of a single operation, or of a read-modify-write.
#[derive(Clone, Copy, PartialEq, Eq, Hash, Debug)]
pub enum MemArgOrdering {
    Op(Ordering),
    Rmw(Ordering),
}

/// The ordering of atomic accesses.
#[derive(Clone, Copy, PartialEq, Eq, Hash, Debug)]
pub enum Ordering {
    AcqRel = 0x01,
    SeqCst = 0x00,
}

/// The default is memory 0.
impl Default for MemArgTarget {
    ghost is_default = { λ target. target ≡ targets.Memory 0 };

    fn default() -> Self {
        Self::Memory(0)
    }
}

impl MemArgTarget {
    /// Returns the index in the encoding, or `None` for memory 0, which has none.
    #[inline]
    fn index(self) -> Option<u32>
        ensures { result ≡ index_of self }
    {
        match self {
            MemArgTarget::Memory(0) => None,
            MemArgTarget::Memory(index) => Some(index),
            MemArgTarget::Array(index) => Some(index),
        }
    }
}

/// Encodes the ordering as one byte.
impl Encode for Ordering {
    ghost encoding = { λ ordering. ordering_code ordering ∷ [] };

    ghost encodable = { λ _. ⊤ };

    fn encode<A: Allocator>(&self, sink: &mut Vec<u8, A>) -> Result<()> {
        (*self as u8).encode(sink)
    }
}

/// Encodes the ordering as one byte. `SeqCst` has the same byte for both kinds of access.
impl Encode for MemArgOrdering {
    ghost encoding = { λ ordering. mem_ordering_code ordering ∷ [] };

    ghost encodable = { λ _. ⊤ };

    fn encode<A: Allocator>(&self, sink: &mut Vec<u8, A>) -> Result<()> {
        let byte: u8 = match *self {
            MemArgOrdering::Op(Ordering::SeqCst) => 0x00,
            MemArgOrdering::Op(Ordering::AcqRel) => 0x01,
            MemArgOrdering::Rmw(Ordering::SeqCst) => 0x00,
            MemArgOrdering::Rmw(Ordering::AcqRel) => 0x11,
        };
        byte.encode(sink)
    }
}

impl MemArg {
    /// Returns the flags: the alignment, and a bit for each optional field that follows.
    #[inline]
    fn flags(self) -> u32
        ensures { result ≡ mem_flags self }
    {
        let ordering = if self.ordering.is_some() { 0x10 } else { 0 };
        let target = match self.target {
            MemArgTarget::Memory(0) => 0,
            MemArgTarget::Memory(_) => 0x40,
            MemArgTarget::Array(_) => 0x20,
        };
        self.align | ordering | target
    }

    /// Appends all fields for which the flags have a bit.
    #[inline(never)]
    fn encode_all<A: Allocator>(&self, sink: &mut Vec<u8, A>) -> Result<()>
        ensures { Appends (mem_arg_encoding self.now) ⊤ sink.old sink.new result }
    {
        let flags = self.flags();
        match (self.target.index(), self.ordering) {
            (None, None) => (flags, self.offset).encode(sink),
            (None, Some(ordering)) => (flags, ordering, self.offset).encode(sink),
            (Some(index), None) => (flags, index, self.offset).encode(sink),
            (Some(index), Some(ordering)) => (flags, index, (ordering, self.offset)).encode(sink),
        }
    }
}

/// Encodes the flags, the index and the ordering if their flags are set, and the offset. Most
/// arguments have memory 0 and no ordering; the others are encoded out of line.
impl Encode for MemArg {
    ghost encoding = { mem_arg_encoding };

    ghost encodable = { λ _. ⊤ };

    #[inline]
    fn encode<A: Allocator>(&self, sink: &mut Vec<u8, A>) -> Result<()> {
        match (self.target, self.ordering) {
            (MemArgTarget::Memory(0), None) => encode_plain(self.flags(), self.offset, sink),
            _ => self.encode_all(sink),
        }
    }
}

/// Appends flags and an offset. Most have one byte each, and are written after one test of the
/// spare capacity.
#[inline]
fn encode_plain<A: Allocator>(flags: u32, offset: u64, sink: &mut Vec<u8, A>) -> Result<()>
    ensures { Appends (unsigned_encoding flags ++ unsigned_encoding offset) ⊤ sink.old sink.new result }
{
    if flags < 0x80 && offset < 0x80 && sink.capacity() - sink.len() >= 2 {
        put_two_bytes(flags as u8, offset as u8, sink);
        return Ok(());
    }
    (flags, offset).encode(sink)
}

/// Appends two numbers of one byte each into spare capacity of the sink, which holds them.
#[tactic(auto, using(crate::proofs::ImmediateEncodings::one_byte))]
#[inline]
fn put_two_bytes<A: Allocator>(first: u8, second: u8, sink: &mut Vec<u8, A>)
    requires small { first < 0x80 × second < 0x80 }
    requires spare { vec_len sink.old + 2 ≤ vec_capacity sink.old }
    ensures items { sink.new.items ≡ sink.old.items ++ (unsigned_encoding first ++ unsigned_encoding second) }
    ensures capacity { vec_capacity sink.new ≡ vec_capacity sink.old }
{
    sink.push_reserved(first);
    sink.push_reserved(second);
}

impl Layout for Ordering {
    ghost Value = { OrderingModel };

    ghost format = { ordering_format };

    ghost view = { λ o. o };

    #[tactic(auto, using(crate::proofs::ImmediateLaws::ordering_unambiguous))]
    fn laws() {}
}

impl<'a, A: Allocator + Copy, G: Grammar> Readable<'a, A, G> for Ordering {
    ghost may_allocate = { ⊥ };

    #[tactic(auto, using(crate::proofs::DecodeImmediates::ordering_steps))]
    fn read(bytes: &'a [u8], alloc: A) -> Result<(Ordering, &'a [u8]), DecodeError> {
        let (byte, rest) = <u8 as Readable<'a, A, G>>::read(bytes, alloc)?;
        match byte {
            0x00 => Ok((Ordering::SeqCst, rest)),
            0x01 => Ok((Ordering::AcqRel, rest)),
            _ => Err(ReadFault::UnknownTag.just_before(rest)),
        }
    }
}

impl Layout for MemArgOrdering {
    ghost Value = { MemOrderingModel };

    ghost format = { mem_ordering };

    ghost view = { λ o. o };

    #[tactic(auto, using(crate::proofs::ImmediateLaws::mem_ordering_unambiguous))]
    fn laws() {}
}

impl<'a, A: Allocator + Copy, G: Grammar> Readable<'a, A, G> for MemArgOrdering {
    ghost may_allocate = { ⊥ };

    #[tactic(auto, using(crate::proofs::DecodeImmediates::mem_ordering_steps))]
    fn read(bytes: &'a [u8], alloc: A) -> Result<(MemArgOrdering, &'a [u8]), DecodeError> {
        let (tag, rest) = <u8 as Readable<'a, A, G>>::read(bytes, alloc)?;
        match tag {
            0x00 => Ok((MemArgOrdering::Op(Ordering::SeqCst), rest)),
            0x01 => Ok((MemArgOrdering::Op(Ordering::AcqRel), rest)),
            0x11 => Ok((MemArgOrdering::Rmw(Ordering::AcqRel), rest)),
            _ => Err(ReadFault::UnknownTag.just_before(rest)),
        }
    }
}

/// Decodes the index of an array type or of a memory, as the flags select. Memory 0 has an index
/// in the standard's grammar alone.
#[tactic(auto, using(crate::proofs::DecodeImmediates::target_steps))]
fn read_target<'a, A: Allocator + Copy, G: Grammar>(
    array: bool,
    other: bool,
    bytes: &'a [u8],
    alloc: A,
) -> Result<(MemArgTarget, &'a [u8]), DecodeError>
    ensures found { IfOk result (λ x. Decodes (target_of G.grammar array other) (padded_of G.grammar) bytes.now x.0 x.1.now) }
    ensures none { IfErr result (λ e. e.cause ≢ Memory → Rejects (target_of G.grammar array other) (padded_of G.grammar) bytes.now) }
    ensures no_memory { IfErr result (λ e. e.cause ≢ Memory) }
{
    match (array, other) {
        (false, false) => Ok((MemArgTarget::Memory(0), bytes)),
        (true, true) => Err(ReadFault::UnknownTag.just_before(bytes)),
        (true, false) => {
            let (index, rest) = <u32 as Readable<'a, A, G>>::read(bytes, alloc)?;
            Ok((MemArgTarget::Array(index), rest))
        }
        (false, true) => {
            let (index, rest) = <u32 as Readable<'a, A, G>>::read(bytes, alloc)?;
            if index == 0 && !G::is_standard() {
                return Err(ReadFault::UnknownTag.just_before(rest));
            }
            Ok((MemArgTarget::Memory(index), rest))
        }
    }
}

/// Decodes a memory argument with any flags. Out of line, since most have memory 0 and no ordering.
#[inline(never)]
#[tactic(auto, using(crate::proofs::DecodeImmediates::memory_steps))]
fn read_any_memory<'a, A: Allocator + Copy, G: Grammar>(
    bytes: &'a [u8],
    alloc: A,
) -> Result<(MemArg, &'a [u8]), DecodeError>
    ensures found { IfOk result (λ x. Decodes mem_arg (padded_of G.grammar) bytes.now x.0 x.1.now) }
    ensures none { IfErr result (λ e. e.cause ≢ Memory → Rejects mem_arg (padded_of G.grammar) bytes.now) }
    ensures no_memory { IfErr result (λ e. e.cause ≢ Memory) }
{
    let (flags, rest) = <u32 as Readable<'a, A, G>>::read(bytes, alloc)?;
    if flags >= 0x80 {
        return Err(ReadFault::UnknownTag.just_before(rest));
    }
    let (target, rest) = read_target::<A, G>(
        flags / 32 % 2 == 1,
        flags / 64 % 2 == 1,
        rest,
        alloc,
    )?;
    let (ordering, rest) = read_optional::<'a, MemArgOrdering, A, G>(
        flags / 16 % 2 == 1,
        rest,
        alloc,
    )?;
    let (offset, rest) = <u64 as Readable<'a, A, G>>::read(rest, alloc)?;
    Ok((
        MemArg {
            offset,
            align: flags % 16,
            target,
            ordering,
        },
        rest,
    ))
}

impl Layout for MemArg {
    ghost Value = { MemArgModel };

    ghost format = { mem_arg };

    ghost view = { λ m. m };

    #[tactic(auto, using(crate::proofs::ImmediateLaws::mem_arg_unambiguous))]
    fn laws() {}
}

impl<'a, A: Allocator + Copy, G: Grammar> Readable<'a, A, G> for MemArg {
    ghost may_allocate = { ⊥ };

    #[tactic(auto, using(crate::proofs::DecodeImmediates::memory_steps))]
    #[inline]
    fn read(bytes: &'a [u8], alloc: A) -> Result<(MemArg, &'a [u8]), DecodeError> {
        if let [flags, rest @ ..] = bytes {
            if *flags < 0x10 {
                let (offset, rest) = <u64 as Readable<'a, A, G>>::read(rest, alloc)?;
                let memory = MemArg {
                    offset,
                    align: u32::from(*flags),
                    target: MemArgTarget::Memory(0),
                    ordering: None,
                };
                return Ok((memory, rest));
            }
        }
        read_any_memory::<A, G>(bytes, alloc)
    }
}

impl Canonical for MemArg {
    #[tactic(auto, using(crate::proofs::MinimalImmediates::memory_canonical))]
    fn canonical() {}
}

impl<G: Grammar> Walk<G> for MemArg {
    #[inline]
    fn walk<'a, A: Allocator + Copy, E: Effect>(
        bytes: &'a [u8],
        alloc: A,
        effect: &mut E,
    ) -> Result<&'a [u8], DecodeError> {
        walk_value::<MemArg, A, G, _>(bytes, alloc, effect)
    }
}
