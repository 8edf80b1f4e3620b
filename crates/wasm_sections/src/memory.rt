// The memory section: its builder and its reader.
ghost use Rattle.std.specs.Prelude.{◌≡◌, ◌^◌, ◌<◌, ⊤};
ghost use Rattle.wasm_base.specs.Calls.{AddsTo};
ghost use Rattle.wasm_sections.specs.Flags.{flags_code, Flags as FlagBits, flags as flags_format, flags_view};
ghost use Rattle.wasm_sections.specs.Memories.{memory_items, memory_flags, memory_encoding, memory_type, page_exponent};
ghost use Rattle.wasm_sections.specs.declared.memory.MemoryType.{MemoryType as Memory};

use crate::counted_section::{CountedSection, ItemKind, RecordOf};
use crate::flags::where_set;
use std::alloc::{Allocator, Global};
use wasm_base::{
    DecodeError, Encode, Grammar, Kind, Layout, Optional, Pieces, ReadFault, Readable, Result,
    SectionId, Store, read_optional,
};

/// The memory section: the memories that a module defines.
///
/// ```rust
/// let mut memories = MemorySection::new(alloc);
/// memories.memory(MemoryType {
///     minimum: 1,
///     maximum: None,
///     memory64: false,
///     shared: false,
///     page_size_log2: None,
/// })?;
/// module.section(&memories)?;
/// ```
pub type MemorySection<A = Global> = CountedSection<MemoryItems, Pieces<A>>;

/// The kind of a memory section's items: memory types.
#[derive(Clone, Copy, Debug)]
pub struct MemoryItems;

/// The type of a memory. Sizes are in pages.
#[derive(Clone, Copy, PartialEq, Eq, Hash, Debug)]
pub struct MemoryType {
    pub minimum: u64,
    pub maximum: Option<u64>,
    /// Whether addresses have 64 bits.
    pub memory64: bool,
    /// Whether threads share the memory.
    pub shared: bool,
    /// The size of a page in bytes, as an exponent of 2. It is not checked.
    pub page_size_log2: Option<u32>,
}

impl MemoryType {
    /// Returns the size of a page in bytes, as an exponent of 2: 16 by default.
    pub fn page_size_log2(&self) -> u32
        ensures { result ≡ page_exponent self.now.page_size_log2 }
    {
        match self.page_size_log2 {
            Some(exponent) => exponent,
            None => 16,
        }
    }

    /// Returns the size of a page in bytes.
    pub fn page_size(&self) -> u32
        requires { page_exponent self.now.page_size_log2 < 32 }
        ensures { result ≡ 2 ^ page_exponent self.now.page_size_log2 }
    {
        1 << self.page_size_log2()
    }

    /// Returns the flags: a bit for each optional field that is present, and for each attribute
    /// that is set.
    #[inline]
    fn flags(&self) -> u8
        ensures { result ≡ flags_code (memory_flags self.now) }
    {
        where_set(self.maximum.is_some(), 0x01)
            + where_set(self.shared, 0x02)
            + where_set(self.memory64, 0x04)
            + where_set(self.page_size_log2.is_some(), 0x08)
    }
}

/// Encodes the flags, the minimum, and the fields for which the flags have a bit.
impl Encode for MemoryType {
    ghost encoding = { memory_encoding };

    ghost encodable = { λ _. ⊤ };

    #[inline]
    fn encode<A: Allocator>(&self, sink: &mut Vec<u8, A>) -> Result<()> {
        let maximum = Optional(self.maximum);
        let page_size = Optional(self.page_size_log2);
        (self.flags(), self.minimum, (maximum, page_size)).encode(sink)
    }
}

impl Kind for MemoryItems {
    ghost Record = { Memory };

    ghost Item = { Memory };

    ghost kind = { memory_items };

    #[tactic(auto, using(crate::proofs::MemoryLaws::memory_laws))]
    fn laws() {}
}

impl ItemKind for MemoryItems {
    ghost use Rattle.wasm_base.specs.SectionId.{number_of};
    ghost use Rattle.wasm_base.specs.declared.section_id.SectionId.TheVariants as ids;

    ghost section_id = { number_of ids.Memory };

    fn id() -> u8 {
        SectionId::Memory.into()
    }
}

impl RecordOf<MemoryItems> for MemoryType {}

impl<S: Store> CountedSection<MemoryItems, S> {
    /// Adds a memory of this type.
    pub fn memory(&mut self, memory_type: MemoryType) -> Result<()>
        ensures { AddsTo S.model (memory_encoding memory_type) ⊤ self.old self.new result }
    {
        self.add_record(&memory_type)
    }
}

/// The flags of limits.
#[derive(Clone, Copy, Debug)]
pub(crate) struct Flags {
    pub(crate) has_maximum: bool,
    pub(crate) shared: bool,
    pub(crate) is_64: bool,
    pub(crate) has_page_size: bool,
}

impl Layout for Flags {
    ghost Value = { FlagBits };

    ghost format = { flags_format };

    ghost view = { flags_view };

    #[tactic(auto, using(crate::proofs::FlagLaws::flags_unambiguous))]
    fn laws() {}
}

impl<'a, A: Allocator + Copy, G: Grammar> Readable<'a, A, G> for Flags {
    ghost may_allocate = { ⊥ };

    #[tactic(auto, using(crate::proofs::DecodeLimits::flag_steps))]
    fn read(bytes: &'a [u8], alloc: A) -> Result<(Flags, &'a [u8]), DecodeError> {
        let (byte, rest) = <u8 as Readable<'a, A, G>>::read(bytes, alloc)?;
        if byte >= 0x10 {
            return Err(ReadFault::UnknownTag.just_before(rest));
        }
        let flags = Flags {
            has_maximum: byte % 2 == 1,
            shared: byte / 2 % 2 == 1,
            is_64: byte / 4 % 2 == 1,
            has_page_size: byte / 8 % 2 == 1,
        };
        Ok((flags, rest))
    }
}

impl Layout for MemoryType {
    ghost Value = { Memory };

    ghost format = { memory_type };

    ghost view = { λ memory. memory };

    #[tactic(auto, using(crate::proofs::MemoryLaws::memory_unambiguous))]
    fn laws() {}
}

impl<'a, A: Allocator + Copy, G: Grammar> Readable<'a, A, G> for MemoryType {
    ghost may_allocate = { ⊥ };

    #[tactic(auto, using(crate::proofs::DecodeLimits::memory_steps))]
    fn read(bytes: &'a [u8], alloc: A) -> Result<(MemoryType, &'a [u8]), DecodeError> {
        let (flags, rest) = <Flags as Readable<'a, A, G>>::read(bytes, alloc)?;
        let (minimum, rest) = <u64 as Readable<'a, A, G>>::read(rest, alloc)?;
        let (maximum, rest) = read_optional::<'a, u64, A, G>(flags.has_maximum, rest, alloc)?;
        let (page_size_log2, rest) = read_optional::<'a, u32, A, G>(
            flags.has_page_size,
            rest,
            alloc,
        )?;
        let memory = MemoryType {
            minimum,
            maximum,
            memory64: flags.is_64,
            shared: flags.shared,
            page_size_log2,
        };
        Ok((memory, rest))
    }
}
