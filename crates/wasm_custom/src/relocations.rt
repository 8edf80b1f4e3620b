// The relocation section: its builder, its reader and its minimizer.
ghost use Rattle.std.specs.Prelude.{◌≡◌, ◌≢◌, ℕ, List, [], ◌∷◌, IfOk, true, ⊤, IfErr, Err, OnOk, OnErr, string_bytes};
ghost use Rattle.wasm_base.specs.Calls.{Adds, DecodesBack};
ghost use Rattle.wasm_base.specs.Continuing.{RejectsWhole};
ghost use Rattle.wasm_base.specs.Cow.{items_of, utf8_of};
ghost use Rattle.wasm_base.specs.Formats.{coded, size_prefixed};
ghost use Rattle.wasm_base.specs.Minimal.{AppendsMinimal, IsFrontOf, HasEncoding, both_grammars};
ghost use Rattle.wasm_base.specs.Numbers.{unsigned_encoding, padded_of};
ghost use Rattle.wasm_base.specs.declared.fault.ReadFault.TheVariants.{Memory};
ghost use Rattle.wasm_base.specs.declared.refused.Refused.TheVariants.{TooLong};
ghost use Rattle.wasm_custom.specs.Customs.{named_encoding, IsEncodableNamed};
ghost use Rattle.wasm_custom.specs.Entries.{entries_encoding};
ghost use Rattle.wasm_custom.specs.Relocations.{plain_code, addend32_code, addend64_code, relocation_code, relocation_encoding, relocation, relocations_name, relocations_payload, SaysRelocations};
ghost use Rattle.wasm_custom.specs.declared.relocations.Relocation.{Relocation as RelocationModel};
ghost use Rattle.wasm_custom.specs.declared.relocations.RelocationKind.{RelocationKind as KindModel};

use crate::custom_section::CustomSection;
use crate::entries::{data_of, encode_entries};
use std::alloc::{Allocator, Global};
use std::marker::Model;
use wasm_base::{
    CowSlice, CowStr, DecodeError, Encode, Grammar, Layout, Pieces, ReadFault, Readable, Result,
    Section, SectionId, Shorten, read_whole,
};

/// The kind of a relocation without an addend: the number that the linker writes, and its encoding
/// at the offset.
#[derive(Clone, Copy, PartialEq, Eq, Hash, Debug)]
pub enum PlainRelocation {
    /// A function index in 5 bytes of unsigned LEB128, such as the immediate of `call`.
    FunctionIndexLeb = 0,
    /// An index of a function in the table, in 5 bytes of signed LEB128.
    TableIndexSleb = 1,
    /// An index of a function in the table, in 4 bytes.
    TableIndexI32 = 2,
    /// A type index in 5 bytes of unsigned LEB128.
    TypeIndexLeb = 6,
    /// A global index in 5 bytes of unsigned LEB128.
    GlobalIndexLeb = 7,
    /// A tag index in 5 bytes of unsigned LEB128.
    TagIndexLeb = 10,
    /// An index in the table relative to `__table_base`, in 5 bytes of signed LEB128.
    TableIndexRelSleb = 12,
    /// A global index in 4 bytes.
    GlobalIndexI32 = 13,
    /// An index of a function in the table, in 10 bytes of signed LEB128.
    TableIndexSleb64 = 18,
    /// An index of a function in the table, in 8 bytes.
    TableIndexI64 = 19,
    /// A table index in 5 bytes of unsigned LEB128.
    TableNumberLeb = 20,
    /// An index in the table relative to `__table_base`, in 10 bytes of signed LEB128.
    TableIndexRelSleb64 = 24,
    /// A function index in 4 bytes.
    FunctionIndexI32 = 26,
}

/// Encodes the kind as one byte.
impl Encode for PlainRelocation {
    ghost encoding = { λ kind. plain_code kind ∷ [] };

    ghost encodable = { λ _. ⊤ };

    fn encode<A: Allocator>(&self, sink: &mut Vec<u8, A>) -> Result<()> {
        (*self as u8).encode(sink)
    }
}

/// The kind of a relocation with an addend of 32 bits: the number that the linker writes, and its
/// encoding at the offset.
#[derive(Clone, Copy, PartialEq, Eq, Hash, Debug)]
pub enum Addend32Relocation {
    /// An address in 5 bytes of unsigned LEB128, such as the offset of a load.
    MemoryAddrLeb = 3,
    /// An address in 5 bytes of signed LEB128, such as the immediate of `i32.const`.
    MemoryAddrSleb = 4,
    /// An address in 4 bytes.
    MemoryAddrI32 = 5,
    /// The offset of a function in the code section, in 4 bytes.
    FunctionOffsetI32 = 8,
    /// An offset in a section, in 4 bytes.
    SectionOffsetI32 = 9,
    /// An address relative to `__memory_base`, in 5 bytes of signed LEB128.
    MemoryAddrRelSleb = 11,
    /// An address relative to `__tls_base`, in 5 bytes of signed LEB128.
    MemoryAddrTlsSleb = 21,
    /// An address relative to that of the relocation, in 4 bytes.
    MemoryAddrLocrelI32 = 23,
}

/// Encodes the kind as one byte.
impl Encode for Addend32Relocation {
    ghost encoding = { λ kind. addend32_code kind ∷ [] };

    ghost encodable = { λ _. ⊤ };

    fn encode<A: Allocator>(&self, sink: &mut Vec<u8, A>) -> Result<()> {
        (*self as u8).encode(sink)
    }
}

/// The kind of a relocation with an addend of 64 bits: the number that the linker writes, and its
/// encoding at the offset.
#[derive(Clone, Copy, PartialEq, Eq, Hash, Debug)]
pub enum Addend64Relocation {
    /// An address in 10 bytes of unsigned LEB128.
    MemoryAddrLeb64 = 14,
    /// An address in 10 bytes of signed LEB128.
    MemoryAddrSleb64 = 15,
    /// An address in 8 bytes.
    MemoryAddrI64 = 16,
    /// An address relative to `__memory_base`, in 10 bytes of signed LEB128.
    MemoryAddrRelSleb64 = 17,
    /// The offset of a function in the code section, in 8 bytes.
    FunctionOffsetI64 = 22,
    /// An address relative to `__tls_base`, in 10 bytes of signed LEB128.
    MemoryAddrTlsSleb64 = 25,
}

/// Encodes the kind as one byte.
impl Encode for Addend64Relocation {
    ghost encoding = { λ kind. addend64_code kind ∷ [] };

    ghost encodable = { λ _. ⊤ };

    fn encode<A: Allocator>(&self, sink: &mut Vec<u8, A>) -> Result<()> {
        (*self as u8).encode(sink)
    }
}

/// A relocation: where the linker writes a number, and the symbol or type that it computes the
/// number from.
///
/// Offsets count from the start of the section's payload, in a custom section from the end of its
/// name.
#[derive(Clone, Copy, PartialEq, Eq, Hash, Debug)]
pub enum Relocation {
    /// A relocation without an addend.
    Plain {
        kind: PlainRelocation,
        /// The offset in the section, in bytes.
        offset: u32,
        /// The index of the symbol, or of the type of a `TypeIndexLeb`.
        index: u32,
    },
    /// A relocation with an addend of 32 bits.
    Addend32 {
        kind: Addend32Relocation,
        /// The offset in the section, in bytes.
        offset: u32,
        /// The index of the symbol.
        index: u32,
        /// The number that the linker adds.
        addend: i32,
    },
    /// A relocation with an addend of 64 bits.
    Addend64 {
        kind: Addend64Relocation,
        /// The offset in the section, in bytes.
        offset: u32,
        /// The index of the symbol.
        index: u32,
        /// The number that the linker adds.
        addend: i64,
    },
}

/// Encodes the byte of the kind, the offset, the index, and the addend if the kind has one.
impl Encode for Relocation {
    ghost encoding = { relocation_encoding };

    ghost encodable = { λ _. ⊤ };

    fn encode<A: Allocator>(&self, sink: &mut Vec<u8, A>) -> Result<()> {
        match *self {
            Relocation::Plain {
                kind,
                offset,
                index,
            } => (kind, (offset, index)).encode(sink),
            Relocation::Addend32 {
                kind,
                offset,
                index,
                addend,
            } => (kind, (offset, index), addend).encode(sink),
            Relocation::Addend64 {
                kind,
                offset,
                index,
                addend,
            } => (kind, (offset, index), addend).encode(sink),
        }
    }
}

/// A relocation section, modelled as its name, the bytes before its relocations, and the bytes of
/// each relocation. The bytes before them are the index of the section that is relocated.
///
/// ```rust
/// let mut relocations = RelocationSection::new(alloc, "CODE", 3)?;
/// relocations.relocation(Relocation::Plain {
///     kind: PlainRelocation::FunctionIndexLeb,
///     offset: 4,
///     index: 0,
/// })?;
/// module.section(&relocations)?;
/// ```
///
/// # Errors
///
/// An adding call that returns an error leaves the section unchanged. The error is `TooLong` only
/// if the section is full, and `Memory` only if an allocation fails.
#[derive(Drop, Debug)]
pub struct RelocationSection<A: Allocator = Global> {
    name: String<A>,
    front: Vec<u8, A>,
    relocations: Pieces<A>,
}

impl<A: Allocator> Model for RelocationSection<A> {
    ghost Value = { (List ℕ × List ℕ) × List (List ℕ) };

    ghost view = { λ s. ((string_bytes s.name, s.front.items), s.relocations) };
}

impl<A: Allocator + Copy> RelocationSection<A> {
    /// Returns the section `reloc.NAME` without relocations, where `NAME` is `section_name`, such
    /// as `CODE`, and `section` the index of that section in the module.
    pub fn new(alloc: A, section_name: &str, section: u32) -> Result<Self>
        ensures is { IfOk result (λ s. s ≡ ((relocations_name section_name.now, unsigned_encoding section), [])) }
        ensures memory { result ≢ Err TooLong }
    {
        let mut name = String::from_str(alloc, "reloc.")?;
        name.push_str(section_name)?;
        let mut front = Vec::new(alloc);
        section.encode(&mut front)?;
        Ok(RelocationSection {
            name,
            front,
            relocations: Pieces::new(alloc),
        })
    }

    /// Returns the same section, in memory of its own.
    pub fn clone(&self) -> Result<Self>
        ensures same { IfOk result (λ s. s ≡ self.now) }
        ensures memory { result ≢ Err TooLong }
    {
        let alloc = *self.front.allocator();
        Ok(RelocationSection {
            name: String::from_str(alloc, self.name.as_str())?,
            front: Vec::from_slice(alloc, &self.front)?,
            relocations: self.relocations.clone()?,
        })
    }
}

impl<A: Allocator> RelocationSection<A> {
    /// Adds a relocation.
    pub fn relocation(&mut self, relocation: Relocation) -> Result<()>
        ensures adds { Adds (relocation_encoding relocation) ⊤ self.old.1 self.new.1 result }
        ensures same_section { self.new.0 ≡ self.old.0 }
    {
        self.relocations.add_encoded(&relocation)
    }

    /// Returns the section as a custom section, which owns a copy of the data.
    pub fn as_custom<B: Allocator>(&self, alloc: B) -> Result<CustomSection<'_, B>>
        ensures same { IfOk result (λ s. (utf8_of s.name ≡ self.now.0.0) × (items_of s.bytes ≡ entries_encoding self.now.0.1 true self.now.1)) }
        ensures memory { result ≢ Err TooLong }
    {
        let data = data_of(alloc, &self.front, true, &self.relocations)?;
        Ok(CustomSection {
            name: CowStr::Borrowed(self.name.as_str()),
            bytes: CowSlice::Owned(data),
        })
    }
}

/// Encodes the size prefix, the name of the section, and the data: the index of the section that is
/// relocated, the number of relocations, and the relocations.
impl<A: Allocator> Encode for RelocationSection<A> {
    ghost encoding = { λ s. named_encoding s.0.0 (entries_encoding s.0.1 true s.1) };

    ghost encodable = { λ s. IsEncodableNamed s.0.0 (entries_encoding s.0.1 true s.1) };

    ghost decoding = { λ s. DecodesBack (size_prefixed relocations_payload) (SaysRelocations s.0.0 s.0.1 s.1) (named_encoding s.0.0 (entries_encoding s.0.1 true s.1)) };

    fn encode<B: Allocator>(&self, sink: &mut Vec<u8, B>) -> Result<()> {
        encode_entries(
            sink,
            self.name.as_str(),
            &self.front,
            true,
            &self.relocations,
        )
    }
}

impl<A: Allocator> Section for RelocationSection<A> {
    ghost use Rattle.wasm_base.specs.Formats.{size_prefixed};
    ghost use Rattle.wasm_base.specs.SectionId.{number_of};
    ghost use Rattle.wasm_base.specs.declared.section_id.SectionId.TheVariants as ids;
    ghost use Rattle.wasm_custom.specs.Customs.{NamedPayload, named_sized};
    ghost use Rattle.wasm_custom.specs.Entries.{entries_encoding};
    ghost use Rattle.wasm_custom.specs.Relocations.{Relocations, relocations_payload, SaysRelocations};

    ghost id_of = { λ _. number_of ids.Custom };

    ghost Items = { Relocations };

    ghost format = { size_prefixed relocations_payload };

    ghost says = { λ s. SaysRelocations s.0.0 s.0.1 s.1 };

    ghost payload = { λ s. NamedPayload s.0.0 (entries_encoding s.0.1 true s.1) };

    fn id(&self) -> u8 {
        SectionId::Custom.into()
    }

    ghost sized = { λ s bytes encodable pays. named_sized s.0.0 (entries_encoding s.0.1 true s.1) bytes encodable pays };

    ghost decodes_back = { λ s promised. promised };
}

/// The kind of a relocation, of any class.
#[derive(Clone, Copy, PartialEq, Eq, Hash, Debug)]
pub enum RelocationKind {
    /// A kind without an addend.
    Plain(PlainRelocation),
    /// A kind with an addend of 32 bits.
    Addend32(Addend32Relocation),
    /// A kind with an addend of 64 bits.
    Addend64(Addend64Relocation),
}

impl Layout for RelocationKind {
    ghost Value = { KindModel };

    ghost format = { coded relocation_code };

    ghost view = { λ kind. kind };

    #[tactic(auto, using(crate::proofs::RelocationLaws::kind_unambiguous))]
    fn laws() {}
}

impl<'a, A: Allocator + Copy, G: Grammar> Readable<'a, A, G> for RelocationKind {
    ghost may_allocate = { ⊥ };

    #[tactic(auto, using(crate::proofs::RelocationLaws::kind_steps))]
    fn read(bytes: &'a [u8], alloc: A) -> Result<(RelocationKind, &'a [u8]), DecodeError> {
        let (code, rest) = <u8 as Readable<'a, A, G>>::read(bytes, alloc)?;
        let kind = match code {
            0 => RelocationKind::Plain(PlainRelocation::FunctionIndexLeb),
            1 => RelocationKind::Plain(PlainRelocation::TableIndexSleb),
            2 => RelocationKind::Plain(PlainRelocation::TableIndexI32),
            3 => RelocationKind::Addend32(Addend32Relocation::MemoryAddrLeb),
            4 => RelocationKind::Addend32(Addend32Relocation::MemoryAddrSleb),
            5 => RelocationKind::Addend32(Addend32Relocation::MemoryAddrI32),
            6 => RelocationKind::Plain(PlainRelocation::TypeIndexLeb),
            7 => RelocationKind::Plain(PlainRelocation::GlobalIndexLeb),
            8 => RelocationKind::Addend32(Addend32Relocation::FunctionOffsetI32),
            9 => RelocationKind::Addend32(Addend32Relocation::SectionOffsetI32),
            10 => RelocationKind::Plain(PlainRelocation::TagIndexLeb),
            11 => RelocationKind::Addend32(Addend32Relocation::MemoryAddrRelSleb),
            12 => RelocationKind::Plain(PlainRelocation::TableIndexRelSleb),
            13 => RelocationKind::Plain(PlainRelocation::GlobalIndexI32),
            14 => RelocationKind::Addend64(Addend64Relocation::MemoryAddrLeb64),
            15 => RelocationKind::Addend64(Addend64Relocation::MemoryAddrSleb64),
            16 => RelocationKind::Addend64(Addend64Relocation::MemoryAddrI64),
            17 => RelocationKind::Addend64(Addend64Relocation::MemoryAddrRelSleb64),
            18 => RelocationKind::Plain(PlainRelocation::TableIndexSleb64),
            19 => RelocationKind::Plain(PlainRelocation::TableIndexI64),
            20 => RelocationKind::Plain(PlainRelocation::TableNumberLeb),
            21 => RelocationKind::Addend32(Addend32Relocation::MemoryAddrTlsSleb),
            22 => RelocationKind::Addend64(Addend64Relocation::FunctionOffsetI64),
            23 => RelocationKind::Addend32(Addend32Relocation::MemoryAddrLocrelI32),
            24 => RelocationKind::Plain(PlainRelocation::TableIndexRelSleb64),
            25 => RelocationKind::Addend64(Addend64Relocation::MemoryAddrTlsSleb64),
            26 => RelocationKind::Plain(PlainRelocation::FunctionIndexI32),
            _ => return Err(ReadFault::UnknownTag.just_before(rest)),
        };
        Ok((kind, rest))
    }
}

impl Layout for Relocation {
    ghost Value = { RelocationModel };

    ghost format = { relocation };

    ghost view = { λ relocation. relocation };

    #[tactic(auto, using(crate::proofs::RelocationLaws::relocation_unambiguous))]
    fn laws() {}
}

impl<'a, A: Allocator + Copy, G: Grammar> Readable<'a, A, G> for Relocation {
    ghost may_allocate = { ⊥ };

    #[tactic(auto, using(crate::proofs::RelocationLaws::relocation_steps))]
    fn read(bytes: &'a [u8], alloc: A) -> Result<(Relocation, &'a [u8]), DecodeError> {
        let (kind, rest) = <RelocationKind as Readable<'a, A, G>>::read(bytes, alloc)?;
        let ((offset, index), rest) = <(u32, u32) as Readable<'a, A, G>>::read(rest, alloc)?;
        match kind {
            RelocationKind::Plain(kind) => {
                let relocation = Relocation::Plain {
                    kind,
                    offset,
                    index,
                };
                Ok((relocation, rest))
            }
            RelocationKind::Addend32(kind) => {
                let (addend, rest) = <i32 as Readable<'a, A, G>>::read(rest, alloc)?;
                let relocation = Relocation::Addend32 {
                    kind,
                    offset,
                    index,
                    addend,
                };
                Ok((relocation, rest))
            }
            RelocationKind::Addend64(kind) => {
                let (addend, rest) = <i64 as Readable<'a, A, G>>::read(rest, alloc)?;
                let relocation = Relocation::Addend64 {
                    kind,
                    offset,
                    index,
                    addend,
                };
                Ok((relocation, rest))
            }
        }
    }
}

impl Shorten for Relocation {
    ghost grammars = { both_grammars };

    #[tactic(auto, using(crate::proofs::RelocationLaws::relocation_appended))]
    fn write_minimal<B: Allocator>(&self, sink: &mut Vec<u8, B>) -> Result<()> {
        self.encode(sink)
    }
}

/// Decodes the payload of a relocation section, in the grammar `G`: its name, the index of the
/// section that is relocated, and the relocations.
///
/// # Errors
///
/// Every error except `Memory` means that the bytes are not such a payload.
#[tactic(auto, using(crate::proofs::RelocationLaws::section_steps))]
pub fn read_relocations<'a, A: Allocator + Copy, G: Grammar>(
    bytes: &'a [u8],
    alloc: A,
) -> Result<(&'a str, u32, Vec<Relocation, A>), DecodeError>
    ensures found { IfOk result (λ x. relocations_payload (padded_of G.grammar) bytes.now (x.0.now, (x.1, x.2.items))) }
    ensures none { IfErr result (λ e. e.cause ≢ Memory → RejectsWhole relocations_payload (padded_of G.grammar) bytes.now) }
{
    let (name, rest) = <&'a str as Readable<'a, A, G>>::read(bytes, alloc)?;
    if !name.as_bytes().starts_with(b"reloc.") {
        return Err(ReadFault::UnknownTag.at(name.as_bytes()).before(rest));
    }
    let (section, rest) = <u32 as Readable<'a, A, G>>::read(rest, alloc)?;
    let relocations = read_whole::<'a, Vec<Relocation, A>, A, G>(rest, alloc)?;
    Ok((name, section, relocations))
}

/// Writes the bytes that [`append_relocations`] appends. After an error, part of them may follow
/// the old bytes.
#[tactic(auto, using(crate::proofs::RelocationLaws::section_appended, crate::proofs::RelocationLaws::name_encoded, crate::proofs::RelocationLaws::list_encoded))]
fn write_relocations<A: Allocator, B: Allocator>(
    name: &str,
    section: u32,
    relocations: &Vec<Relocation, A>,
    sink: &mut Vec<u8, B>,
) -> Result<()>
    ensures ok { OnOk result (AppendsMinimal both_grammars relocations_payload (name.now, (section, relocations.now.items)) sink.old.items sink.new.items) }
    ensures front { IsFrontOf sink.old.items sink.new.items }
    ensures too_long { HasEncoding both_grammars relocations_payload (name.now, (section, relocations.now.items)) → result ≢ Err TooLong }
{
    name.write_minimal(sink)?;
    section.write_minimal(sink)?;
    relocations.write_minimal(sink)
}

/// Appends the minimal encoding of the payload of a relocation section of this whole name, which
/// begins with `reloc.`, for the section of this index. On an error, the sink is unchanged.
pub fn append_relocations<A: Allocator, B: Allocator>(
    name: &str,
    section: u32,
    relocations: &Vec<Relocation, A>,
    sink: &mut Vec<u8, B>,
) -> Result<()>
    ensures ok { OnOk result (AppendsMinimal both_grammars relocations_payload (name.now, (section, relocations.now.items)) sink.old.items sink.new.items) }
    ensures err { OnErr result (sink.new.items ≡ sink.old.items) }
    ensures too_long { HasEncoding both_grammars relocations_payload (name.now, (section, relocations.now.items)) → result ≢ Err TooLong }
{
    let start = sink.len();
    let written = write_relocations(name, section, relocations, sink);
    if written.is_err() {
        sink.truncate(start);
    }
    written
}
