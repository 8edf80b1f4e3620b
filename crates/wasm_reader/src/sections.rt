// Iterates over the sections of a module.
ghost use Rattle.std.specs.Prelude.{◌≡◌, ◌≢◌, ◌++◌, ◌+◌, ◌<◌, ◌≤◌, ◌^◌, suc, length, take, option_map, IfOk, IfErr, OnOk, OnErr};
ghost use Rattle.std.specs.Iterator.{at_most};
ghost use Rattle.wasm_base.specs.Formats.{fixed, header};
ghost use Rattle.wasm_base.specs.Minimal.{MinimizesWhole};
ghost use Rattle.wasm_base.specs.Numbers.{admitted, padded, standard};
ghost use Rattle.wasm_base.specs.Continuing.{RejectsWhole};
ghost use Rattle.wasm_base.specs.Decoding.{Rejects};
ghost use Rattle.wasm_base.specs.declared.fault.ReadFault.TheVariants.{Memory};
ghost use Rattle.wasm_reader.specs.Kinds.{Contents, content, contents_of, number_in};
ghost use Rattle.wasm_reader.specs.Outlines.{section_of, section_kind_of, bytes_of, IsSection, IsDataOf};
ghost use Rattle.wasm_reader.specs.Iterating.{Iterating, Located, IsHeaderError, IsFirstWrong, ahead, end_of, known_kind_of, IsInPayload, NextSection};

use crate::kinds::{Items, SectionKind, read_content};
use crate::minimal::minimize_content;
use crate::modules::{HEADER, read_header};
use crate::read_error::ReadError;
use crate::standing::{Standing, read_standing};
use crate::walk::count_content;
use std::alloc::{Allocator, Global};
use std::iter::FusedIterator;
use std::marker::Model;
use std::ops::Range;
use wasm_base::Standard;

/// Returns the length of the longest common prefix of two slices.
fn common_length(bytes: &[u8], other: &[u8]) -> usize
    ensures within { result ≤ length bytes.now }
    ensures inside { result ≤ length other.now }
    ensures same { take result bytes.now ≡ take result other.now }
    ensures differs { result < length bytes.now → result < length other.now → take (suc result) bytes.now ≢ take (suc result) other.now }
{
    let mut count = 0;
    while count < bytes.len() && count < other.len() && bytes[count] == other[count] {
        count += 1;
    }
    count
}

/// Returns the offset of the error of bytes that do not begin with the header: that of the first
/// wrong byte, or the end of too few.
fn wrong_at(bytes: &[u8]) -> usize
    ensures short { length bytes.now < length header → result ≡ length bytes.now }
    ensures wrong { length header ≤ length bytes.now → Rejects (fixed header (tt {0})) padded bytes.now → IsFirstWrong bytes.now result }
    ensures within { result ≤ length bytes.now }
{
    if bytes.len() < HEADER.len() {
        return bytes.len();
    }
    common_length(bytes, &HEADER)
}

/// The sections of a module, one after another. It allocates nothing.
///
/// ```text
/// for section in Sections::new(alloc, module)? {
///     let section = section?;
///     // section.id(), section.name(), section.range(), section.items()?
/// }
/// ```
///
/// The iterator does not validate the module: sections may have any ids, in any order and number.
/// Decoded items are in memory of the allocator.
///
/// # Errors
///
/// Every error except `Memory` means that the bytes at the offset of the next section are not an id
/// and a size-prefixed payload. It is the last item.
#[derive(Clone, Debug, Drop)]
pub struct Sections<'a, A: Allocator = Global> {
    alloc: A,
    module: &'a [u8],
    offset: usize,
}

impl<'a, A: Allocator> Model for Sections<'a, A> {
    ghost Value = { Iterating };

    ghost view = { λ s. record { bytes = s.module.now; offset = s.offset } };

    ghost invariant = { λ s. s.offset ≤ length s.module.now };
}

impl<'a, A: Allocator + Copy> Sections<'a, A> {
    /// Checks the header of a module, and returns an iterator over its sections.
    ///
    /// # Errors
    ///
    /// An error means that the bytes do not begin with the header of a module: `Ended` if there
    /// are fewer than 8, and otherwise `UnknownTag` at the first byte that differs. A component
    /// differs in the version, at offset 4.
    pub fn new(alloc: A, module: &'a [u8]) -> Result<Self, ReadError>
        ensures found { IfOk result (λ it. module.now ≡ header ++ ahead it) }
        ensures offset { IfOk result (λ it. it.offset ≡ length header) }
        ensures same { IfOk result (λ it. it.bytes ≡ module.now) }
        ensures none { IfErr result (λ _. Rejects (fixed header (tt {0})) padded module.now) }
        ensures why { IfErr result (λ e. IsHeaderError module.now e) }
        ensures within { IfErr result (λ e. e.offset ≤ length module.now) }
    {
        match read_header(module) {
            Ok(rest) => Ok(Sections {
                alloc,
                module,
                offset: module.len() - rest.len(),
            }),
            Err(cause) => Err(ReadError {
                cause,
                offset: wrong_at(module),
            }),
        }
    }

    /// Returns the offset of the next section in the module, in bytes. After an error, it is that
    /// of the section that failed.
    pub fn offset(&self) -> usize
        ensures { result ≡ self.now.offset }
    {
        self.offset
    }
}

impl<'a, A: Allocator + Copy> Iterator for Sections<'a, A> {
    type Item = Result<Section<'a, A>, ReadError>;

    ghost next_gives = { NextSection };

    ghost remaining = { λ it. at_most (length (ahead it)) };

    fn next(&mut self) -> Option<Result<Section<'a, A>, ReadError>> {
        let offset = self.offset;
        let bytes = &self.module[offset..];
        if bytes.is_empty() {
            return None;
        }
        match read_standing(bytes, self.alloc) {
            Ok((standing, rest)) => {
                let size = bytes.len() - rest.len();
                self.offset = offset + size;
                Some(Ok(Section {
                    alloc: self.alloc,
                    offset,
                    bytes: &bytes[..size],
                    standing,
                }))
            }
            Err(error) => {
                let end = self.module.len();
                self.module = &self.module[..offset];
                Some(Err(ReadError::located(error, bytes.len(), end)))
            }
        }
    }
}

impl<'a, A: Allocator + Copy> FusedIterator for Sections<'a, A> {}

/// A section of a module, whose payload is not yet decoded.
///
/// Calls that decode accept all encodings that the standard admits.
#[derive(Clone, Debug, Drop)]
pub struct Section<'a, A: Allocator = Global> {
    alloc: A,
    offset: usize,
    bytes: &'a [u8],
    standing: Standing<'a>,
}

impl<'a, A: Allocator> Model for Section<'a, A> {
    ghost Value = { Located };

    ghost view = { λ s. record { offset = s.offset; section = section_of s.standing } };

    ghost invariant = { λ s. IsSection (section_of s.standing) × (s.bytes.now ≡ bytes_of (section_of s.standing)) × (s.offset + length s.bytes.now < 2 ^ 64) × IsDataOf (section_of s.standing).name (section_of s.standing).payload s.standing.data.now };
}

impl<'a, A: Allocator + Copy> Section<'a, A> {
    /// Returns the allocator of decoded items.
    pub(crate) fn allocator(&self) -> A {
        self.alloc
    }

    /// Returns the section without its offset.
    pub(crate) fn standing(&self) -> &Standing<'a>
        ensures { section_of result.now ≡ self.now.section }
    {
        &self.standing
    }

    /// Returns the section's id.
    pub fn id(&self) -> u8
        ensures { result ≡ self.now.section.id }
    {
        self.standing.id
    }

    /// Returns the kind that the payload is decoded as. The id selects it, and for a custom section
    /// the name. It is `None` if the id is above 13, and the items are then `Items::Raw`.
    pub fn kind(&self) -> Option<SectionKind>
        ensures { result ≡ known_kind_of self.now.section }
    {
        if self.standing.id < 14 {
            Some(self.standing.kind())
        } else {
            None
        }
    }

    /// Returns the name of a custom section, if its payload begins with one.
    pub fn name(&self) -> Option<&'a str>
        ensures { option_map (λ n. n.now) result ≡ self.now.section.name }
    {
        self.standing.name
    }

    /// Returns the offset of the section's id in the module, in bytes.
    pub fn offset(&self) -> usize
        ensures { result ≡ self.now.offset }
    {
        self.offset
    }

    /// Returns all bytes of the section: its id, its size prefix and its payload.
    pub fn bytes(&self) -> &'a [u8]
        ensures { result.now ≡ bytes_of self.now.section }
    {
        self.bytes
    }

    /// Returns the offsets of the payload in the module, in bytes.
    pub fn range(&self) -> Range<usize>
        ensures start { result.start + length self.now.section.payload ≡ end_of self.now }
        ensures end { result.end ≡ end_of self.now }
        ensures after { self.now.offset < result.start }
    {
        let end = self.offset + self.bytes.len();
        end - self.standing.payload.len()..end
    }

    /// Returns the payload: the bytes after the size prefix.
    #[tactic(auto, using(crate::proofs::DecodeOutlines::payload_small))]
    pub fn payload(&self) -> &'a [u8]
        ensures value { result.now ≡ self.now.section.payload }
        ensures size { length result.now < 2 ^ 32 }
    {
        self.standing.payload
    }

    /// Returns the data of a custom section: the bytes of the payload after the name. Of other
    /// sections, and if the payload begins with no name, it returns the payload.
    pub fn data(&self) -> &'a [u8]
        ensures { IsDataOf self.now.section.name self.now.section.payload result.now }
    {
        self.standing.data
    }

    /// Returns the number of items, or `None` if they are not counted: those of custom sections,
    /// and of sections of ids above 13. The items of a type section are its entries, and a
    /// recursion group is one entry. The call decodes the payload, keeps no list of items, and requests
    /// no memory.
    ///
    /// # Errors
    ///
    /// An error means that the payload does not decode as the section's kind. It is never `Memory`.
    pub fn count(&self) -> Result<Option<u32>, ReadError>
        ensures found { IfOk result (λ number. (x : Contents) × content (section_kind_of self.now.section) standard self.now.section.payload x × (number ≡ number_in x)) }
        ensures none { IfErr result (λ e. e.cause ≢ Memory → RejectsWhole (content (section_kind_of self.now.section)) standard self.now.section.payload) }
        ensures no_memory { IfErr result (λ e. e.cause ≢ Memory) }
        ensures within { IfErr result (λ e. IsInPayload self.now e.offset) }
    {
        let payload = self.standing.payload;
        match count_content::<A, Standard>(self.standing.kind(), payload, self.alloc) {
            Ok(number) => Ok(number),
            Err(error) => Err(ReadError::located(error, payload.len(), self.range().end)),
        }
    }

    /// Decodes the payload, and returns its items. Names, data and raw bytes are slices of the
    /// module; lists are in memory of the allocator. The payload of a custom section of a known
    /// name must be of that kind.
    ///
    /// # Errors
    ///
    /// Every error except `Memory` means that the payload does not decode as the section's kind.
    pub fn items(&self) -> Result<Items<'a, A>, ReadError>
    where
        A: 'a,
        ensures found { IfOk result (λ x. content (section_kind_of self.now.section) standard self.now.section.payload (contents_of x)) }
        ensures none { IfErr result (λ e. e.cause ≢ Memory → RejectsWhole (content (section_kind_of self.now.section)) standard self.now.section.payload) }
        ensures within { IfErr result (λ e. IsInPayload self.now e.offset) }
    {
        match read_content::<A, Standard>(self.standing.kind(), self.standing.payload, self.alloc) {
            Ok(items) => Ok(items),
            Err(error) => Err(ReadError::located(
                error,
                self.standing.payload.len(),
                self.range().end,
            )),
        }
    }

    /// Appends the payload in its minimal encoding. In the standard's grammar a nullable reference
    /// to an abstract type has one byte, for example. On an error, the bytes of the sink are
    /// unchanged.
    ///
    /// Items are decoded one by one and, as measured, not kept.
    ///
    /// ```text
    /// let mut payload = Vec::new(alloc);
    /// section.minimize(&mut payload)?;
    /// module.section(&RawSection { id: section.id(), bytes: &payload })?;
    /// ```
    ///
    /// # Errors
    ///
    /// Every error except `Memory` means that the payload does not decode as the section's kind.
    pub fn minimize<B: Allocator>(&self, sink: &mut Vec<u8, B>) -> Result<(), ReadError>
        ensures found { OnOk result (MinimizesWhole admitted (content (section_kind_of self.now.section)) self.now.section.payload sink.old.items sink.new.items) }
        ensures err { OnErr result (sink.new.items ≡ sink.old.items) }
        ensures none { IfErr result (λ e. e.cause ≢ Memory → RejectsWhole (content (section_kind_of self.now.section)) standard self.now.section.payload) }
        ensures within { IfErr result (λ e. IsInPayload self.now e.offset) }
    {
        let start = sink.len();
        let payload = self.standing.payload;
        match minimize_content::<A, Standard, _>(self.standing.kind(), payload, self.alloc, sink) {
            Ok(()) => Ok(()),
            Err(error) => {
                sink.truncate(start);
                Err(ReadError::located(error, payload.len(), self.range().end))
            }
        }
    }
}
