// Subsections of custom sections: an id, and a size-prefixed content.
ghost use Rattle.std.specs.Prelude.{◌≡◌, ◌≢◌, ◌+◌, ◌≤◌, length, vec_len, vec_capacity, Err, IsOk, ⊤};
ghost use Rattle.wasm_base.specs.Calls.{Appends};
ghost use Rattle.wasm_base.specs.Numbers.{unsigned_encoding};
ghost use Rattle.wasm_base.specs.Encodings.{longest, size_prefixed_encoding, HasEncodableSize};
ghost use Rattle.wasm_base.specs.declared.refused.Refused.TheVariants.{TooLong};
ghost use Rattle.wasm_custom.specs.Customs.{subsection_encoding};

use std::alloc::Allocator;
use wasm_base::{Encode, Result, begin_size_prefixed, encoding_size};

/// The content of a subsection, whose size is known before it is encoded.
pub(crate) trait Content: Encode {
    /// Returns the length of the encoding in bytes if a size prefix can represent it, and a number
    /// above 4294967295 otherwise.
    fn size(&self) -> usize
        ensures known { result ≤ longest → result ≡ length (Self.encoding self.now) }
        ensures small { length (Self.encoding self.now) ≤ longest → result ≡ length (Self.encoding self.now) };
}

/// Encodes the name.
impl Content for &str {
    fn size(&self) -> usize {
        let len = self.len();
        match u32::try_from(len) {
            Ok(short) => len.saturating_add(encoding_size(short)),
            Err(_) => len,
        }
    }
}

/// Bytes that are already encoded.
#[derive(Clone, Copy)]
pub(crate) struct RawContent<'a>(pub &'a [u8]);

/// Encodes the bytes as they are.
impl Encode for RawContent<'_> {
    ghost encoding = { λ s. s.0.now };

    ghost encodable = { λ _. ⊤ };

    fn encode<A: Allocator>(&self, sink: &mut Vec<u8, A>) -> Result<()> {
        sink.extend_from_slice(self.0)?;
        Ok(())
    }
}

impl Content for RawContent<'_> {
    fn size(&self) -> usize {
        self.0.len()
    }
}

/// Appends the content with its size prefix.
fn encode_content<T: Content, A: Allocator>(sink: &mut Vec<u8, A>, content: &T) -> Result<()>
    ensures { Appends (size_prefixed_encoding (T.encoding content.now)) (HasEncodableSize (T.encoding content.now) × T.encodable content.now) sink.old sink.new result }
{
    let start = sink.len();
    begin_size_prefixed(sink, content.size())?;
    if let Err(refused) = content.encode(sink) {
        sink.truncate(start);
        return Err(refused);
    }
    Ok(())
}

/// Reserves spare capacity for the id, the size prefix and the content of a subsection, in one
/// request.
fn reserve_subsection<A: Allocator>(sink: &mut Vec<u8, A>, size: usize) -> Result<()>
    ensures same { sink.new.items ≡ sink.old.items }
    ensures memory { result ≢ Err TooLong }
    ensures spare { size ≤ longest
        → vec_len sink.old + (1 + (length (unsigned_encoding size) + size)) ≤ vec_capacity sink.old
        → IsOk result }
    ensures capacity { vec_capacity sink.old ≤ vec_capacity sink.new }
{
    if let Ok(short) = u32::try_from(size) {
        sink.reserve(size.saturating_add(encoding_size(short)).saturating_add(1))?;
    }
    Ok(())
}

/// A subsection: an id, and a borrowed content.
#[derive(Drop)]
pub(crate) struct Subsection<'a, T> {
    pub id: u8,
    pub content: &'a T,
}

/// Encodes the id, and the content with its size prefix.
impl<T: Content> Encode for Subsection<'_, T> {
    ghost encoding = { λ s. subsection_encoding s.id (T.encoding s.content.now) };

    ghost encodable = { λ s. HasEncodableSize (T.encoding s.content.now) × T.encodable s.content.now };

    fn encode<A: Allocator>(&self, sink: &mut Vec<u8, A>) -> Result<()> {
        reserve_subsection(sink, self.content.size())?;
        let start = sink.len();
        sink.push(self.id)?;
        if let Err(refused) = encode_content(sink, self.content) {
            sink.truncate(start);
            return Err(refused);
        }
        Ok(())
    }
}
