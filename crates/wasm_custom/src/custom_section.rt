// Custom sections: a name, and data up to the end of the payload.
ghost use Rattle.std.specs.Prelude.{◌≡◌, ◌≢◌, ℕ, ◌+◌, ◌<◌, ◌≤◌, List, ◌++◌, length, vec_len, vec_capacity, OnOk, OnErr, IfOk, IsOk, IsUtf8};
ghost use Rattle.wasm_base.specs.Calls.{DecodesBack};
ghost use Rattle.wasm_base.specs.Cow.{items_of, utf8_of};
ghost use Rattle.wasm_base.specs.Formats.{custom};
ghost use Rattle.wasm_base.specs.Numbers.{unsigned_encoding};
ghost use Rattle.wasm_base.specs.Encodings.{longest, size_prefixed_encoding};
ghost use Rattle.wasm_custom.specs.Customs.{named_encoding, IsEncodableNamed};

use std::alloc::{Allocator, Global};
use wasm_base::{
    CowSlice, CowStr, Encode, Refused, Result, Section, SectionId, begin_size_prefixed,
    encoding_size,
};

/// Appends the size prefix and the name of a custom section, and reserves spare capacity for `size`
/// bytes of data that the caller appends next.
pub(crate) fn begin_custom<A: Allocator>(
    sink: &mut Vec<u8, A>,
    name: &str,
    size: usize,
) -> Result<()>
    ensures ok { OnOk result (sink.new.items ≡ sink.old.items ++ (unsigned_encoding (length (size_prefixed_encoding name.now) + size) ++ size_prefixed_encoding name.now)) }
    ensures reserved { OnOk result (vec_len sink.new + size ≤ vec_capacity sink.new) }
    ensures err { OnErr result (sink.new.items ≡ sink.old.items) }

    ensures was_encodable { OnOk result (length (size_prefixed_encoding name.now) + size ≤ longest) }
    ensures too_long { length (size_prefixed_encoding name.now) + size ≤ longest → result ≢ Err Refused.TooLong }
    ensures too_many { longest < length (size_prefixed_encoding name.now) + size → result ≡ Err Refused.TooLong }

    ensures spare { length (size_prefixed_encoding name.now) + size ≤ longest
        → vec_len sink.old + (length (unsigned_encoding (length (size_prefixed_encoding name.now) + size)) + (length (size_prefixed_encoding name.now) + size)) ≤ vec_capacity sink.old
        → IsOk result }
    ensures capacity { vec_capacity sink.old ≤ vec_capacity sink.new }
{
    let Ok(short) = u32::try_from(name.len()) else {
        return Err(Refused::TooLong);
    };
    let named = u64::from(short).saturating_add(encoding_size(short) as u64);
    let Ok(total) = u32::try_from(named.saturating_add(size as u64)) else {
        return Err(Refused::TooLong);
    };
    begin_size_prefixed(sink, total as usize)?;
    name.encode(sink).unwrap();
    Ok(())
}

/// A custom section of any name and data.
///
/// ```rust
/// let section: CustomSection<'_> = CustomSection {
///     name: CowStr::Borrowed("test"),
///     bytes: CowSlice::Borrowed(&[11, 22, 33, 44]),
/// };
/// module.section(&section)?;
/// ```
#[derive(Drop, Debug)]
pub struct CustomSection<'a, A: Allocator = Global> {
    pub name: CowStr<'a, A>,
    /// The data.
    pub bytes: CowSlice<'a, u8, A>,
}

impl<'a, A: Allocator + Copy> CustomSection<'a, A> {
    /// Returns the same name and data, and copies owned ones into memory of their own.
    pub fn clone(&self) -> Result<Self>
        ensures same { IfOk result (λ s. (utf8_of s.name ≡ utf8_of self.now.name) × (items_of s.bytes ≡ items_of self.now.bytes)) }
        ensures memory { result ≢ Err Refused.TooLong }
    {
        Ok(CustomSection {
            name: self.name.clone()?,
            bytes: self.bytes.clone()?,
        })
    }
}

/// Sections are equal if their names and data have equal bytes.
impl<A: Allocator> PartialEq for CustomSection<'_, A> {
    ghost use Rattle.std.proofs.Common.{rules};
    ghost use Rattle.std.specs.Cmp.Rules.{comparing};
    ghost use Rattle.wasm_custom.specs.Customs.{same_section};

    ghost eq = { same_section };

    ghost laws = { Prim.search (comparing, rules) };

    fn eq(&self, other: &Self) -> bool {
        self.name.as_str().as_bytes() == other.name.as_str().as_bytes()
            && self.bytes.as_slice() == other.bytes.as_slice()
    }
}

impl<A: Allocator> Eq for CustomSection<'_, A> {
    ghost use Rattle.std.proofs.Common.{rules};
    ghost use Rattle.std.specs.Cmp.Rules.{comparing};

    ghost laws = { Prim.search (comparing, rules) };
}

/// Encodes the size prefix, the name and the data.
impl<A: Allocator> Encode for CustomSection<'_, A> {
    ghost encoding = { λ s. named_encoding (utf8_of s.name) (items_of s.bytes) };

    ghost encodable = { λ s. IsEncodableNamed (utf8_of s.name) (items_of s.bytes) };

    ghost overlong = { λ s. longest < length (size_prefixed_encoding (utf8_of s.name)) + length (items_of s.bytes) };

    ghost decoding = { λ s. DecodesBack custom (λ said. IsUtf8 (utf8_of s.name) × (said ≡ (utf8_of s.name, items_of s.bytes))) (named_encoding (utf8_of s.name) (items_of s.bytes)) };

    #[tactic(auto, unfolding(crate::specs::Customs::named_encoding))]
    fn encode<B: Allocator>(&self, sink: &mut Vec<u8, B>) -> Result<()> {
        let bytes = self.bytes.as_slice();
        begin_custom(sink, self.name.as_str(), bytes.len())?;
        sink.extend_from_slice(bytes).unwrap();
        Ok(())
    }
}

impl<A: Allocator> Section for CustomSection<'_, A> {
    ghost use Rattle.std.specs.Prelude.{IsUtf8};
    ghost use Rattle.wasm_base.specs.Cow.{items_of, utf8_of};
    ghost use Rattle.wasm_base.specs.Formats.{custom};
    ghost use Rattle.wasm_base.specs.SectionId.{number_of};
    ghost use Rattle.wasm_base.specs.declared.section_id.SectionId.TheVariants as ids;
    ghost use Rattle.wasm_custom.specs.Customs.{NamedPayload, named_sized};

    ghost id_of = { λ _. number_of ids.Custom };

    ghost Items = { List ℕ × List ℕ };

    ghost format = { custom };

    ghost says = { λ s said. IsUtf8 (utf8_of s.name) × (said ≡ (utf8_of s.name, items_of s.bytes)) };

    ghost payload = { λ s. NamedPayload (utf8_of s.name) (items_of s.bytes) };

    fn id(&self) -> u8 {
        SectionId::Custom.into()
    }

    ghost sized = { λ s bytes encodable pays. named_sized (utf8_of s.name) (items_of s.bytes) bytes encodable pays };

    ghost decodes_back = { λ s promised. promised };
}
