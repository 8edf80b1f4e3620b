// The trait `Section`: an id, and an encoding that is usually size-prefixed.
ghost use Rattle.std.specs.Prelude.{◌≡◌, ◌<◌, ℕ, List, ◌∷◌, length, Err, OnOk};
ghost use Rattle.wasm_base.specs.Calls.{Appends, DecodesBack};
ghost use Rattle.wasm_base.specs.Formats.{any_bytes, size_prefixed};
ghost use Rattle.wasm_base.specs.Numbers.{Mode};
ghost use Rattle.wasm_base.specs.Encodings.{longest, size_prefixed_encoding, HasEncodableSize, IsSizePrefixed};
ghost use Rattle.wasm_base.specs.declared.refused.Refused.TheVariants.{TooLong};

use crate::encode::Encode;
use crate::frames::encode_size_prefixed;
use crate::refused::{Refused, Result};
use std::alloc::Allocator;

/// A section of a module: an id, and an encoding from which a reader decodes the section's items.
pub trait Section: Encode {
    ghost use Rattle.wasm_base.specs.Calls.{DecodesBack};
    ghost use Rattle.wasm_base.specs.Encodings.{IsSizePrefixed};

    /// The section id.
    ghost id_of: { Self → ℕ };

    /// The type of the decoded content: the items, or the bytes of a section without items.
    ghost Items: { Type 0 };

    /// The format of the content.
    ghost format: { Mode → List ℕ → Items → Type 0 };

    /// The section holds these items.
    ghost says: { Self → Items → Type 0 };

    /// The encoding is the size prefix of these bytes, and the bytes.
    ghost payload: { Self → List ℕ → Type 0 };

    /// Returns the section id.
    fn id(&self) -> u8
        ensures { result ≡ id_of self.now };

    /// Appends the id and the encoding.
    ///
    /// # Errors
    ///
    /// Returns [`Refused`], and leaves the bytes of `dst` unchanged, if the section is too long or
    /// an allocation fails.
    fn append_to<A: Allocator>(&self, dst: &mut Vec<u8, A>) -> Result<()>
        ensures appends { Appends (id_of self.now ∷ Self.encoding self.now) (Self.encodable self.now) dst.old dst.new result }
        ensures read { OnOk result (Self.decoding self.now) }
        ensures too_many { Self.overlong self.now → result ≡ Err TooLong }
    {
        let start = dst.len();
        if dst.push(self.id()).is_err() {
            // A section that is too long returns `TooLong`, however much memory there is.
            let refused = self.encode(dst).err();
            dst.truncate(start);
            return Err(refused.unwrap_or(Refused::Memory));
        }
        if let Err(refused) = self.encode(dst) {
            dst.truncate(start);
            return Err(refused);
        }
        Ok(())
    }

    /// The encoding is the payload with its size prefix.
    ghost sized: { (section : Self) (bytes : List ℕ) → Self.encodable section → payload section bytes → IsSizePrefixed (Self.encoding section) bytes };

    /// The headline: `encode` promises at least that the encoding decodes to the items alone.
    ghost decodes_back: { (section : Self) → Self.decoding section → DecodesBack format (says section) (Self.encoding section) };
}

/// A section of raw bytes, which become its payload.
#[derive(Clone, Copy, Debug)]
pub struct RawSection<'a> {
    pub id: u8,
    pub bytes: &'a [u8],
}

impl Encode for RawSection<'_> {
    ghost encoding = { λ s. size_prefixed_encoding s.bytes.now };

    ghost encodable = { λ s. HasEncodableSize s.bytes.now };

    ghost overlong = { λ s. longest < length s.bytes.now };

    ghost decoding = { λ s. DecodesBack (size_prefixed any_bytes) (λ bytes. bytes ≡ s.bytes.now) (size_prefixed_encoding s.bytes.now) };

    fn encode<A: Allocator>(&self, sink: &mut Vec<u8, A>) -> Result<()> {
        encode_size_prefixed(sink, self.bytes)
    }
}

impl Section for RawSection<'_> {
    ghost use Rattle.wasm_base.specs.Encodings.{raw_sized};

    ghost id_of = { λ s. s.id };

    ghost Items = { List ℕ };

    ghost format = { size_prefixed any_bytes };

    ghost says = { λ s bytes. bytes ≡ s.bytes.now };

    ghost payload = { λ s bytes. bytes ≡ s.bytes.now };

    fn id(&self) -> u8 {
        self.id
    }

    ghost sized = { λ s bytes encodable says. raw_sized s.bytes.now bytes encodable says };

    ghost decodes_back = { λ s promised. promised };
}
