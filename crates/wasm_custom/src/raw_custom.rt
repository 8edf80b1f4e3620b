// Custom sections of raw bytes.
ghost use Rattle.std.specs.Prelude.{ℕ, List, ⊤};
ghost use Rattle.wasm_base.specs.Calls.{DecodesBackBoth};
ghost use Rattle.wasm_base.specs.Formats.{custom};
ghost use Rattle.wasm_base.specs.Numbers.{minimal, padded};

use std::alloc::Allocator;
use wasm_base::{Encode, Result, Section, SectionId};

/// A custom section of raw bytes, including its size prefix. The bytes are not checked: if they are
/// not a size prefix, a name and data, a reader of the module finds a section without a name or
/// other sections there, or fails.
///
/// ```rust
/// module.section(&RawCustomSection(&[2, 1, b'a']))?;
/// ```
#[derive(Clone, Copy, Debug)]
pub struct RawCustomSection<'a>(pub &'a [u8]);

/// Encodes the bytes as they are.
impl Encode for RawCustomSection<'_> {
    ghost encoding = { λ s. s.0.now };

    ghost encodable = { λ _. ⊤ };

    ghost decoding = { λ s. DecodesBackBoth custom (custom minimal s.0.now) (custom padded s.0.now) s.0.now };

    fn encode<A: Allocator>(&self, sink: &mut Vec<u8, A>) -> Result<()> {
        sink.extend_from_slice(self.0)?;
        Ok(())
    }
}

/// The payload is the bytes after the size prefix.
impl Section for RawCustomSection<'_> {
    ghost use Rattle.wasm_base.specs.Formats.{custom};
    ghost use Rattle.wasm_base.specs.Numbers.{minimal};
    ghost use Rattle.wasm_base.specs.SectionId.{number_of};
    ghost use Rattle.wasm_base.specs.Encodings.{IsSizePrefixed};
    ghost use Rattle.wasm_base.specs.declared.section_id.SectionId.TheVariants as ids;

    ghost id_of = { λ _. number_of ids.Custom };

    ghost Items = { List ℕ × List ℕ };

    ghost format = { custom };

    ghost says = { λ s. custom minimal s.0.now };

    ghost payload = { λ s. IsSizePrefixed s.0.now };

    fn id(&self) -> u8 {
        SectionId::Custom.into()
    }

    ghost sized = { λ s bytes encodable pays. pays };

    ghost decodes_back = { λ s promised. promised.plain };
}
