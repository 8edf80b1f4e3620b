// The start section and the data count section, which hold one number each.
ghost use Rattle.std.specs.Prelude.{◌≡◌, ℕ, OnOk};
ghost use Rattle.wasm_base.specs.Calls.{Appends, DecodesBack};
ghost use Rattle.wasm_base.specs.Formats.{size_prefixed, u32 as u32_format};
ghost use Rattle.wasm_base.specs.Numbers.{unsigned_encoding};
ghost use Rattle.wasm_base.specs.Encodings.{size_prefixed_encoding, HasEncodableSize};

use std::alloc::Allocator;
use wasm_base::{Encode, Result, Section, SectionId, begin_size_prefixed, encoding_size};

/// The start section: the function that runs when a module is instantiated.
///
/// ```rust
/// module.section(&StartSection { function_index: 0 })?;
/// ```
#[derive(Clone, Copy, Debug)]
pub struct StartSection {
    pub function_index: u32,
}

/// The data count section: the number of data segments. It belongs before the code that refers to
/// them.
///
/// ```rust
/// module.section(&DataCountSection { count: 1 })?;
/// module.section(&code)?;
/// ```
#[derive(Clone, Copy, Debug)]
pub struct DataCountSection {
    pub count: u32,
}

/// Appends the number with its size prefix, which decode to this number alone.
fn encode_number<A: Allocator>(sink: &mut Vec<u8, A>, number: u32) -> Result<()>
    ensures appends { Appends (size_prefixed_encoding (unsigned_encoding number)) (HasEncodableSize (unsigned_encoding number)) sink.old sink.new result }
    ensures read { OnOk result (DecodesBack (size_prefixed u32_format) (λ said. said ≡ number) (size_prefixed_encoding (unsigned_encoding number))) }
{
    begin_size_prefixed(sink, encoding_size(number))?;
    number.encode(sink).unwrap();
    Ok(())
}

/// Encodes the index with its size prefix.
impl Encode for StartSection {
    ghost encoding = { λ s. size_prefixed_encoding (unsigned_encoding s.function_index) };

    ghost encodable = { λ s. HasEncodableSize (unsigned_encoding s.function_index) };

    ghost decoding = { λ s. DecodesBack (size_prefixed u32_format) (λ index. index ≡ s.function_index) (size_prefixed_encoding (unsigned_encoding s.function_index)) };

    fn encode<A: Allocator>(&self, sink: &mut Vec<u8, A>) -> Result<()> {
        encode_number(sink, self.function_index)
    }
}

impl Section for StartSection {
    ghost use Rattle.wasm_base.specs.SectionId.{number_of};
    ghost use Rattle.wasm_base.specs.Encodings.{raw_sized};
    ghost use Rattle.wasm_base.specs.declared.section_id.SectionId.TheVariants as ids;

    ghost id_of = { λ _. number_of ids.Start };

    ghost Items = { ℕ };

    ghost format = { size_prefixed u32_format };

    ghost says = { λ s index. index ≡ s.function_index };

    ghost payload = { λ s bytes. bytes ≡ unsigned_encoding s.function_index };

    fn id(&self) -> u8 {
        SectionId::Start.into()
    }

    ghost sized = { λ s bytes encodable pays. raw_sized (unsigned_encoding s.function_index) bytes encodable pays };

    ghost decodes_back = { λ s promised. promised };
}

/// Encodes the count with its size prefix.
impl Encode for DataCountSection {
    ghost encoding = { λ s. size_prefixed_encoding (unsigned_encoding s.count) };

    ghost encodable = { λ s. HasEncodableSize (unsigned_encoding s.count) };

    ghost decoding = { λ s. DecodesBack (size_prefixed u32_format) (λ count. count ≡ s.count) (size_prefixed_encoding (unsigned_encoding s.count)) };

    fn encode<A: Allocator>(&self, sink: &mut Vec<u8, A>) -> Result<()> {
        encode_number(sink, self.count)
    }
}

impl Section for DataCountSection {
    ghost use Rattle.wasm_base.specs.SectionId.{number_of};
    ghost use Rattle.wasm_base.specs.Encodings.{raw_sized};
    ghost use Rattle.wasm_base.specs.declared.section_id.SectionId.TheVariants as ids;

    ghost id_of = { λ _. number_of ids.DataCount };

    ghost Items = { ℕ };

    ghost format = { size_prefixed u32_format };

    ghost says = { λ s count. count ≡ s.count };

    ghost payload = { λ s bytes. bytes ≡ unsigned_encoding s.count };

    fn id(&self) -> u8 {
        SectionId::DataCount.into()
    }

    ghost sized = { λ s bytes encodable pays. raw_sized (unsigned_encoding s.count) bytes encodable pays };

    ghost decodes_back = { λ s promised. promised };
}
