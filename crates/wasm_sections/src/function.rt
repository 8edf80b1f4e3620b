// The function section.
ghost use Rattle.std.specs.Prelude.{ℕ, ⊤};
ghost use Rattle.wasm_base.specs.Calls.{AddsTo};
ghost use Rattle.wasm_base.specs.Numbers.{unsigned_encoding};
ghost use Rattle.wasm_sections.specs.Functions.{function_items};

use crate::counted_section::{CountedSection, ItemKind, RecordOf};
use std::alloc::{Allocator, Global};
use wasm_base::{Encode, Kind, Pieces, Result, SectionId, Store};

/// The function section: the types of the functions that a module defines, in the order of their
/// bodies.
///
/// ```rust
/// let mut functions = FunctionSection::new(alloc);
/// functions.function(0)?;
/// module.section(&functions)?;
/// ```
pub type FunctionSection<A = Global> = CountedSection<FunctionItems, Pieces<A>>;

/// The kind of a function section's items: the index of a type for each function.
#[derive(Clone, Copy, Debug)]
pub struct FunctionItems;

impl Kind for FunctionItems {
    ghost Record = { ℕ };

    ghost Item = { ℕ };

    ghost kind = { function_items };

    #[tactic(auto, using(crate::proofs::FunctionLaws::function_laws))]
    fn laws() {}
}

impl ItemKind for FunctionItems {
    ghost use Rattle.wasm_base.specs.SectionId.{number_of};
    ghost use Rattle.wasm_base.specs.declared.section_id.SectionId.TheVariants as ids;

    ghost section_id = { number_of ids.Function };

    fn id() -> u8 {
        SectionId::Function.into()
    }
}

impl RecordOf<FunctionItems> for u32 {}

/// The index of a type. Many have two bytes, which are also written inline.
#[derive(Clone, Copy)]
struct TypeIndex {
    index: u32,
}

impl Encode for TypeIndex {
    ghost encoding = { λ given. unsigned_encoding given.index };

    ghost encodable = { λ _. ⊤ };

    #[tactic(auto, using(crate::proofs::FunctionLaws::two_bytes))]
    #[inline]
    fn encode<A: Allocator>(&self, sink: &mut Vec<u8, A>) -> Result<()> {
        let index = self.index;
        if index < 0x80 {
            return index.encode(sink);
        }
        if index < 0x4000 && sink.capacity() - sink.len() >= 2 {
            sink.push_reserved((index % 0x80) as u8 + 0x80);
            sink.push_reserved((index / 0x80) as u8);
            return Ok(());
        }
        index.encode(sink)
    }
}

impl<S: Store> CountedSection<FunctionItems, S> {
    /// Adds a function of the type of this index.
    pub fn function(&mut self, type_index: u32) -> Result<()>
        ensures { AddsTo S.model (unsigned_encoding type_index) ⊤ self.old self.new result }
    {
        self.add_record(&TypeIndex { index: type_index })
    }
}
