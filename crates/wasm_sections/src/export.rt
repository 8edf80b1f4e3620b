// The export section: its builder and its reader.
ghost use Rattle.std.specs.Prelude.{◌∷◌, ◌++◌, [], ⊤};
ghost use Rattle.wasm_base.specs.Calls.{AddsTo};
ghost use Rattle.wasm_base.specs.Formats.{coded};
ghost use Rattle.wasm_base.specs.Numbers.{unsigned_encoding};
ghost use Rattle.wasm_base.specs.Decoding.{Unambiguous};
ghost use Rattle.wasm_base.specs.Encodings.{size_prefixed_encoding, HasEncodableSize};
ghost use Rattle.wasm_sections.specs.Exports.{export_items, kind_code, export_encoding, IsEncodableExport, ExportItem, item_of, export};
ghost use Rattle.wasm_sections.specs.declared.export.Export.{Export as Given};
ghost use Rattle.wasm_sections.specs.declared.export.ExportKind.{ExportKind as Kind};

use crate::counted_section::{CountedSection, ItemKind, RecordOf};
use std::alloc::{Allocator, Global};
use wasm_base::{
    DecodeError, Encode, Grammar, Kind, Layout, Pieces, ReadFault, Readable, Result, SectionId,
    Store,
};

/// The export section: the items that a module exports.
///
/// ```rust
/// let mut exports = ExportSection::new(alloc);
/// exports.export("foo", ExportKind::Func, 0)?;
/// module.section(&exports)?;
/// ```
pub type ExportSection<A = Global> = CountedSection<ExportItems, Pieces<A>>;

/// The kind of an export section's items: exports.
#[derive(Clone, Copy, Debug)]
pub struct ExportItems;

/// The kind of an exported item.
#[derive(Clone, Copy, PartialEq, Eq, Hash, Debug)]
pub enum ExportKind {
    Func = 0x00,
    Table = 0x01,
    Memory = 0x02,
    Global = 0x03,
    Tag = 0x04,
}

/// An export: a name, and the item that is exported under it.
#[derive(Clone, Copy, Debug)]
pub struct Export<'a> {
    pub name: &'a str,
    pub kind: ExportKind,
    pub index: u32,
}

/// Encodes the kind as one byte.
impl Encode for ExportKind {
    ghost encoding = { λ kind. kind_code kind ∷ [] };

    ghost encodable = { λ _. ⊤ };

    #[inline]
    fn encode<A: Allocator>(&self, sink: &mut Vec<u8, A>) -> Result<()> {
        (*self as u8).encode(sink)
    }
}

/// Encodes the name, the kind and the index.
impl Encode for Export<'_> {
    ghost encoding = { export_encoding };

    ghost encodable = { IsEncodableExport };

    #[inline]
    fn encode<A: Allocator>(&self, sink: &mut Vec<u8, A>) -> Result<()> {
        (self.name, self.kind, self.index).encode(sink)
    }
}

impl Kind for ExportItems {
    ghost Record = { Given };

    ghost Item = { ExportItem };

    ghost kind = { export_items };

    #[tactic(auto, using(crate::proofs::ExportLaws::export_laws))]
    fn laws() {}
}

impl ItemKind for ExportItems {
    ghost use Rattle.wasm_base.specs.SectionId.{number_of};
    ghost use Rattle.wasm_base.specs.declared.section_id.SectionId.TheVariants as ids;

    ghost section_id = { number_of ids.Export };

    fn id() -> u8 {
        SectionId::Export.into()
    }
}

impl RecordOf<ExportItems> for Export<'_> {}

impl<S: Store> CountedSection<ExportItems, S> {
    /// Adds an export.
    pub fn export(&mut self, name: &str, kind: ExportKind, index: u32) -> Result<()>
        ensures { AddsTo S.model (size_prefixed_encoding name.now ++ (kind_code kind ∷ [] ++ unsigned_encoding index)) (HasEncodableSize name.now) self.old self.new result }
    {
        self.add_record(&Export { name, kind, index })
    }
}

impl Layout for ExportKind {
    ghost Value = { Kind };

    ghost format = { coded kind_code };

    ghost view = { λ kind. kind };

    #[tactic(auto, using(crate::proofs::ExportLaws::export_kind_unambiguous))]
    fn laws() {}
}

impl<'a, A: Allocator + Copy, G: Grammar> Readable<'a, A, G> for ExportKind {
    ghost may_allocate = { ⊥ };

    #[tactic(auto, using(crate::proofs::ExportLaws::export_kind_steps))]
    fn read(bytes: &'a [u8], alloc: A) -> Result<(ExportKind, &'a [u8]), DecodeError> {
        let (code, rest) = <u8 as Readable<'a, A, G>>::read(bytes, alloc)?;
        match code {
            0x00 => Ok((ExportKind::Func, rest)),
            0x01 => Ok((ExportKind::Table, rest)),
            0x02 => Ok((ExportKind::Memory, rest)),
            0x03 => Ok((ExportKind::Global, rest)),
            0x04 => Ok((ExportKind::Tag, rest)),
            _ => Err(ReadFault::UnknownTag.just_before(rest)),
        }
    }
}

impl<'a> Layout for Export<'a> {
    ghost Value = { ExportItem };

    ghost format = { export };

    ghost view = { item_of };

    #[tactic(auto, using(crate::proofs::ExportLaws::export_unambiguous))]
    fn laws()
        ensures { Unambiguous export }
    {}
}

impl<'a, A: Allocator + Copy, G: Grammar> Readable<'a, A, G> for Export<'a> {
    ghost may_allocate = { ⊥ };

    #[tactic(auto, using(crate::proofs::ExportLaws::export_steps))]
    fn read(bytes: &'a [u8], alloc: A) -> Result<(Export<'a>, &'a [u8]), DecodeError> {
        let ((name, (kind, index)), rest) = <(&'a str, (ExportKind, u32)) as Readable<
            'a,
            A,
            G,
        >>::read(bytes, alloc)?;
        Ok((Export { name, kind, index }, rest))
    }
}
