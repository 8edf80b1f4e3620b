// The tag section: its builder and its reader.
ghost use Rattle.std.specs.Prelude.{◌≡◌, ⊤};
ghost use Rattle.wasm_base.specs.Calls.{AddsTo};
ghost use Rattle.wasm_base.specs.Formats.{coded};
ghost use Rattle.wasm_sections.specs.Tags.{tag_items, tag_code, tag_encoding, tag_type};
ghost use Rattle.wasm_sections.specs.declared.tag.TagKind.{TagKind as Kind};
ghost use Rattle.wasm_sections.specs.declared.tag.TagType.{TagType as Tag};

use crate::counted_section::{CountedSection, ItemKind, RecordOf};
use std::alloc::{Allocator, Global};
use wasm_base::{
    DecodeError, Encode, Grammar, Kind, Layout, Pieces, ReadFault, Readable, Result, SectionId,
    Store,
};

/// The tag section: the tags that a module defines.
///
/// ```rust
/// let mut tags = TagSection::new(alloc);
/// tags.tag(TagType { kind: TagKind::Exception, func_type_idx: 0 })?;
/// module.section(&tags)?;
/// ```
pub type TagSection<A = Global> = CountedSection<TagItems, Pieces<A>>;

/// The kind of a tag section's items: tag types.
#[derive(Clone, Copy, Debug)]
pub struct TagItems;

/// The kind of a tag. The standard has exceptions only.
#[derive(Clone, Copy, PartialEq, Eq, Debug)]
pub enum TagKind {
    Exception,
}

/// The type of a tag.
#[derive(Clone, Copy, PartialEq, Eq, Debug)]
pub struct TagType {
    pub kind: TagKind,
    /// The index of a function type, whose parameters the tag carries.
    pub func_type_idx: u32,
}

impl TagKind {
    /// Returns the byte that encodes the kind.
    #[inline]
    fn byte(self) -> u8
        ensures { result ≡ tag_code self }
    {
        match self {
            TagKind::Exception => 0x00,
        }
    }
}

/// Encodes the kind, and the index.
impl Encode for TagType {
    ghost encoding = { tag_encoding };

    ghost encodable = { λ _. ⊤ };

    #[inline]
    fn encode<A: Allocator>(&self, sink: &mut Vec<u8, A>) -> Result<()> {
        (self.kind.byte(), self.func_type_idx).encode(sink)
    }
}

impl Kind for TagItems {
    ghost Record = { Tag };

    ghost Item = { Tag };

    ghost kind = { tag_items };

    #[tactic(auto, using(crate::proofs::TagLaws::tag_laws))]
    fn laws() {}
}

impl ItemKind for TagItems {
    ghost use Rattle.wasm_base.specs.SectionId.{number_of};
    ghost use Rattle.wasm_base.specs.declared.section_id.SectionId.TheVariants as ids;

    ghost section_id = { number_of ids.Tag };

    fn id() -> u8 {
        SectionId::Tag.into()
    }
}

impl RecordOf<TagItems> for TagType {}

impl<S: Store> CountedSection<TagItems, S> {
    /// Adds a tag of this type.
    pub fn tag(&mut self, tag_type: TagType) -> Result<()>
        ensures { AddsTo S.model (tag_encoding tag_type) ⊤ self.old self.new result }
    {
        self.add_record(&tag_type)
    }
}

impl Layout for TagKind {
    ghost Value = { Kind };

    ghost format = { coded tag_code };

    ghost view = { λ kind. kind };

    #[tactic(auto, using(crate::proofs::TagLaws::tag_kind_unambiguous))]
    fn laws() {}
}

impl<'a, A: Allocator + Copy, G: Grammar> Readable<'a, A, G> for TagKind {
    ghost may_allocate = { ⊥ };

    #[tactic(auto, using(crate::proofs::TagLaws::tag_kind_steps))]
    fn read(bytes: &'a [u8], alloc: A) -> Result<(TagKind, &'a [u8]), DecodeError> {
        let (code, rest) = <u8 as Readable<'a, A, G>>::read(bytes, alloc)?;
        if code == 0x00 {
            Ok((TagKind::Exception, rest))
        } else {
            Err(ReadFault::UnknownTag.just_before(rest))
        }
    }
}

impl Layout for TagType {
    ghost Value = { Tag };

    ghost format = { tag_type };

    ghost view = { λ tag. tag };

    #[tactic(auto, using(crate::proofs::TagLaws::tag_unambiguous))]
    fn laws() {}
}

impl<'a, A: Allocator + Copy, G: Grammar> Readable<'a, A, G> for TagType {
    ghost may_allocate = { ⊥ };

    #[tactic(auto, using(crate::proofs::TagLaws::tag_steps))]
    fn read(bytes: &'a [u8], alloc: A) -> Result<(TagType, &'a [u8]), DecodeError> {
        let ((kind, func_type_idx), rest) = <(TagKind, u32) as Readable<'a, A, G>>::read(
            bytes, alloc,
        )?;
        let tag = TagType {
            kind,
            func_type_idx,
        };
        Ok((tag, rest))
    }
}
