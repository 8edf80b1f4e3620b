// The segment information of a linking section: its builder, its reader and its minimizer.
ghost use Rattle.std.specs.Prelude.{Some, ◌++◌};
ghost use Rattle.wasm_base.specs.Calls.{AddsTo};
ghost use Rattle.wasm_base.specs.Decoding.{Unambiguous};
ghost use Rattle.wasm_base.specs.Encodings.{size_prefixed_encoding, HasEncodableSize};
ghost use Rattle.wasm_base.specs.Numbers.{unsigned_encoding};
ghost use Rattle.wasm_custom.specs.Segments.{SegmentInfo as SegmentModel, segment_encoding, IsSegment, segment, segment_view};
ghost use Rattle.wasm_base.specs.Minimal.{both_grammars};

use crate::lists::{CountedList, ListKind};
use std::alloc::{Allocator, Global};
use wasm_base::{DecodeError, Grammar, Layout, Pieces, Readable, Result, Shorten, Store};

/// The segments of a module, in the order in which they are added, which is that of the data
/// section. They are encoded as subsection 5 of a linking section.
///
/// ```rust
/// let mut segments = SegmentInfos::new(alloc);
/// segments.segment(".rodata.greeting", 0, 0)?;
/// ```
pub type SegmentInfos<A = Global> = CountedList<SegmentMembers, Pieces<A>>;

/// The kind of the members of a list of segments.
#[derive(Clone, Copy, Debug)]
pub struct SegmentMembers;

impl ListKind for SegmentMembers {
    ghost Member = { SegmentModel };

    ghost member_encoding = { segment_encoding };

    ghost is_member = { IsSegment };

    ghost subsection = { Some 5 };

    fn subsection() -> Option<u8> {
        Some(5)
    }
}

impl<S: Store> CountedList<SegmentMembers, S> {
    /// Adds a segment. Its alignment is 2 to the power `alignment`, in bytes.
    pub fn segment(&mut self, name: &str, alignment: u32, flags: u32) -> Result<()>
        ensures { AddsTo S.model (size_prefixed_encoding name.now ++ (unsigned_encoding alignment ++ unsigned_encoding flags)) (HasEncodableSize name.now) self.old self.new result }
    {
        self.add_record(&(name, alignment, flags))
    }
}

/// The name, the alignment and the flags of a data segment, for a linker. The segments of a module
/// are listed in the order of its data section.
#[derive(Clone, Copy, Debug)]
pub struct SegmentInfo<'a> {
    pub name: &'a str,
    /// The exponent of the alignment: 2 to this power is the alignment in bytes.
    pub alignment: u32,
    pub flags: u32,
}

impl<'a> Layout for SegmentInfo<'a> {
    ghost Value = { SegmentModel };

    ghost format = { segment };

    ghost view = { segment_view };

    #[tactic(auto, using(crate::proofs::SegmentLaws::segment_unambiguous))]
    fn laws()
        ensures { Unambiguous segment }
    {}
}

impl<'a, A: Allocator + Copy, G: Grammar> Readable<'a, A, G> for SegmentInfo<'a> {
    ghost may_allocate = { ⊥ };

    #[tactic(auto, using(crate::proofs::SegmentLaws::segment_steps))]
    fn read(bytes: &'a [u8], alloc: A) -> Result<(SegmentInfo<'a>, &'a [u8]), DecodeError> {
        let ((name, (alignment, flags)), rest) = <(&'a str, (u32, u32)) as Readable<
            'a,
            A,
            G,
        >>::read(bytes, alloc)?;
        let segment = SegmentInfo {
            name,
            alignment,
            flags,
        };
        Ok((segment, rest))
    }
}

impl<'a> Shorten for SegmentInfo<'a> {
    ghost grammars = { both_grammars };

    #[tactic(auto, using(crate::proofs::SegmentLaws::segment_appended, crate::proofs::SegmentLaws::segment_name_encoded))]
    fn write_minimal<B: Allocator>(&self, sink: &mut Vec<u8, B>) -> Result<()> {
        self.name.write_minimal(sink)?;
        self.alignment.write_minimal(sink)?;
        self.flags.write_minimal(sink)
    }
}
