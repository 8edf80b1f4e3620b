// Entries of a type section, subtypes and recursion groups: decoded, and encoded again.
ghost use Rattle.std.specs.Prelude.{◌≢◌, IfOk, IfErr};
ghost use Rattle.wasm_base.specs.Formats.{such};
ghost use Rattle.wasm_base.specs.Numbers.{padded_of};
ghost use Rattle.wasm_base.specs.Decoding.{Decodes, Rejects};
ghost use Rattle.wasm_base.specs.declared.fault.ReadFault.TheVariants.{Memory};
ghost use Rattle.wasm_types.specs.Given.{composite_in};
ghost use Rattle.wasm_types.specs.RecTypes.{supertypes_and, HasFinalPrefix, after_sub, sub_encoding, sub_type, type_item, Sub, TypeItem as Entry};
ghost use Rattle.wasm_types.specs.Items.{sub_view, IsEncodableSubItem, entry_view};

use crate::shapes::{read_composite, read_composite_after};
use crate::types::CompositeType;
use std::alloc::{Allocator, Global};
use wasm_base::{DecodeError, Encode, Grammar, Layout, Lent, ReadFault, Readable, Result};

/// A decoded subtype: its supertypes, and whether it is final, so that it can have no subtypes.
#[derive(Drop, Debug)]
pub struct SubItem<A: Allocator = Global> {
    pub is_final: bool,
    /// The indices of its supertypes.
    pub supertypes: Vec<u32, A>,
    pub composite_type: CompositeType<A>,
}

/// A decoded entry of a type section.
#[derive(Drop, Debug)]
pub enum TypeEntry<A: Allocator = Global> {
    Single(SubItem<A>),
    /// A recursion group: types that may refer to one another.
    Group(Vec<SubItem<A>, A>),
}

/// Decodes supertypes, and a composite type.
fn read_supertypes_and<'a, A: Allocator + Copy, G: Grammar>(
    bytes: &'a [u8],
    alloc: A,
) -> Result<(Vec<u32, A>, CompositeType<A>, &'a [u8]), DecodeError>
    ensures found { IfOk result (λ x. Decodes supertypes_and (padded_of G.grammar) bytes.now (x.0.items, composite_in x.1) x.2.now) }
    ensures none { IfErr result (λ e. e.cause ≢ Memory → Rejects supertypes_and (padded_of G.grammar) bytes.now) }
{
    let (supertypes, rest) = <Vec<u32, A> as Readable<'a, A, G>>::read(bytes, alloc)?;
    let (composite_type, rest) = read_composite::<A, G>(rest, alloc)?;
    Ok((supertypes, composite_type, rest))
}

/// Decodes the supertypes of a final type, and its composite type. Only the standard's grammar has
/// an empty vector of supertypes here.
fn read_final_and<'a, A: Allocator + Copy, G: Grammar>(
    bytes: &'a [u8],
    alloc: A,
) -> Result<(Vec<u32, A>, CompositeType<A>, &'a [u8]), DecodeError>
    ensures found { IfOk result (λ x. Decodes (such (HasFinalPrefix G.grammar) supertypes_and) (padded_of G.grammar) bytes.now (x.0.items, composite_in x.1) x.2.now) }
    ensures none { IfErr result (λ e. e.cause ≢ Memory → Rejects (such (HasFinalPrefix G.grammar) supertypes_and) (padded_of G.grammar) bytes.now) }
{
    let (supertypes, rest) = <Vec<u32, A> as Readable<'a, A, G>>::read(bytes, alloc)?;
    if supertypes.is_empty() && !G::is_standard() {
        return Err(ReadFault::UnknownTag.just_before(rest));
    }
    let (composite_type, rest) = read_composite::<A, G>(rest, alloc)?;
    Ok((supertypes, composite_type, rest))
}

/// Decodes a subtype after its first byte, `tag`.
#[tactic(auto, using(crate::proofs::DecodeItems::sub_steps))]
fn read_sub_after<'a, A: Allocator + Copy, G: Grammar>(
    tag: u8,
    bytes: &'a [u8],
    alloc: A,
) -> Result<(SubItem<A>, &'a [u8]), DecodeError>
    ensures found { IfOk result (λ x. Decodes (after_sub tag) (padded_of G.grammar) bytes.now (sub_view x.0) x.1.now) }
    ensures none { IfErr result (λ e. e.cause ≢ Memory → Rejects (after_sub tag) (padded_of G.grammar) bytes.now) }
{
    match tag {
        0x50 => {
            let (supertypes, composite_type, rest) = read_supertypes_and::<A, G>(bytes, alloc)?;
            let sub = SubItem {
                is_final: false,
                supertypes,
                composite_type,
            };
            Ok((sub, rest))
        }
        0x4F => {
            let (supertypes, composite_type, rest) = read_final_and::<A, G>(bytes, alloc)?;
            let sub = SubItem {
                is_final: true,
                supertypes,
                composite_type,
            };
            Ok((sub, rest))
        }
        _ => {
            let (composite_type, rest) = read_composite_after::<A, G>(tag, bytes, alloc)?;
            let sub = SubItem {
                is_final: true,
                supertypes: Vec::new(alloc),
                composite_type,
            };
            Ok((sub, rest))
        }
    }
}

impl<A: Allocator> Layout for SubItem<A> {
    ghost Value = { Sub };

    ghost format = { sub_type };

    ghost view = { sub_view };

    #[tactic(auto, using(crate::proofs::TypeLaws::sub_unambiguous))]
    fn laws() {}
}

impl<'a, A: Allocator + Copy, G: Grammar> Readable<'a, A, G> for SubItem<A> {
    fn read(bytes: &'a [u8], alloc: A) -> Result<(SubItem<A>, &'a [u8]), DecodeError> {
        let (tag, rest) = <u8 as Readable<'a, A, G>>::read(bytes, alloc)?;
        read_sub_after::<A, G>(tag, rest, alloc)
    }
}

impl<A: Allocator> Layout for TypeEntry<A> {
    ghost Value = { Entry };

    ghost format = { type_item };

    ghost view = { entry_view };

    #[tactic(auto, using(crate::proofs::TypeLaws::type_unambiguous))]
    fn laws() {}
}

impl<'a, A: Allocator + Copy, G: Grammar> Readable<'a, A, G> for TypeEntry<A> {
    fn read(bytes: &'a [u8], alloc: A) -> Result<(TypeEntry<A>, &'a [u8]), DecodeError> {
        let (tag, rest) = <u8 as Readable<'a, A, G>>::read(bytes, alloc)?;
        if tag == 0x4E {
            let (types, rest) = <Vec<SubItem<A>, A> as Readable<'a, A, G>>::read(rest, alloc)?;
            Ok((TypeEntry::Group(types), rest))
        } else {
            let (sub, rest) = read_sub_after::<A, G>(tag, rest, alloc)?;
            Ok((TypeEntry::Single(sub), rest))
        }
    }
}

/// Encodes the subtype's prefix, if it needs one, and the composite type.
impl<A: Allocator> Encode for SubItem<A> {
    ghost encoding = { λ s. sub_encoding (sub_view s) };

    ghost encodable = { IsEncodableSubItem };

    #[tactic(auto, using(crate::proofs::MinimalTypes::before_steps))]
    fn encode<B: Allocator>(&self, sink: &mut Vec<u8, B>) -> Result<()> {
        if !self.is_final {
            return (
                0x50u8,
                self.supertypes.as_slice(),
                Lent(&self.composite_type),
            )
                .encode(sink);
        }
        if self.supertypes.is_empty() {
            return self.composite_type.encode(sink);
        }
        (
            0x4Fu8,
            self.supertypes.as_slice(),
            Lent(&self.composite_type),
        )
            .encode(sink)
    }
}

/// Encodes a subtype, or a byte and the vector of subtypes.
impl<A: Allocator> Encode for TypeEntry<A> {
    ghost use Rattle.wasm_types.specs.Items.{entry_encoding, IsEncodableEntry};

    ghost encoding = { entry_encoding };

    ghost encodable = { IsEncodableEntry };

    fn encode<B: Allocator>(&self, sink: &mut Vec<u8, B>) -> Result<()> {
        match self {
            TypeEntry::Single(sub) => sub.encode(sink),
            TypeEntry::Group(subs) => (0x4Eu8, subs.as_slice()).encode(sink),
        }
    }
}
