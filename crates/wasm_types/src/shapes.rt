// Decoding of composite types.
ghost use Rattle.std.specs.Prelude.{◌≢◌, IfOk, IfErr};
ghost use Rattle.wasm_base.specs.Numbers.{padded_of};
ghost use Rattle.wasm_base.specs.Decoding.{Decodes, Rejects};
ghost use Rattle.wasm_base.specs.declared.fault.ReadFault.TheVariants.{Memory};
ghost use Rattle.wasm_types.specs.Given.{shape_in, composite_in};
ghost use Rattle.wasm_types.specs.RecTypes.{after_shape, after_descriptor, after_describes, after_composite, composite_type};
ghost use Rattle.wasm_types.specs.Items.{described_view, describing_view};

use crate::types::{
    ArrayType, CompositeInnerType, CompositeType, ContType, FieldType, FuncType, StructType,
};
use std::alloc::Allocator;
use wasm_base::{DecodeError, Grammar, ReadFault, Readable, ValType, read_index};

/// Decodes an inner type after its first byte, `tag`.
#[tactic(auto, using(crate::proofs::DecodeShapes::shape_steps))]
fn read_shape_after<'a, A: Allocator + Copy, G: Grammar>(
    tag: u8,
    bytes: &'a [u8],
    alloc: A,
) -> Result<(CompositeInnerType<A>, &'a [u8]), DecodeError>
    ensures found { IfOk result (λ x. Decodes (after_shape tag) (padded_of G.grammar) bytes.now (shape_in x.0) x.1.now) }
    ensures none { IfErr result (λ e. e.cause ≢ Memory → Rejects (after_shape tag) (padded_of G.grammar) bytes.now) }
{
    match tag {
        0x60 => {
            let ((params, results), rest) = <(Vec<ValType, A>, Vec<ValType, A>) as Readable<
                'a,
                A,
                G,
            >>::read(bytes, alloc)?;
            Ok((
                CompositeInnerType::Func(FuncType::of(params, results)),
                rest,
            ))
        }
        0x5E => {
            let (field, rest) = <FieldType as Readable<'a, A, G>>::read(bytes, alloc)?;
            Ok((CompositeInnerType::Array(ArrayType(field)), rest))
        }
        0x5F => {
            let (fields, rest) = <Vec<FieldType, A> as Readable<'a, A, G>>::read(bytes, alloc)?;
            Ok((CompositeInnerType::Struct(StructType { fields }), rest))
        }
        0x5D => {
            let (index, rest) = read_index::<G>(bytes)?;
            Ok((CompositeInnerType::Cont(ContType(index)), rest))
        }
        _ => Err(ReadFault::UnknownTag.just_before(bytes)),
    }
}

/// Decodes an optional descriptor and an inner type after the first byte, `tag`.
#[tactic(auto, using(crate::proofs::DecodeShapes::index_steps))]
fn read_descriptor_after<'a, A: Allocator + Copy, G: Grammar>(
    tag: u8,
    bytes: &'a [u8],
    alloc: A,
) -> Result<((Option<u32>, CompositeInnerType<A>), &'a [u8]), DecodeError>
    ensures found { IfOk result (λ x. Decodes (after_descriptor tag) (padded_of G.grammar) bytes.now (described_view x.0) x.1.now) }
    ensures none { IfErr result (λ e. e.cause ≢ Memory → Rejects (after_descriptor tag) (padded_of G.grammar) bytes.now) }
{
    if tag == 0x4D {
        let ((index, tag), rest) = <(u32, u8) as Readable<'a, A, G>>::read(bytes, alloc)?;
        let (inner, rest) = read_shape_after::<A, G>(tag, rest, alloc)?;
        Ok(((Some(index), inner), rest))
    } else {
        let (inner, rest) = read_shape_after::<A, G>(tag, bytes, alloc)?;
        Ok(((None, inner), rest))
    }
}

/// Decodes an optional described type, an optional descriptor and an inner type after the first
/// byte, `tag`.
#[tactic(auto, using(crate::proofs::DecodeShapes::index_steps))]
fn read_describes_after<'a, A: Allocator + Copy, G: Grammar>(
    tag: u8,
    bytes: &'a [u8],
    alloc: A,
) -> Result<
    (
        (Option<u32>, (Option<u32>, CompositeInnerType<A>)),
        &'a [u8],
    ),
    DecodeError,
>
    ensures found { IfOk result (λ x. Decodes (after_describes tag) (padded_of G.grammar) bytes.now (describing_view x.0) x.1.now) }
    ensures none { IfErr result (λ e. e.cause ≢ Memory → Rejects (after_describes tag) (padded_of G.grammar) bytes.now) }
{
    if tag == 0x4C {
        let ((index, tag), rest) = <(u32, u8) as Readable<'a, A, G>>::read(bytes, alloc)?;
        let (inner, rest) = read_descriptor_after::<A, G>(tag, rest, alloc)?;
        Ok(((Some(index), inner), rest))
    } else {
        let (inner, rest) = read_descriptor_after::<A, G>(tag, bytes, alloc)?;
        Ok(((None, inner), rest))
    }
}

/// Decodes a composite type after its first byte, `tag`.
#[tactic(auto, using(crate::proofs::DecodeShapes::composite_steps))]
pub(crate) fn read_composite_after<'a, A: Allocator + Copy, G: Grammar>(
    tag: u8,
    bytes: &'a [u8],
    alloc: A,
) -> Result<(CompositeType<A>, &'a [u8]), DecodeError>
    ensures found { IfOk result (λ x. Decodes (after_composite tag) (padded_of G.grammar) bytes.now (composite_in x.0) x.1.now) }
    ensures none { IfErr result (λ e. e.cause ≢ Memory → Rejects (after_composite tag) (padded_of G.grammar) bytes.now) }
{
    if tag == 0x65 {
        let (tag, rest) = <u8 as Readable<'a, A, G>>::read(bytes, alloc)?;
        let ((describes, (descriptor, inner)), rest) = read_describes_after::<A, G>(
            tag, rest, alloc,
        )?;
        let composite = CompositeType {
            inner,
            shared: true,
            descriptor,
            describes,
        };
        Ok((composite, rest))
    } else {
        let ((describes, (descriptor, inner)), rest) = read_describes_after::<A, G>(
            tag, bytes, alloc,
        )?;
        let composite = CompositeType {
            inner,
            shared: false,
            descriptor,
            describes,
        };
        Ok((composite, rest))
    }
}

/// Decodes a composite type.
pub(crate) fn read_composite<'a, A: Allocator + Copy, G: Grammar>(
    bytes: &'a [u8],
    alloc: A,
) -> Result<(CompositeType<A>, &'a [u8]), DecodeError>
    ensures found { IfOk result (λ x. Decodes composite_type (padded_of G.grammar) bytes.now (composite_in x.0) x.1.now) }
    ensures none { IfErr result (λ e. e.cause ≢ Memory → Rejects composite_type (padded_of G.grammar) bytes.now) }
{
    let (tag, rest) = <u8 as Readable<'a, A, G>>::read(bytes, alloc)?;
    read_composite_after::<A, G>(tag, rest, alloc)
}
