//! Laws about expressions, bodies and code sections, for all byte sequences: each function does
//! nothing, and its clauses are the law.
//!
//! `Unambiguous F` says that the format `F` is unambiguous: at most one value decodes from the
//! front of any bytes, with minimal and with padded numbers. A value has at most one minimal
//! encoding. `UnambiguousWhole F` says the same of a format that occupies all of the bytes.
//! `HasMinimalEncodings F encodable encoding` says that `encoding` is the minimal encoding of each
//! value that fits.
ghost use Rattle.std.specs.Prelude.{◌∷◌, [], List};
ghost use Rattle.wasm_base.specs.Formats.{any_bytes, size_prefixed, vec};
ghost use Rattle.wasm_base.specs.Modules.{DecodesPayloads, DecodesPayloadsPadded};
ghost use Rattle.wasm_base.specs.Numbers.{padded, standard};
ghost use Rattle.wasm_base.specs.Decoding.{Unambiguous, UnambiguousWhole, HasMinimalEncodings, UnambiguousPadded, UnambiguousWholePadded};
ghost use Rattle.wasm_code.specs.Bodies.{Run, body};
ghost use Rattle.wasm_code.specs.Code.{raw_code, code_section};
ghost use Rattle.wasm_code.specs.Expressions.{expression};
ghost use Rattle.wasm_code.specs.Laws.{RejectsAllAfter, HasOffsets, FindsAdded, HaveOneExpansion, ContainsMoreBodies, GrowsByEncoding, GrowsByLabels, ContainsMoreBodiesPadded, GrowsPadded, GrowsByEncodingPadded, StoresMorePadded, IsEncodablePlainExpression, plain_expression_encoding, IsEncodableBody, body_encoding, IsEncodableSizedBody, body_size_prefixed_encoding, IsEncodableRawCode, raw_code_encoding, IsEncodableCodeSection, code_section_encoding};
ghost use Rattle.wasm_insn.specs.declared.instruction.Instruction.{Instruction};
ghost use Rattle.wasm_code.specs.Offsets.{OffsetLaws};

pub use self::{padded as wide, rejections as nothing_stands};
use std::alloc::Allocator;

/// The format of expressions is unambiguous: an expression ends at the first `End` at which an
/// instruction begins.
#[tactic(auto, using(crate::proofs::CodeEncodings::expressions))]
pub fn expressions()
    ensures unambiguous { Unambiguous expression }
    ensures encodings { HasMinimalEncodings expression IsEncodablePlainExpression plain_expression_encoding }
{}

/// The formats of bodies and of code sections, of raw bodies and of decoded ones, are unambiguous.
#[tactic(auto, using(crate::proofs::CodeEncodings::bodies))]
pub fn bodies()
    ensures body { UnambiguousWhole body }
    ensures size_prefixed { Unambiguous (size_prefixed body) }
    ensures raw_code { Unambiguous raw_code }
    ensures code_section { Unambiguous code_section }

    ensures body_encodings { HasMinimalEncodings body IsEncodableBody body_encoding }
    ensures size_prefixed_encodings { HasMinimalEncodings (size_prefixed body) IsEncodableSizedBody body_size_prefixed_encoding }
    ensures raw_code_encodings { HasMinimalEncodings raw_code IsEncodableRawCode raw_code_encoding }
    ensures code_section_encodings { HasMinimalEncodings code_section IsEncodableCodeSection code_section_encoding }
{}

/// Suppose that a raw body decodes, and a longer one that begins with it decodes too. Then an
/// instruction begins at the shorter one's length, in the only decoding of the longer one. If a
/// well-formed instruction was appended next, it is that one.
#[tactic(auto, using(crate::proofs::BodyLaws::offset))]
pub fn offset<A: Allocator>()
    ensures begins { HasOffsets }
    ensures added { (i : Instruction A) → FindsAdded i }
{}

/// If a module decodes to ids and payloads, and a code section decodes to bodies alone, then the
/// section's payload decodes to these alone.
#[tactic(auto, using(crate::proofs::CodeLaws::payloads))]
pub fn payloads()
    ensures raw_code { DecodesPayloads (vec (size_prefixed any_bytes)) }
    ensures code_section { DecodesPayloads (vec (size_prefixed body)) }
{}

/// The same with padded numbers.
#[tactic(auto, using(wasm_base::proofs::Payloads::padded_payloads))]
pub fn padded_payloads()
    ensures raw_code { DecodesPayloadsPadded (vec (size_prefixed any_bytes)) }
    ensures code_section { DecodesPayloadsPadded (vec (size_prefixed body)) }
{}

/// The bodies that a code section holds, call by call; and the instruction that a body gains when a
/// named call of a sink appends to it.
#[tactic(auto, using(crate::proofs::Calls::calls))]
pub fn calls<A: Allocator>()
    ensures code { ContainsMoreBodies }
    ensures instruction { (i : Instruction A) → GrowsByEncoding i }
    ensures labels { GrowsByLabels }
{}

/// The same with padded numbers: the content of a code section, a body and a constant expression,
/// call by call.
#[tactic(auto, using(crate::proofs::Calls::padded_calls))]
pub fn padded_calls<A: Allocator>()
    ensures code { ContainsMoreBodiesPadded }
    ensures body { GrowsPadded }
    ensures instruction { (i : Instruction A) → GrowsByEncodingPadded i }
    ensures expression { StoresMorePadded }
{}

/// With padded numbers the formats are unambiguous too.
#[tactic(auto, using(crate::proofs::CodeLaws::padded_laws))]
pub fn padded()
    ensures expression { UnambiguousPadded expression }
    ensures body { UnambiguousWholePadded body }
    ensures size_prefixed { UnambiguousPadded (size_prefixed body) }
    ensures raw_code { UnambiguousPadded raw_code }
    ensures code_section { UnambiguousPadded code_section }
{}

/// A list of types has at most one list of runs with counts of at least 1 and no two neighbours of
/// one type.
#[tactic(auto, using(crate::proofs::RunLaws::one_expansion))]
pub fn locals()
    ensures { (xs ys : List Run) → HaveOneExpansion xs ys }
{}

/// With minimal numbers, these two byte sequences encode no code section: in one a memory argument
/// is truncated, in the other a count of runs is padded. With padded numbers the second is a code
/// section.
#[tactic(auto, using(crate::proofs::RejectionLaws::nothing))]
pub fn rejections()
    ensures cut { RejectsAllAfter code_section (6 ∷ 1 ∷ 4 ∷ 0 ∷ 40 ∷ 16 ∷ 0 ∷ []) }
    ensures padded_of { RejectsAllAfter code_section (5 ∷ 1 ∷ 3 ∷ 128 ∷ 0 ∷ 11 ∷ []) }
{}

/// The visitor of a body is at the offsets that `Function::byte_len` returned when the body was
/// built. After as many instructions as a raw body has, a visitor of a longer body that begins with
/// it is at that raw body's length. It has then visited exactly that body.
#[tactic(auto, using(crate::proofs::OffsetSteps::offsets))]
pub fn offsets()
    ensures padded { OffsetLaws padded }
    ensures standard { OffsetLaws standard }
{}
