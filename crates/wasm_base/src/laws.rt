//! Laws about the formats of this crate, for all byte sequences: each function does nothing, and
//! its clauses are the law.
//!
//! `Unambiguous F` says that the format `F` is unambiguous: at most one value decodes from the
//! front of any bytes, with minimal and with padded numbers. A value has at most one minimal
//! encoding. `HasMinimalEncodings F encodable encoding` says that `encoding` is the minimal
//! encoding of each value that fits. No clause ranges over all formats, so each vector and each
//! size-prefixed format has a clause of its own.
ghost use Rattle.std.specs.Prelude.{ℕ, List, [], ◌∷◌, ◌≡◌, ◌≢◌, false, true, pos, All, IsUtf8};
ghost use Rattle.wasm_base.specs.Formats.{
  u32 as u32_format,
  u64 as u64_format,
  s32,
  s64,
  s33,
  little_endian,
  byte,
  any_bytes,
  vec,
  size_prefixed,
  name,
  custom,
  pair,
  wasm_module,
};
ghost use Rattle.wasm_base.specs.Modules.{DecodesPayloads, DecodesPayloadsPadded};
ghost use Rattle.wasm_base.specs.Laws.{IsUnsignedInRange, IsByteNumberInRange, IsSigned32InRange, IsSigned64InRange, IsEncodableName, custom_encoding, IsEncodableCustom};
ghost use Rattle.wasm_base.specs.Numbers.{standard, standard_minimal, padded, unsigned_encoding, signed_encoding};
ghost use Rattle.wasm_base.specs.Decoding.{Rejects, Unambiguous, UnambiguousWhole, HasMinimalEncodings, BeginsWith, UnambiguousPadded, UnambiguousWholePadded};
ghost use Rattle.wasm_base.specs.Types.{heap_type, ref_type, val_type, heap_encoding, ref_encoding, val_encoding, IsHeap, IsRef, IsVal, IsIndexByte, abstract_code, nullable_abstract, nullable_to};
ghost use Rattle.wasm_base.specs.declared.types.AbstractHeapType.{AbstractHeapType};
ghost use Rattle.wasm_base.specs.declared.types.AbstractHeapType.TheVariants.{Func, Extern};
ghost use Rattle.wasm_base.specs.declared.types.HeapType.{HeapType};
ghost use Rattle.wasm_base.specs.declared.types.HeapType.TheVariants.{Abstract};
ghost use Rattle.wasm_base.specs.declared.types.TheConstants.HeapType.{FUNC, EXTERN};
ghost use Rattle.wasm_base.specs.declared.types.TheConstants.RefType.{FUNCREF, EXTERNREF};
ghost use Rattle.wasm_base.specs.Encodings.{vec_encoding, IsEncodableVec, size_prefixed_encoding, HasEncodableSize, module_encoding, IsEncodableModule, little_endian_encoding};

pub use self::padded as wide;

/// The formats of numbers are unambiguous. `s33` is an index, encoded as a signed number.
#[tactic(auto, using(crate::proofs::BaseLaws::numbers))]
pub fn numbers()
    ensures u32 { Unambiguous u32_format }
    ensures u64 { Unambiguous u64_format }
    ensures s32 { Unambiguous s32 }
    ensures s64 { Unambiguous s64 }
    ensures s33 { Unambiguous s33 }

    ensures u32_encodings { HasMinimalEncodings u32_format (IsUnsignedInRange 32) unsigned_encoding }
    ensures u64_encodings { HasMinimalEncodings u64_format (IsUnsignedInRange 64) unsigned_encoding }
    ensures s32_encodings { HasMinimalEncodings s32 IsSigned32InRange signed_encoding }
    ensures s64_encodings { HasMinimalEncodings s64 IsSigned64InRange signed_encoding }
    ensures s33_encodings { HasMinimalEncodings s33 (IsUnsignedInRange 32) (λ n. signed_encoding (pos n)) }
{}

/// Fixed-width bytes, names, vectors and size-prefixed payloads are unambiguous, and so is a module
/// of section ids and payloads.
#[tactic(auto, using(crate::proofs::BaseLaws::frames))]
pub fn frames()
    ensures fixed_4 { Unambiguous (little_endian 4) }
    ensures fixed_8 { Unambiguous (little_endian 8) }
    ensures fixed_16 { Unambiguous (little_endian 16) }
    ensures vec_bytes { Unambiguous (vec byte) }
    ensures vec_u32 { Unambiguous (vec u32_format) }
    ensures vec_names { Unambiguous (vec name) }
    ensures size_prefixed { Unambiguous (size_prefixed any_bytes) }
    ensures name { Unambiguous name }
    ensures custom { Unambiguous custom }
    ensures wasm_module { UnambiguousWhole wasm_module }

    ensures fixed_4_encodings { HasMinimalEncodings (little_endian 4) (IsByteNumberInRange 4) (little_endian_encoding 4) }
    ensures fixed_8_encodings { HasMinimalEncodings (little_endian 8) (IsByteNumberInRange 8) (little_endian_encoding 8) }
    ensures fixed_16_encodings { HasMinimalEncodings (little_endian 16) (IsByteNumberInRange 16) (little_endian_encoding 16) }
    ensures vec_bytes_encodings { HasMinimalEncodings (vec byte) HasEncodableSize size_prefixed_encoding }
    ensures vec_u32_encodings { HasMinimalEncodings (vec u32_format) (IsEncodableVec (IsUnsignedInRange 32)) (vec_encoding unsigned_encoding) }
    ensures vec_names_encodings { HasMinimalEncodings (vec name) (IsEncodableVec IsEncodableName) (vec_encoding size_prefixed_encoding) }
    ensures size_prefixed_encodings { HasMinimalEncodings (size_prefixed any_bytes) HasEncodableSize size_prefixed_encoding }
    ensures name_encodings { HasMinimalEncodings name IsEncodableName size_prefixed_encoding }
    ensures custom_encodings { HasMinimalEncodings custom IsEncodableCustom custom_encoding }
    ensures module_encodings { HasMinimalEncodings wasm_module IsEncodableModule module_encoding }
{}

/// Suppose that a module decodes to ids and payloads, and that a payload with its size prefix
/// decodes to one value alone. Then the payload decodes to this value alone.
#[tactic(auto, using(crate::proofs::Payloads::raw_payloads))]
pub fn payloads()
    ensures bytes { DecodesPayloads any_bytes }
    ensures u32 { DecodesPayloads u32_format }
    ensures custom { DecodesPayloads (pair name any_bytes) }
{}

/// The same with padded numbers.
#[tactic(auto, using(crate::proofs::Payloads::padded_payloads))]
pub fn padded_payloads()
    ensures bytes { DecodesPayloadsPadded any_bytes }
    ensures u32 { DecodesPayloadsPadded u32_format }
    ensures custom { DecodesPayloadsPadded (pair name any_bytes) }
{}

/// The formats of types are unambiguous. No index begins with a byte that encodes a type, nor with
/// 0x40, the empty block type.
#[tactic(auto, using(crate::proofs::ValTypeLaws::types))]
pub fn types()
    ensures heap { Unambiguous heap_type }
    ensures reference { Unambiguous ref_type }
    ensures value { Unambiguous val_type }
    ensures index { BeginsWith IsIndexByte s33 }

    ensures heap_encodings { HasMinimalEncodings heap_type IsHeap heap_encoding }
    ensures reference_encodings { HasMinimalEncodings ref_type IsRef ref_encoding }
    ensures value_encodings { HasMinimalEncodings val_type IsVal val_encoding }
{}

/// In the standard's grammar, the byte of an abstract heap type is the minimal encoding of the
/// nullable reference type to it. In the builders' grammar only 0x70 and 0x6F are.
#[tactic(auto, using(crate::proofs::RefTypeLaws::standard_types))]
pub fn standard_types()
    ensures reference { (ty : AbstractHeapType) → ref_type standard_minimal (abstract_code ty ∷ []) (nullable_abstract ty) }
    ensures long { (heap : HeapType) (s : List ℕ) → heap_type standard s heap → ref_type standard (0x63 ∷ s) (nullable_to heap) }
    ensures builders { (ty : AbstractHeapType) (rest : List ℕ) → ty ≢ Func → ty ≢ Extern → Rejects ref_type padded (abstract_code ty ∷ rest) }
{}

/// The values of the constants of types.
pub fn constants()
    ensures function { FUNC ≡ Abstract false Func }
    ensures host { EXTERN ≡ Abstract false Extern }
    ensures function_reference { FUNCREF ≡ record { nullable = true; heap_type = Abstract false Func } }
    ensures host_reference { EXTERNREF ≡ record { nullable = true; heap_type = Abstract false Extern } }
{}

/// With padded numbers, as the standard allows them, the formats are unambiguous too. A minimal
/// encoding is also an encoding in this mode.
#[tactic(auto, using(crate::proofs::BaseLaws::padded_laws, crate::proofs::ValTypeLaws::padded_types))]
pub fn padded()
    ensures u32 { UnambiguousPadded u32_format }
    ensures u64 { UnambiguousPadded u64_format }
    ensures s32 { UnambiguousPadded s32 }
    ensures s64 { UnambiguousPadded s64 }
    ensures s33 { UnambiguousPadded s33 }
    ensures fixed_4 { UnambiguousPadded (little_endian 4) }
    ensures fixed_8 { UnambiguousPadded (little_endian 8) }
    ensures fixed_16 { UnambiguousPadded (little_endian 16) }
    ensures vec_bytes { UnambiguousPadded (vec byte) }
    ensures vec_u32 { UnambiguousPadded (vec u32_format) }
    ensures vec_names { UnambiguousPadded (vec name) }
    ensures size_prefixed { UnambiguousPadded (size_prefixed any_bytes) }
    ensures name { UnambiguousPadded name }
    ensures custom { UnambiguousPadded custom }
    ensures wasm_module { UnambiguousWholePadded wasm_module }
    ensures heap_type { UnambiguousPadded heap_type }
    ensures ref_type { UnambiguousPadded ref_type }
    ensures val_type { UnambiguousPadded val_type }
{}

/// A name is UTF-8. For a name behind a reference, as in a record, no clause shows that; this call
/// does.
pub fn plain_name(name: &str)
    ensures { IsUtf8 name.now }
{}

/// Each name of a list is UTF-8.
pub fn plain_names(names: &[&str])
    ensures { All (λ name. IsUtf8 name.now) names.now }
{
    for name in names {
        plain_name(name);
    }
}
