//! Laws about type sections, for all byte sequences: each function does nothing, and its clauses
//! are the law.
ghost use Rattle.std.specs.Prelude.{ℕ, List, [], ◌∷◌};
ghost use Rattle.wasm_base.specs.Entries.{ItemLaws, counted_format};
ghost use Rattle.wasm_base.specs.Formats.{vec};
ghost use Rattle.wasm_base.specs.Laws.{ContainsMore, ContainsMorePadded, RejectsAllAfterPadded};
ghost use Rattle.wasm_base.specs.Modules.{DecodesPayloads, DecodesPayloadsPadded};
ghost use Rattle.wasm_base.specs.Numbers.{standard};
ghost use Rattle.wasm_base.specs.Decoding.{Unambiguous, UnambiguousPadded};
ghost use Rattle.wasm_types.specs.RecTypes.{Composite, alone_of, storage_type, field_type, composite_type, sub_type, type_item, type_items};

/// The formats of type sections, of types and of their components are unambiguous. A well-formed
/// record encodes its item.
pub fn types()
    ensures section { Unambiguous (counted_format type_item) }
    ensures item { Unambiguous type_item }
    ensures sub { Unambiguous sub_type }
    ensures composite { Unambiguous composite_type }
    ensures field { Unambiguous field_type }
    ensures storage { Unambiguous storage_type }
    ensures items { ItemLaws type_items }
{}

/// The standard's grammar also has a final type with an empty list of supertypes before its
/// composite type. It is the same subtype as the composite type alone.
#[tactic(auto, using(crate::proofs::TypeLaws::empty_list))]
pub fn standard()
    ensures { (bytes : List ℕ) (composite : Composite) → composite_type standard bytes composite → sub_type standard (0x4F ∷ 0x00 ∷ bytes) (alone_of composite) }
{}

/// With padded numbers the formats of type sections and types are unambiguous too. A minimal
/// encoding is also an encoding in this mode.
pub fn padded()
    ensures section { UnambiguousPadded (counted_format type_item) }
    ensures item { UnambiguousPadded type_item }
{}

/// The types that a type section holds, call by call: none at first, and one more after each call
/// that adds a well-formed record.
pub fn calls()
    ensures { ContainsMore type_items }
{}

/// The types that the entries of a type section encode with padded numbers, call by call.
#[tactic(auto, using(crate::proofs::TypeLaws::sections, wasm_base::proofs::SectionLaws::held_padded))]
pub fn padded_calls()
    ensures { ContainsMorePadded type_items }
{}

/// If a module decodes to ids and payloads, and a type section decodes to its items alone, then its
/// payload decodes to these alone.
pub fn payloads()
    ensures { DecodesPayloads (vec type_item) }
{}

/// The same with padded numbers.
#[tactic(auto, using(wasm_base::proofs::Payloads::padded_payloads))]
pub fn padded_payloads()
    ensures { DecodesPayloadsPadded (vec type_item) }
{}

/// These three byte sequences encode no type section in the builders' grammar, not even with padded
/// numbers. In the first a structure has a field of mutability 2. In the second the byte of a group
/// is padded. In the third a final type has an empty list of supertypes, which the standard admits.
#[tactic(auto, using(crate::proofs::RejectionLaws::nothing))]
pub fn rejections()
    ensures mutability_of_2 { RejectsAllAfterPadded (counted_format type_item) (5 ∷ 1 ∷ 95 ∷ 1 ∷ 127 ∷ 2 ∷ []) }
    ensures padded_group { RejectsAllAfterPadded (counted_format type_item) (4 ∷ 1 ∷ 206 ∷ 0 ∷ 0 ∷ []) }
    ensures no_supertypes { RejectsAllAfterPadded (counted_format type_item) (5 ∷ 1 ∷ 79 ∷ 0 ∷ 95 ∷ 0 ∷ []) }
{}
