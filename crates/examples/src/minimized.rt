//! Callers that minimize values while they are decoded.
ghost use Rattle.std.specs.Prelude.{◌≡◌, ◌≢◌, ◌++◌, [], ◌∷◌, false, ℕ, List, IfErr, OnOk, OnErr};
ghost use Rattle.wasm_base.specs.Decoding.{Decodes};
ghost use Rattle.wasm_base.specs.Formats.{size_prefixed};
ghost use Rattle.wasm_base.specs.Numbers.{minimal, padded, standard};
ghost use Rattle.wasm_base.specs.Types.{abstract_code, nullable_to, ref_type};
ghost use Rattle.wasm_base.specs.declared.types.AbstractHeapType.{AbstractHeapType};
ghost use Rattle.wasm_base.specs.declared.fault.ReadFault.TheVariants.{Memory};
ghost use Rattle.wasm_base.specs.declared.types.HeapType.TheVariants.{Abstract};
ghost use Rattle.wasm_base.specs.declared.types.RefType.{RefType as Reference};
ghost use Rattle.wasm_code.specs.Bodies.{Body, body};
ghost use Rattle.wasm_reader.specs.Kinds.{Contents, content};
ghost use Rattle.wasm_reader.specs.Outlines.{section_kind_of};

use std::alloc::Allocator;
use wasm_base::{DecodeError, RefType, Standard, Walk};
use wasm_code::shorten_body;
use wasm_reader::{ReadError, Section};

/// Minimizes a reference type in the standard's grammar. A nullable reference to an abstract type
/// becomes one byte, whether it had one byte or two.
pub fn one_byte_reference<A: Allocator + Copy>(
    alloc: A,
    bytes: &[u8],
    sink: &mut Vec<u8, A>,
) -> Result<(), DecodeError>
    ensures one { OnOk result ((ty : AbstractHeapType) (rest : List ℕ) → Decodes ref_type standard bytes.now (nullable_to (Abstract false ty)) rest → sink.new.items ≡ sink.old.items ++ abstract_code ty ∷ []) }
    ensures accepted { IfErr result (λ e. e.cause ≢ Memory → (r : Reference) (rest : List ℕ) → Decodes ref_type standard bytes.now r rest → ⊥) }
{
    let _rest = <RefType as Walk<Standard>>::walk(bytes, alloc, sink)?;
    Ok(())
}

/// Minimizes a function body. The output is the one minimal encoding of the body that the bytes
/// encode, with its size prefix.
pub fn minimal_body<A: Allocator + Copy>(
    alloc: A,
    bytes: &[u8],
    sink: &mut Vec<u8, A>,
) -> Result<(), DecodeError>
    ensures same { OnOk result ((x : Body) (encoding : List ℕ) → body padded bytes.now x → size_prefixed body minimal encoding x → sink.new.items ≡ sink.old.items ++ encoding) }
    ensures accepted { IfErr result (λ e. e.cause ≢ Memory → (x : Body) → body padded bytes.now x → ⊥) }
    ensures err { OnErr result (sink.new.items ≡ sink.old.items) }
{
    shorten_body(bytes, alloc, sink)
}

/// Minimizes the payload of a section. The output decodes to the same items of the section's kind.
pub fn minimal_payload<A: Allocator + Copy, B: Allocator>(
    section: &Section<'_, A>,
    sink: &mut Vec<u8, B>,
) -> Result<(), ReadError>
    requires { sink.old.items ≡ [] }
    ensures same { OnOk result ((x : Contents) → content (section_kind_of section.now.section) standard section.now.section.payload x → content (section_kind_of section.now.section) standard sink.new.items x) }
    ensures accepted { IfErr result (λ e. e.cause ≢ Memory → (x : Contents) → content (section_kind_of section.now.section) standard section.now.section.payload x → ⊥) }
    ensures err { OnErr result (sink.new.items ≡ []) }
{
    section.minimize(sink)
}
