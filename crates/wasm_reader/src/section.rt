// Decodes whole sections.
ghost use Rattle.std.specs.Prelude.{◌≢◌, IfOk, IfErr};
ghost use Rattle.wasm_base.specs.Numbers.{padded};
ghost use Rattle.wasm_base.specs.Decoding.{Rejects};
ghost use Rattle.wasm_base.specs.declared.fault.ReadFault.TheVariants.{Memory};
ghost use Rattle.wasm_reader.specs.Kinds.{contents_of};
ghost use Rattle.wasm_reader.specs.Sections.{section, Takes};

use crate::kinds::{Items, SectionKind, read_content};
use std::alloc::Allocator;
use wasm_base::{Padded, ReadFault, Readable};

/// Decodes the section at the front, and returns its items and its length in bytes. The bytes begin
/// with the section's size prefix, after its id.
///
/// ```text
/// let (items, taken) = read_section(alloc, SectionKind::Functions, &[0x02, 0x01, 0x05, 0x99])?;
/// // items are the one index 5, and 3 bytes were taken
/// ```
///
/// # Errors
///
/// Every error except `Memory` means that the bytes do not begin with such a section.
#[tactic(auto, using(crate::proofs::DecodeSections::section_steps))]
pub fn read_section<'a, A: Allocator + Copy + 'a>(
    alloc: A,
    kind: SectionKind,
    bytes: &'a [u8],
) -> Result<(Items<'a, A>, usize), ReadFault>
    ensures found { IfOk result (λ x. Takes kind bytes.now (contents_of x.0) x.1) }
    ensures none { IfErr result (λ e. e ≢ Memory → Rejects (section kind) padded bytes.now) }
{
    let (sized, rest) = <&'a [u8] as Readable<'a, A, Padded>>::read(bytes, alloc)?;
    let items = read_content::<A, Padded>(kind, sized, alloc)?;
    Ok((items, bytes.len() - rest.len()))
}
