// Splits a module into its sections, without decoding their payloads.
ghost use Rattle.std.specs.Prelude.{◌≡◌, ◌≢◌, ◌++◌, IfOk, IfErr, option_map};
ghost use Rattle.wasm_base.specs.Formats.{any_section};
ghost use Rattle.wasm_base.specs.Numbers.{padded};
ghost use Rattle.wasm_base.specs.Decoding.{Rejects};
ghost use Rattle.wasm_base.specs.declared.fault.ReadFault.TheVariants.{Memory};
ghost use Rattle.wasm_reader.specs.Outlines.{section_of, IsSection, IsNameOf, IsDataOf, bytes_of, section_kind_of as kind_of_section};

use crate::kinds::{SectionKind, kind_of_id, kind_of_name};
use std::alloc::Allocator;
use wasm_base::{DecodeError, Padded, Readable};

/// A section of a module, with its payload not yet decoded.
#[derive(Clone, Copy, Debug)]
pub(crate) struct Standing<'a> {
    pub(crate) id: u8,
    /// The size prefix and the payload.
    pub(crate) sized: &'a [u8],
    /// The payload.
    pub(crate) payload: &'a [u8],
    /// The name of a custom section, if its payload begins with one.
    pub(crate) name: Option<&'a str>,
    /// The bytes of the payload after the name, or all of them if there is none.
    pub(crate) data: &'a [u8],
}

impl Standing<'_> {
    /// Returns the kind that its payload is decoded as.
    pub(crate) fn kind(&self) -> SectionKind
        ensures { result ≡ kind_of_section (section_of self.now) }
    {
        match self.name {
            Some(name) => kind_of_name(name),
            None if self.id == 1 => SectionKind::Types,
            None => kind_of_id(self.id),
        }
    }
}

/// Returns the name of a custom section, if its payload begins with one, and the data after it.
fn name_of<'a, A: Allocator + Copy>(
    id: u8,
    payload: &'a [u8],
    alloc: A,
) -> (Option<&'a str>, &'a [u8])
    ensures name { IsNameOf id payload.now (option_map (λ n. n.now) result.0) }
    ensures data { IsDataOf (option_map (λ n. n.now) result.0) payload.now result.1.now }
{
    if id != 0 {
        return (None, payload);
    }
    match <&'a str as Readable<'a, A, Padded>>::read(payload, alloc) {
        Ok((name, data)) => (Some(name), data),
        Err(_) => (None, payload),
    }
}

/// Splits off the section at the front, which begins with its id, and returns it with the remaining
/// bytes.
#[tactic(auto, using(crate::proofs::DecodeOutlines::standing_steps))]
pub(crate) fn read_standing<'a, A: Allocator + Copy>(
    bytes: &'a [u8],
    alloc: A,
) -> Result<(Standing<'a>, &'a [u8]), DecodeError>
    ensures found { IfOk result (λ x. IsSection (section_of x.0)) }
    ensures split { IfOk result (λ x. bytes.now ≡ bytes_of (section_of x.0) ++ x.1.now) }
    ensures data { IfOk result (λ x. IsDataOf (section_of x.0).name (section_of x.0).payload x.0.data.now) }
    ensures none { IfErr result (λ e. e.cause ≢ Memory → Rejects any_section padded bytes.now) }
    ensures no_memory { IfErr result (λ e. e.cause ≢ Memory) }
{
    let (id, rest) = <u8 as Readable<'a, A, Padded>>::read(bytes, alloc)?;
    let (payload, after) = <&'a [u8] as Readable<'a, A, Padded>>::read(rest, alloc)?;
    let sized = &rest[..rest.len() - after.len()];
    let (name, data) = name_of(id, payload, alloc);
    Ok((
        Standing {
            id,
            sized,
            payload,
            name,
            data,
        },
        after,
    ))
}
