// The name at the front of a custom section's payload.
ghost use Rattle.std.specs.Prelude.{◌≡◌, ◌≢◌, IfOk, IfErr};
ghost use Rattle.wasm_base.specs.Formats.{just, name as name_format};
ghost use Rattle.wasm_base.specs.Numbers.{padded_of};
ghost use Rattle.wasm_base.specs.Decoding.{Decodes, Rejects};
ghost use Rattle.wasm_base.specs.declared.fault.ReadFault.TheVariants.{Memory, UnknownTag};

use std::alloc::Allocator;
use wasm_base::{DecodeError, Grammar, ReadFault, Readable};

/// Returns the error of a section name `known` that is not `name`; `rest` are the bytes after it.
/// The error's offset is that of the size prefix's last byte if the sizes differ, and otherwise
/// that of the first byte that differs.
fn other_name(name: &str, known: &str, rest: &[u8]) -> DecodeError
    ensures { result.cause ≡ UnknownTag }
{
    let mut left = known.as_bytes();
    if left.len() != name.len() {
        return ReadFault::UnknownTag.just_before(left).before(rest);
    }
    for byte in name.as_bytes() {
        match left {
            [first, after @ ..] if first == byte => left = after,
            _ => break,
        }
    }
    ReadFault::UnknownTag.at(left).before(rest)
}

/// Skips the section name if it is `name`, and returns the remaining bytes.
#[tactic(auto, using(crate::proofs::DecodeNamed::name_steps))]
pub(crate) fn after_name<'a, A: Allocator + Copy, G: Grammar>(
    name: &str,
    bytes: &'a [u8],
    alloc: A,
) -> Result<&'a [u8], DecodeError>
    ensures found { IfOk result (λ rest. Decodes (just name.now name_format) (padded_of G.grammar) bytes.now tt rest.now) }
    ensures none { IfErr result (λ e. e.cause ≢ Memory → Rejects (just name.now name_format) (padded_of G.grammar) bytes.now) }
    ensures no_memory { IfErr result (λ e. e.cause ≢ Memory) }
{
    let (known, rest) = <&'a str as Readable<'a, A, G>>::read(bytes, alloc)?;
    if known == name {
        Ok(rest)
    } else {
        Err(other_name(name, known, rest))
    }
}
