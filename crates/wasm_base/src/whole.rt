// Decoding of values that occupy all of the bytes.
ghost use Rattle.std.specs.Prelude.{◌≡◌, ◌≢◌, ◌≤◌, IfOk, IfErr, length, map, min};
ghost use Rattle.wasm_base.specs.Encodings.{longest};
ghost use Rattle.wasm_base.specs.Formats.{members};
ghost use Rattle.wasm_base.specs.Continuing.{RejectsWhole};
ghost use Rattle.wasm_base.specs.Numbers.{padded_of};
ghost use Rattle.wasm_base.specs.Decoding.{BeginsWith};
ghost use Rattle.wasm_base.specs.declared.fault.ReadFault.TheVariants.{Memory};

use crate::fault::{DecodeError, ReadFault};
use crate::grammar::Grammar;
use crate::readable::Readable;
use std::alloc::Allocator;

/// Decodes a value that occupies all of the bytes.
///
/// # Errors
///
/// Every error except `Memory` means that the bytes as a whole encode no such value.
#[tactic(auto, using(crate::proofs::DecodeWhole::whole_steps))]
pub fn read_whole<'a, T: Readable<'a, A, G>, A: Allocator + Copy, G: Grammar>(
    bytes: &'a [u8],
    alloc: A,
) -> Result<T, DecodeError>
    ensures found { IfOk result (λ x. T.format (padded_of G.grammar) bytes.now (T.view x)) }
    ensures none { IfErr result (λ e. e.cause ≢ Memory → RejectsWhole T.format (padded_of G.grammar) bytes.now) }
    ensures no_memory { IfErr result (λ e. e.cause ≡ Memory → T.may_allocate) }
{
    let (value, left) = T::read(bytes, alloc)?;
    T::laws();
    if left.is_empty() {
        Ok(value)
    } else {
        Err(ReadFault::SizeMismatch.at(left))
    }
}

/// Decodes a value that occupies all of `bytes`, which `rest` follows in the input. The number of
/// bytes left in an error includes those of `rest`, up to 4294967295.
///
/// # Errors
///
/// Every error except `Memory` means that the bytes as a whole encode no such value.
pub fn read_before<'a, T: Readable<'a, A, G>, A: Allocator + Copy, G: Grammar>(
    bytes: &'a [u8],
    rest: &[u8],
    alloc: A,
) -> Result<T, DecodeError>
    ensures found { IfOk result (λ x. T.format (padded_of G.grammar) bytes.now (T.view x)) }
    ensures none { IfErr result (λ e. e.cause ≢ Memory → RejectsWhole T.format (padded_of G.grammar) bytes.now) }
    ensures no_memory { IfErr result (λ e. e.cause ≡ Memory → T.may_allocate) }
    ensures left { IfErr result (λ e. min (length rest.now) longest ≤ e.left) }
{
    match read_whole::<'a, T, A, G>(bytes, alloc) {
        Ok(value) => Ok(value),
        Err(error) => Err(error.before(rest)),
    }
}

/// Decodes values one after another, up to the last byte; no encoding of one is empty. Memory grows
/// with the values that decode.
///
/// # Errors
///
/// Every error except `Memory` means that the bytes as a whole encode no such values.
pub fn read_to_end<'a, T: Readable<'a, A, G>, A: Allocator + Copy, G: Grammar>(
    bytes: &'a [u8],
    alloc: A,
) -> Result<Vec<T, A>, DecodeError>
    requires { BeginsWith (λ b. Unit {0}) T.format }
    ensures found { IfOk result (λ x. members T.format (padded_of G.grammar) bytes.now (map T.view x.items)) }
    ensures none { IfErr result (λ e. e.cause ≢ Memory → RejectsWhole (members T.format) (padded_of G.grammar) bytes.now) }
{
    let mut items = Vec::new(alloc);
    let mut rest = bytes;
    T::laws();
    loop {
        if rest.is_empty() {
            return Ok(items);
        }
        let (item, after) = T::read(rest, alloc)?;
        items.push(item)?;
        rest = after;
    }
}
