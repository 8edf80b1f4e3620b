// A module whose functions count their calls.
ghost use Rattle.std.specs.Prelude.{◌≡◌, IfOk, IfErr};
ghost use Rattle.examples.specs.Coverage.{Explains, IsCoverable, IsCovered, IsErrorOf, IsMemory, IsUnfit};
ghost use Rattle.examples.specs.declared.coverage.CoverageError.TheVariants.{Read};

mod counters;
mod numbers;

use crate::stripped::refused_at;
use counters::{Counting, counters, exports};
use numbers::numbers_of;
use std::alloc::Allocator;
use wasm_base::Refused;
use wasm_reader::ReadError;
use wasm_remap::{IndexTooLarge, Position, RemapError, insert_code, insert_section};

/// The error of [`covered`].
#[derive(Clone, Copy, PartialEq, Eq, Debug)]
pub enum CoverageError {
    /// The bytes are no module, a section does not decode, or an allocation failed.
    Read(ReadError),
    /// The custom section at this offset holds offsets into the code, which would become wrong.
    Offsets { offset: usize },
    /// The exports at this offset have a name that begins with `coverage.` already.
    Taken { offset: usize },
    /// The module has [`MAX_LENGTH`] bytes or more.
    TooLong,
}

impl From<ReadError> for CoverageError {
    ghost from_gives = { λ error covered. covered ≡ Read error };

    fn from(error: ReadError) -> CoverageError {
        CoverageError::Read(error)
    }
}

/// A number is too large only in a module of [`MAX_LENGTH`] bytes or more, so an allocation failed.
impl From<Refused> for CoverageError {
    ghost from_gives = { λ _ covered. IsMemory covered };

    fn from(_: Refused) -> CoverageError {
        CoverageError::Read(refused_at(0))
    }
}

/// The same for an edit, which fails to decode a section or is refused.
impl From<RemapError<IndexTooLarge>> for CoverageError {
    ghost from_gives = { IsErrorOf };

    fn from(error: RemapError<IndexTooLarge>) -> CoverageError {
        match error {
            RemapError::Read(error) => CoverageError::Read(error),
            _ => CoverageError::Read(refused_at(0)),
        }
    }
}

/// The length of a module, in bytes, from which [`covered`] does not cover it: 256 MiB.
///
/// A function takes two bytes or more, and adds 26 at most to a section. So no count, length or
/// index of a shorter module passes 4294967295 when it is covered.
pub const MAX_LENGTH: usize = 1 << 28;

/// Returns the module with a counter for each function that it defines, a global that is exported
/// as `coverage.N` for the function of index N. Each function first adds 1 to its counter. Other
/// sections keep their payloads.
///
/// # Errors
///
/// Returns `Read` if the bytes are no module, if the sections of imports, globals, exports and code
/// do not decode, or if an allocation fails. Returns `TooLong` if the module has [`MAX_LENGTH`]
/// bytes or more, `Offsets` if a custom section holds offsets into the code, and `Taken` if the
/// name of an export begins with `coverage.`.
pub fn covered<A: Allocator + Copy>(bytes: &[u8], alloc: A) -> Result<Vec<u8, A>, CoverageError>
    ensures found { IfOk result (λ new. IsCovered bytes.now new.items) }
    ensures why { IfErr result (λ e. Explains bytes.now e) }
    ensures unfit { IfErr result (λ e. IsUnfit e → IsCoverable bytes.now → ⊥) }
{
    let numbers = numbers_of(bytes, alloc)?;
    let globals = counters(numbers.bodies, alloc)?;
    let with_globals = insert_section(bytes, alloc, &globals, Position::Last)?;
    let exports = exports(numbers, alloc)?;
    let with_exports = insert_section(&with_globals, alloc, &exports, Position::Last)?;
    let counting = Counting {
        first: numbers.counter,
    };
    Ok(insert_code(&with_exports, alloc, &counting)?)
}
