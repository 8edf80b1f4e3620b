// The errors of calls that decode.
ghost use Rattle.std.specs.Prelude.{◌≡◌, ◌+◌, length, min};
ghost use Rattle.wasm_base.specs.Encodings.{longest};
ghost use Rattle.wasm_base.specs.declared.fault.ReadFault.TheVariants.{Memory};

use crate::refused::Refused;
use std::alloc::{AllocError, AllocFailed};
use std::fmt;
use std::marker::Model;
use thiserror::Error;

/// The cause of a failed decoding. Every cause except `Memory` means that the bytes encode no such
/// value. Tests show which of the other causes a call returns; no contract says that.
#[derive(Clone, Copy, PartialEq, Eq, Debug, Error)]
pub enum ReadFault {
    /// The bytes end before the value does.
    #[error("unexpected end of input")]
    Ended,
    /// A number is padded. The decoders here accept padded numbers; the cause is for callers' own
    /// decoders that do not.
    #[error("padded integer")]
    NotShortest,
    /// A number is out of the range of its type, or has more bytes than the type's limit.
    #[error("integer too large")]
    TooLarge,
    /// A byte, a number or a name that selects a case is unknown to the grammar.
    #[error("unexpected byte or value")]
    UnknownTag,
    /// No instruction has the opcode.
    #[error("unknown opcode")]
    UnknownOpcode,
    /// The bytes of a name are not UTF-8.
    #[error("invalid UTF-8")]
    NotUtf8,
    /// Payload bytes remain after the value that a size prefix delimits.
    #[error("bytes remain after the value")]
    SizeMismatch,
    /// An allocation failed.
    #[error("out of memory")]
    Memory,
}

/// The cause of a failed decoding, and the number of bytes left at the failure.
///
/// Both are in one number of 64 bits, so that a result with a slice has two words, and the slice's
/// address is moved as a whole.
#[derive(Clone, Copy, PartialEq, Eq)]
pub struct DecodeError {
    /// The number of bytes left times 256, plus the number of the cause.
    word: u64,
}

impl Model for DecodeError {
    ghost use Rattle.std.proofs.Common.{ap};
    ghost use Rattle.wasm_base.specs.Faults.{Failure, failure_of, word_of, IsWord};

    ghost Value = { Failure };

    ghost view = { λ e. failure_of e.word };

    ghost invariant = { λ e. IsWord e.word };

    ghost inverse = { λ f. record { word = word_of f } };

    ghost inverse_ok = { λ e h. ap (λ w. record { word = w }) h.is_number };
}

/// Returns the length of the bytes, or 4294967295 if it is greater.
fn length(bytes: &[u8]) -> u32
    ensures { result ≡ min (length bytes.now) longest }
{
    u32::try_from(bytes.len()).unwrap_or(u32::MAX)
}

impl ReadFault {
    /// Returns the error with this cause at the first of the remaining bytes. At most 4294967295
    /// bytes are counted.
    #[cold]
    #[inline(never)]
    pub fn at(self, rest: &[u8]) -> DecodeError
        ensures cause { result.cause ≡ self }
        ensures left { result.left ≡ min (length rest.now) longest }
    {
        DecodeError::new(self, length(rest))
    }

    /// Returns the error with this cause at the byte just before the remaining bytes. At most
    /// 4294967295 bytes are counted.
    #[cold]
    #[inline(never)]
    pub fn just_before(self, rest: &[u8]) -> DecodeError
        ensures cause { result.cause ≡ self }
        ensures left { result.left ≡ min (length rest.now + 1) longest }
    {
        DecodeError::new(self, length(rest).saturating_add(1))
    }
}

impl DecodeError {
    /// Returns the error with this cause and this number of bytes left.
    #[tactic(auto, using(crate::proofs::FaultWords::failure_again, crate::proofs::FaultWords::is_word))]
    fn new(cause: ReadFault, left: u32) -> DecodeError
        ensures { result ≡ record { cause = cause; left = left } }
    {
        DecodeError {
            word: u64::from(left) * 256 + cause as u64,
        }
    }

    /// Returns the cause.
    #[tactic(auto, using(crate::proofs::FaultWords::other_cause))]
    pub fn cause(self) -> ReadFault
        ensures { result ≡ self.cause }
    {
        match self.word % 256 {
            0 => ReadFault::Ended,
            1 => ReadFault::NotShortest,
            2 => ReadFault::TooLarge,
            3 => ReadFault::UnknownTag,
            4 => ReadFault::UnknownOpcode,
            5 => ReadFault::NotUtf8,
            6 => ReadFault::SizeMismatch,
            _ => ReadFault::Memory,
        }
    }

    /// Returns the number of bytes left. The count begins at the first byte that cannot be part of
    /// an encoding, with these exceptions: the first byte of a name that is not UTF-8 or lacks the
    /// prefix `reloc.`, the first byte of an unknown opcode, the last size byte of a section name
    /// of another length, and the end of a payload that ends too soon.
    ///
    /// The number saturates at 4294967295, and means nothing for `Memory`. Contracts say what
    /// [`at`](ReadFault::at), [`just_before`](ReadFault::just_before) and
    /// [`before`](DecodeError::before) count. Tests show which byte each decoder reports.
    pub fn left(self) -> u32
        ensures { result ≡ self.left }
    {
        (self.word / 256) as u32
    }

    /// Returns the error of a decoder whose input is followed by these bytes, which it counts as
    /// left too. At most 4294967295 bytes are counted.
    pub fn before(self, rest: &[u8]) -> DecodeError
        ensures cause { result.cause ≡ self.cause }
        ensures left { result.left ≡ min (self.left + length rest.now) longest }
    {
        DecodeError::new(self.cause(), self.left().saturating_add(length(rest)))
    }
}

impl fmt::Debug for DecodeError {
    fn fmt<W: fmt::Write>(&self, f: &mut fmt::Formatter<W>) -> fmt::Result {
        let (cause, left) = (self.cause(), self.left());
        write!(f, "DecodeError {{ cause: {cause:?}, left: {left} }}")
    }
}

/// Returns the error of a failed allocation, with no bytes left.
fn no_memory() -> DecodeError
    ensures { result.cause ≡ Memory }
{
    DecodeError::new(ReadFault::Memory, 0)
}

impl From<AllocError> for DecodeError {
    ghost from_gives = { λ _ error. error.cause ≡ Memory };

    fn from(_error: AllocError) -> DecodeError {
        no_memory()
    }
}

impl<T: Drop> From<AllocFailed<T>> for DecodeError {
    ghost from_gives = { λ _ error. error.cause ≡ Memory };

    fn from(_failed: AllocFailed<T>) -> DecodeError {
        no_memory()
    }
}

/// An error of a call that appends becomes `Memory`. Such a call never returns `TooLong` for a
/// value that has an encoding, as each decoded value has (`too_long` of
/// [`Shorten`](crate::Shorten)). A body that is passed without its size may be too long for a size
/// prefix: that error becomes `Memory` too.
impl From<Refused> for DecodeError {
    ghost from_gives = { λ _ error. error.cause ≡ Memory };

    fn from(_refused: Refused) -> DecodeError {
        no_memory()
    }
}

impl From<AllocError> for ReadFault {
    ghost from_gives = { λ _ fault. fault ≡ Memory };

    fn from(_error: AllocError) -> ReadFault {
        ReadFault::Memory
    }
}

impl<T: Drop> From<AllocFailed<T>> for ReadFault {
    ghost from_gives = { λ _ fault. fault ≡ Memory };

    fn from(_failed: AllocFailed<T>) -> ReadFault {
        ReadFault::Memory
    }
}

impl From<Refused> for ReadFault {
    ghost from_gives = { λ _ fault. fault ≡ Memory };

    fn from(_refused: Refused) -> ReadFault {
        ReadFault::Memory
    }
}

/// Keeps the cause alone.
impl From<DecodeError> for ReadFault {
    ghost from_gives = { λ error fault. fault ≡ error.cause };

    fn from(error: DecodeError) -> ReadFault {
        error.cause()
    }
}
