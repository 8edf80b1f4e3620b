// The error of the iterators over a module.
ghost use Rattle.std.specs.Prelude.{◌≡◌, ◌+◌, ◌≤◌, min};

use thiserror::Error;
use wasm_base::{DecodeError, ReadFault};

/// The cause of a failed decoding, and its offset in the module.
///
/// ```text
/// // unexpected end of input at offset 0x1a3
/// println!("{error}");
/// ```
#[derive(Clone, Copy, PartialEq, Eq, Debug, Error)]
#[error("{cause} at offset {offset:#x}")]
pub struct ReadError {
    pub cause: ReadFault,
    /// The offset of the first byte that cannot be part of an encoding, from the start of the
    /// module, in bytes; the end of a payload that ends too soon; the first byte of a name for
    /// `NotUtf8`, and of an opcode for `UnknownOpcode`. It is unspecified for `Memory`. Contracts
    /// promise that it is not before the section, payload or body that does not decode, and not
    /// past the end of the module, payload or body. Tests check which byte it is.
    pub offset: usize,
}

impl ReadError {
    /// Returns the error of a decoder. Its input had this size, and ended at the offset `end`.
    pub(crate) fn located(error: DecodeError, size: usize, end: usize) -> ReadError
        requires { size ≤ end }
        ensures cause { result.cause ≡ error.cause }
        ensures offset { result.offset + min size error.left ≡ end }
        ensures from { end ≤ result.offset + size }
        ensures within { result.offset ≤ end }
    {
        let left = size.min(error.left() as usize);
        ReadError {
            cause: error.cause(),
            offset: end - left,
        }
    }
}
