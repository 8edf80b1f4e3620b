// The error of calls that append or add.
ghost use Rattle.std.specs.Prelude.{◌≡◌};
ghost use Rattle.wasm_base.specs.declared.refused.Refused.TheVariants.{Memory};

use std::alloc::{AllocError, AllocFailed};
use std::result;
use thiserror::Error;

/// The error of a call that appends to a sink or adds to a builder. A call that returns it changes
/// nothing, unless its documentation says otherwise.
#[derive(Clone, Copy, PartialEq, Eq, Debug, Error)]
pub enum Refused {
    /// An allocation failed. Tests show that calls return it in no other case; no contract says
    /// that.
    #[error("out of memory")]
    Memory,
    /// A count or length would exceed 4294967295.
    #[error("too long")]
    TooLong,
}

/// The result of a call that can fail with [`Refused`].
pub type Result<T, E = Refused> = result::Result<T, E>;

impl From<AllocError> for Refused {
    ghost from_gives = { λ _ refused. refused ≡ Memory };

    fn from(_error: AllocError) -> Refused {
        Refused::Memory
    }
}

impl<T: Drop> From<AllocFailed<T>> for Refused {
    ghost from_gives = { λ _ refused. refused ≡ Memory };

    fn from(_failed: AllocFailed<T>) -> Refused {
        Refused::Memory
    }
}
