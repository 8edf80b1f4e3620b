// The error of a recipe, and its line.
ghost use Rattle.std.specs.Prelude.{◌≡◌};

use thiserror::Error;
use wasm_base::Refused;

/// The cause of an error in a recipe.
#[derive(Clone, Copy, PartialEq, Eq, Debug, Error)]
pub enum RecipeCause {
    /// The first word of the line is not a command, or the kind of an export or an import is
    /// unknown.
    #[error("unknown command")]
    UnknownCommand,
    /// A word that should be a number is not one in range.
    #[error("bad number")]
    BadNumber,
    /// A word that should be bytes is not an even number of hexadecimal digits.
    #[error("bad hex")]
    BadHex,
    /// The command needs more words.
    #[error("missing word")]
    MissingWord,
    /// An allocation failed.
    #[error("out of memory")]
    Memory,
    /// A count or a size of the module would exceed 4294967295.
    #[error("too long")]
    TooLong,
    /// The line has words after those of the command. Version 1 ignores them.
    #[error("surplus word")]
    SurplusWord,
    /// A word that should be a value type is not one.
    #[error("unknown type")]
    UnknownType,
    /// No body is after the last locals.
    #[error("locals without a body")]
    UnusedLocals,
}

/// The error of a recipe, with the number of its line, counted from 1; 0 for an error after the
/// last line.
#[derive(Clone, Copy, PartialEq, Eq, Debug, Error)]
#[error("line {line}: {cause}")]
pub struct RecipeFault {
    pub line: usize,
    pub cause: RecipeCause,
}

impl From<Refused> for RecipeCause {
    ghost use Rattle.wasm_tool.specs.Steps.{cause_of};

    ghost from_gives = { λ refused cause. cause ≡ cause_of refused };

    fn from(refused: Refused) -> RecipeCause {
        match refused {
            Refused::Memory => RecipeCause::Memory,
            Refused::TooLong => RecipeCause::TooLong,
        }
    }
}

/// An error after the last line.
impl From<Refused> for RecipeFault {
    ghost use Rattle.wasm_tool.specs.Steps.{cause_of};

    ghost from_gives = { λ refused fault. (fault.line ≡ 0) × (fault.cause ≡ cause_of refused) };

    fn from(refused: Refused) -> RecipeFault {
        RecipeFault {
            line: 0,
            cause: RecipeCause::from(refused),
        }
    }
}
