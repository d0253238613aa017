ghost use Rattle.std.specs.Prelude.{◌≡◌};
ghost use Rattle.script_text.specs.declared.code.LineError.TheVariants.{Fault, Memory};

use std::alloc::{AllocError, AllocFailed};

/// What is wrong with a line of a script.
#[derive(Clone, Copy, Debug, PartialEq, Eq)]
pub enum Code {
    /// It is line 200,001.
    Long,
    /// A byte is not allowed.
    Text,
    /// The first word is no command.
    Word,
    /// The first command is not `world`, or `world` stands again.
    World,
    /// The block does not allow the command.
    Block,
    /// The command cannot be traced.
    Trace,
    /// The number of words is wrong.
    Count,
    /// A word is no name, or a name that must not stand there.
    Name,
    /// A word is no number.
    Number,
    /// A number is out of its range, or a box ends before it begins.
    Range,
    /// An actor cannot have the command.
    Actor,
    /// The line is of a kind that is not built yet.
    Later,
}

/// Why a line gave no command.
#[derive(Clone, Copy, Debug, PartialEq, Eq)]
pub enum LineError {
    /// The line is none of a script.
    Fault(Code),
    /// There was not enough memory.
    Memory,
}

impl From<Code> for LineError {
    ghost from_gives = { λ code e. e ≡ Fault code };

    fn from(code: Code) -> LineError {
        LineError::Fault(code)
    }
}

impl From<AllocError> for LineError {
    ghost from_gives = { λ _ e. e ≡ Memory };

    fn from(_e: AllocError) -> LineError {
        LineError::Memory
    }
}

impl<T: Drop> From<AllocFailed<T>> for LineError {
    ghost from_gives = { λ _ e. e ≡ Memory };

    fn from(_e: AllocFailed<T>) -> LineError {
        LineError::Memory
    }
}
