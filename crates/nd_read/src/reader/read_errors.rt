//! Errors of reading a line or a script.

ghost use Rattle.std.specs.Prelude.{◌≡◌};
ghost use Rattle.nd_read.specs.declared.reader.read_errors.LineFault.TheVariants as line_faults;
ghost use Rattle.nd_read.specs.declared.reader.read_errors.ScriptError.TheVariants as script_errors;

use std::alloc::{AllocError, AllocFailed};

/// The cause why a line could not be read.
#[derive(Clone, Copy, Debug, PartialEq, Eq)]
pub enum LineFault {
    /// The words of the line don't have the form that is asked for.
    Bad,
    /// Memory was refused.
    Memory,
}

impl From<AllocError> for LineFault {
    ghost from_gives = { λ _ e. e ≡ line_faults.Memory };

    fn from(_error: AllocError) -> LineFault {
        LineFault::Memory
    }
}

impl<T: Drop> From<AllocFailed<T>> for LineFault {
    ghost from_gives = { λ _ e. e ≡ line_faults.Memory };

    fn from(_error: AllocFailed<T>) -> LineFault {
        LineFault::Memory
    }
}

/// The cause why a script could not be read.
#[derive(Clone, Copy, Debug, PartialEq, Eq)]
pub enum ScriptError {
    /// A line is bad; this is the number of the first one, counted from 1.
    BadLine(usize),
    /// Memory was refused.
    Memory,
}

impl<T: Drop> From<AllocFailed<T>> for ScriptError {
    ghost from_gives = { λ _ e. e ≡ script_errors.Memory };

    fn from(_error: AllocFailed<T>) -> ScriptError {
        ScriptError::Memory
    }
}
