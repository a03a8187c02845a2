//! The error of calls that may take memory.

ghost use Rattle.std.specs.Prelude.{◌≡◌, Some};
ghost use Rattle.nd_array_core.specs.declared.base.array_error.ArrayError.TheVariants.{Shape, NoMemory as OutOfMemory};

use nd_shape_and_slice::{NoMemory, ShapeError};
use std::alloc::{AllocError, AllocFailed};
use std::error::Error;
use std::fmt;

/// The cause why a call that may take memory failed: the shape was refused, or memory was.
#[derive(Clone, Copy, Debug, PartialEq, Eq)]
pub enum ArrayError {
    /// The shapes don't fit.
    Shape(ShapeError),
    /// Storage or a clone was refused.
    NoMemory,
}

/// Writes the text of the shape error, or `out of memory`.
impl fmt::Display for ArrayError {
    ghost use Rattle.nd_array_core.specs.base.ErrorTexts.{array_error_text};

    ghost output = { λ refused. Some (array_error_text refused) };

    fn fmt<W: fmt::Write>(&self, f: &mut fmt::Formatter<W>) -> fmt::Result {
        match self {
            ArrayError::Shape(refused) => write!(f, "{refused}"),
            ArrayError::NoMemory => write!(f, "{NoMemory}"),
        }
    }
}

impl Error for ArrayError {}

/// Lets `?` turn an `AllocError`, which a refused request for memory or a refused clone gives, into `NoMemory`.
impl From<AllocError> for ArrayError {
    ghost from_gives = { λ _ error. error ≡ OutOfMemory };

    fn from(_refused: AllocError) -> ArrayError {
        ArrayError::NoMemory
    }
}

/// Lets `?` turn an `AllocFailed`, which a refused `push` or a refused box gives, into `NoMemory`. The value that was
/// not stored is dropped.
impl<T: Drop> From<AllocFailed<T>> for ArrayError {
    ghost from_gives = { λ _ error. error ≡ OutOfMemory };

    fn from(_refused: AllocFailed<T>) -> ArrayError {
        ArrayError::NoMemory
    }
}

/// Lets `?` turn the error `NoMemory` into an `ArrayError`.
impl From<NoMemory> for ArrayError {
    ghost from_gives = { λ _ error. error ≡ OutOfMemory };

    fn from(_refused: NoMemory) -> ArrayError {
        ArrayError::NoMemory
    }
}

/// Lets `?` turn a `ShapeError` into an `ArrayError`.
impl From<ShapeError> for ArrayError {
    ghost from_gives = { λ refused error. error ≡ Shape refused };

    fn from(refused: ShapeError) -> ArrayError {
        ArrayError::Shape(refused)
    }
}
