//! The errors of calls that fail because of a shape or a layout, or because memory runs out.

ghost use Rattle.std.specs.Prelude.{◌≡◌, Some};
ghost use Rattle.nd_shape_and_slice.specs.ErrorTexts.{shape_error_text, no_memory_text};

use std::alloc::{AllocError, AllocFailed};
use std::error::Error;
use std::marker::Model;
use std::{fmt, io};

/// The cause of a `ShapeError`.
#[derive(Clone, Copy, Debug, PartialEq, Eq)]
pub enum ErrorKind {
    /// The shapes don't fit each other.
    IncompatibleShape,
    /// The layout in memory doesn't allow the call.
    IncompatibleLayout,
    /// This kind is here because ndarray has it. No call returns it.
    RangeLimited,
    /// The storage is too short, or an index lies outside the shape.
    OutOfBounds,
    /// The strides aren't supported, for instance because two indexes would share an element.
    Unsupported,
    /// A size exceeds `isize::MAX`.
    Overflow,
}

/// The error of a call that can't be done with a shape or a layout. In contracts it stands for its kind. This is
/// ndarray's `ShapeError`.
#[derive(Clone, Copy, Debug, PartialEq, Eq)]
pub struct ShapeError {
    kind: ErrorKind,
}

impl Model for ShapeError {
    ghost use Rattle.nd_shape_and_slice.specs.declared.errors.ErrorKind.{ErrorKind};

    ghost Value = { ErrorKind };

    ghost view = { λ e. e.kind };

    ghost inverse = { λ k. record { kind = k } };
}

impl ShapeError {
    /// Returns the error of the kind `kind`. This is ndarray's `ShapeError::from_kind`.
    pub fn from_kind(kind: ErrorKind) -> Self
        ensures { result ≡ kind }
    {
        ShapeError { kind }
    }

    /// Returns the kind of the error. This is ndarray's `ShapeError::kind`.
    pub fn kind(&self) -> ErrorKind
        ensures { result ≡ self.now }
    {
        self.kind
    }
}

/// Writes the kind and what it means, as ndarray does: `ShapeError/IncompatibleShape: incompatible shapes`.
impl fmt::Display for ShapeError {
    ghost output = { λ refused. Some (shape_error_text refused) };

    fn fmt<W: fmt::Write>(&self, f: &mut fmt::Formatter<W>) -> fmt::Result {
        match self.kind() {
            ErrorKind::IncompatibleShape => {
                write!(f, "ShapeError/IncompatibleShape: incompatible shapes")
            }
            ErrorKind::IncompatibleLayout => {
                write!(
                    f,
                    "ShapeError/IncompatibleLayout: incompatible memory layout"
                )
            }
            ErrorKind::RangeLimited => {
                write!(
                    f,
                    "ShapeError/RangeLimited: the shape does not fit in type limits"
                )
            }
            ErrorKind::OutOfBounds => {
                write!(f, "ShapeError/OutOfBounds: out of bounds indexing")
            }
            ErrorKind::Unsupported => { write!(f, "ShapeError/Unsupported: unsupported operation") }
            ErrorKind::Overflow => write!(f, "ShapeError/Overflow: arithmetic overflow"),
        }
    }
}

impl Error for ShapeError {}

/// The error of a call that allocates memory or clones elements, if that fails for memory.
#[derive(Clone, Copy, Debug, PartialEq, Eq)]
pub struct NoMemory;

/// Writes `out of memory`.
impl fmt::Display for NoMemory {
    ghost output = { λ _. Some no_memory_text };

    fn fmt<W: fmt::Write>(&self, f: &mut fmt::Formatter<W>) -> fmt::Result {
        write!(f, "out of memory")
    }
}

impl Error for NoMemory {}

/// This lets `?` convert the error of a failed allocation or a failed clone.
impl From<AllocError> for NoMemory {
    fn from(_refused: AllocError) -> NoMemory {
        NoMemory
    }
}

/// This lets `?` convert the error of a failed `push` or a failed box. The value that couldn't be stored is dropped.
impl<T: Drop> From<AllocFailed<T>> for NoMemory {
    fn from(_refused: AllocFailed<T>) -> NoMemory {
        NoMemory
    }
}

/// This lets `?` convert the error in a function that fails with `AllocError`.
impl From<NoMemory> for AllocError {
    fn from(_refused: NoMemory) -> AllocError {
        AllocError
    }
}

/// This lets `?` convert the error in a function that fails with `io::Error`. Its kind is `OutOfMemory`.
impl From<NoMemory> for io::Error {
    ghost use Rattle.std.specs.IoError.{error_kind};
    ghost use Rattle.std.specs.declared.io.ErrorKind.TheVariants.{OutOfMemory};

    ghost from_gives = { λ _ error. error_kind error ≡ OutOfMemory };

    fn from(_refused: NoMemory) -> io::Error {
        io::Error::from(io::ErrorKind::OutOfMemory)
    }
}
