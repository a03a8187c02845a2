//! The errors of reading a head.

ghost use Rattle.std.specs.Prelude.{◌≡◌, Some};
ghost use Rattle.nd_npy_text.specs.ErrorTexts.{header_flaw_text, header_error_text};
ghost use Rattle.nd_npy_text.specs.declared.errors.HeaderError.TheVariants.{Memory};

use std::alloc::AllocError;
use std::error::Error;
use std::fmt;

/// What is wrong with the dict of a head at a byte.
#[derive(Clone, Copy, Debug, PartialEq, Eq)]
pub enum HeaderFlaw {
    /// The dict doesn't begin with `{`.
    Beginning,
    /// No key stands here, or no colon after it.
    Key,
    /// A key stands here for the second time.
    KeyAgain,
    /// The item type isn't there, or isn't closed by the quote that opens it.
    ItemType,
    /// The items are Python objects, which aren't supported.
    Object,
    /// The items are byte strings, which aren't supported.
    ByteString,
    /// The items are text, which isn't supported.
    Text,
    /// The items are dates, which aren't supported.
    Date,
    /// The items are durations, which aren't supported.
    Duration,
    /// The items are raw bytes, which mean nothing to numpy and aren't supported.
    Raw,
    /// The items are records, which have fields and aren't supported.
    Record,
    /// The items are of any other type that isn't supported.
    OtherItems,
    /// The comma after a value isn't there.
    Comma,
    /// Neither `True` nor `False` stands here.
    Truth,
    /// The shape doesn't begin with `(`.
    Shape,
    /// No length stands here, or one that is larger than `isize::MAX`.
    Length,
    /// Neither a comma nor the end of the shape follows a length, or no comma follows the first one.
    AfterLength,
    /// A length stands here after 32 others.
    TooManyAxes,
    /// The dict doesn't end with `}`.
    Ending,
    /// Something other than spaces and one line feed follows the dict.
    Padding,
}

impl HeaderFlaw {
    /// Returns what the flaw means, in words.
    pub fn text(self) -> &'static str
        ensures { result.now ≡ header_flaw_text self }
    {
        match self {
            HeaderFlaw::Beginning => "the head begins with {",
            HeaderFlaw::Key =>
                "a key is 'descr', 'fortran_order' or 'shape', with a colon after it",
            HeaderFlaw::KeyAgain => "a key stands once",
            HeaderFlaw::ItemType => "the item type is a text in quotes",
            HeaderFlaw::Object => "items that are Python objects aren't supported",
            HeaderFlaw::ByteString => "items that are byte strings aren't supported",
            HeaderFlaw::Text => "items that are text aren't supported",
            HeaderFlaw::Date => "items that are dates aren't supported",
            HeaderFlaw::Duration => "items that are durations aren't supported",
            HeaderFlaw::Raw => "items that are raw bytes aren't supported",
            HeaderFlaw::Record => "items that are records aren't supported",
            HeaderFlaw::OtherItems => "items of this type aren't supported",
            HeaderFlaw::Comma => "a comma follows a value",
            HeaderFlaw::Truth => "the order is True or False",
            HeaderFlaw::Shape => "the shape begins with (",
            HeaderFlaw::Length => "a length is a number from 0 to 9223372036854775807",
            HeaderFlaw::AfterLength => "a comma follows a length, or ) the last of several",
            HeaderFlaw::TooManyAxes => "there are more than 32 axes",
            HeaderFlaw::Ending => "the head ends with }",
            HeaderFlaw::Padding => "spaces and a line feed end the head",
        }
    }
}

/// Writes what is wrong, for example `there are more than 32 axes`.
impl fmt::Display for HeaderFlaw {
    ghost output = { λ flaw. Some (header_flaw_text flaw) };

    fn fmt<W: fmt::Write>(&self, f: &mut fmt::Formatter<W>) -> fmt::Result {
        f.write_str(self.text())
    }
}

/// Why no head can be read from bytes.
#[derive(Clone, Copy, Debug, PartialEq, Eq)]
pub enum HeaderError {
    /// The bytes don't begin with the byte 0x93 and `NUMPY`.
    NoMagic,
    /// The version isn't 1.0, 2.0 or 3.0.
    UnknownVersion {
        /// The number before the point.
        major: u8,
        /// The number after the point.
        minor: u8,
    },
    /// The bytes end before the head does.
    TooShort,
    /// The dict of the head can't be read.
    BadByte {
        /// The first byte at which the dict can't be read, counted from 0 at the front of the file.
        byte: usize,
        /// What is wrong at this byte.
        flaw: HeaderFlaw,
    },
    /// The product of the lengths that aren't 0, times the bytes that an element takes, is larger than `isize::MAX`.
    TooLarge,
    /// Memory was refused.
    Memory,
}

/// Writes the cause, for example `byte 21: items that are text aren't supported` or `the version 4.0 isn't known`.
impl fmt::Display for HeaderError {
    ghost output = { λ error. Some (header_error_text error) };

    fn fmt<W: fmt::Write>(&self, f: &mut fmt::Formatter<W>) -> fmt::Result {
        match self {
            HeaderError::NoMagic => f.write_str("this is no .npy file"),
            HeaderError::UnknownVersion { major, minor } => {
                write!(f, "the version {major}.{minor} isn't known")
            }
            HeaderError::TooShort => f.write_str("the head ends too early"),
            HeaderError::BadByte { byte, flaw } => write!(f, "byte {byte}: {flaw}"),
            HeaderError::TooLarge => f.write_str("the shape is too large"),
            HeaderError::Memory => f.write_str("out of memory"),
        }
    }
}

impl Error for HeaderError {}

impl From<AllocError> for HeaderError {
    ghost from_gives = { λ _ e. e ≡ Memory };

    fn from(_error: AllocError) -> HeaderError {
        HeaderError::Memory
    }
}
