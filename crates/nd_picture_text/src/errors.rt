//! The errors of reading: why bytes are no image, and why words are no steps.

ghost use Rattle.std.specs.Prelude.{◌≡◌, Some};
ghost use Rattle.nd_picture_text.specs.ErrorTexts.{image_flaw_text, image_error_text, step_flaw_text, words_error_text};
ghost use Rattle.nd_picture_text.specs.declared.errors.ImageError.TheVariants.{Memory};

use std::alloc::AllocError;
use std::error::Error;
use std::fmt;

/// What is wrong with the bytes of an image at some byte.
#[derive(Clone, Copy, Debug, PartialEq, Eq)]
pub enum ImageFlaw {
    /// The bytes end here, although something is still missing.
    TooShort,
    /// The bytes don't begin with the name of a format (P1 to P6) and a blank after it.
    Format,
    /// No valid width stands here.
    Width,
    /// No valid height stands here.
    Height,
    /// No valid maxval stands here. It is the greatest value that a sample can have.
    Maxval,
    /// No valid sample stands here, in an image whose samples are written in digits.
    Sample,
    /// With this byte a sample is above the maxval, in an image whose samples are bytes.
    AboveMaxval,
}

impl ImageFlaw {
    /// Returns a sentence that says what is wrong.
    pub fn text(self) -> &'static str
        ensures { result.now ≡ image_flaw_text self }
    {
        match self {
            ImageFlaw::TooShort => "the image ends too early",
            ImageFlaw::Format => "an image must begin with one of P1 to P6 and a blank",
            ImageFlaw::Width => "the width must be a number from 1 to 1000000000",
            ImageFlaw::Height => "the height must be a number from 1 to 1000000000",
            ImageFlaw::Maxval => "the maxval must be a number from 1 to 65535",
            ImageFlaw::Sample => "a sample must be a number from 0 to the maxval",
            ImageFlaw::AboveMaxval => "the sample is above the maxval",
        }
    }
}

/// Writes what is wrong, for example `the image ends too early`.
impl fmt::Display for ImageFlaw {
    ghost output = { λ flaw. Some (image_flaw_text flaw) };

    fn fmt<W: fmt::Write>(&self, f: &mut fmt::Formatter<W>) -> fmt::Result {
        write!(f, "{}", self.text())
    }
}

/// Why bytes give no image.
#[derive(Clone, Copy, Debug, PartialEq, Eq)]
pub enum ImageError {
    /// The bytes are no image.
    BadByte {
        /// The position of the first byte at which no image can go on, counted from 0.
        byte: usize,
        /// What is wrong at that byte.
        flaw: ImageFlaw,
    },
    /// Memory was refused.
    Memory,
}

/// Writes the byte and what is wrong there, for example `byte 10: the image ends too early`, or `out of memory`.
impl fmt::Display for ImageError {
    ghost output = { λ error. Some (image_error_text error) };

    fn fmt<W: fmt::Write>(&self, f: &mut fmt::Formatter<W>) -> fmt::Result {
        match self {
            ImageError::BadByte { byte, flaw } => write!(f, "byte {byte}: {flaw}"),
            ImageError::Memory => write!(f, "out of memory"),
        }
    }
}

impl Error for ImageError {}

impl From<AllocError> for ImageError {
    ghost from_gives = { λ _ e. e ≡ Memory };

    fn from(_error: AllocError) -> ImageError {
        ImageError::Memory
    }
}

/// What is wrong with the words of a step.
#[derive(Clone, Copy, Debug, PartialEq, Eq)]
pub enum StepFlaw {
    /// The first word names no step.
    NoSuchStep,
    /// The step is a crop, and its four numbers don't follow.
    Crop,
    /// The step is a turn, and its angle isn't 90, 180 or 270.
    Angle,
    /// The step is a scale-down, and its factor doesn't follow.
    Factor,
    /// The step is a threshold, and its number doesn't follow.
    Limit,
    /// The step is a border, and its two numbers don't follow.
    Border,
    /// The step is a shrink, and its number doesn't follow.
    Block,
}

impl StepFlaw {
    /// Returns a sentence that says what is wrong.
    pub fn text(self) -> &'static str
        ensures { result.now ≡ step_flaw_text self }
    {
        match self {
            StepFlaw::NoSuchStep => "no such step; --help lists the steps",
            StepFlaw::Crop => "crop takes four numbers: top, left, height and width",
            StepFlaw::Angle => "rotate takes 90, 180 or 270",
            StepFlaw::Factor => "scale-down takes one number",
            StepFlaw::Limit => "threshold takes one number",
            StepFlaw::Border => "border takes two numbers: width and value",
            StepFlaw::Block => "shrink takes one number",
        }
    }
}

/// Writes what is wrong, for example `rotate takes 90, 180 or 270`.
impl fmt::Display for StepFlaw {
    ghost output = { λ flaw. Some (step_flaw_text flaw) };

    fn fmt<W: fmt::Write>(&self, f: &mut fmt::Formatter<W>) -> fmt::Result {
        write!(f, "{}", self.text())
    }
}

/// Why words are no list of steps.
#[derive(Clone, Copy, Debug, PartialEq, Eq)]
pub enum WordsError {
    /// One of the steps can't be read.
    BadStep {
        /// The number of the first step that can't be read, counted from 1.
        number: usize,
        /// What is wrong with that step.
        flaw: StepFlaw,
    },
    /// Memory was refused.
    Memory,
}

/// Writes the step and what is wrong with it, for example `step 2: rotate takes 90, 180 or 270`, or `out of memory`.
impl fmt::Display for WordsError {
    ghost output = { λ error. Some (words_error_text error) };

    fn fmt<W: fmt::Write>(&self, f: &mut fmt::Formatter<W>) -> fmt::Result {
        match self {
            WordsError::BadStep { number, flaw } => write!(f, "step {number}: {flaw}"),
            WordsError::Memory => write!(f, "out of memory"),
        }
    }
}

impl Error for WordsError {}
