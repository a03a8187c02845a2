//! What the program writes for a line of steps and the bytes of the input: an image, or the reason why there is none.
#![tactic(auto, using(nd_array_core::proofs::AxesOfDimensionTypes::known_axes))]

ghost use Rattle.std.specs.Prelude.{◌≡◌, IfOk, IfErr, IsTrue};
ghost use Rattle.std.specs.Result.{result_map_both};
ghost use Rattle.nd_array_core.specs.ArrayMeaning.{meaning_of};
ghost use Rattle.nd_text.specs.LinesAndWords.{words_of};
ghost use Rattle.nd_text.specs.BufferedPrinting.{TakesText};
ghost use Rattle.nd_text.specs.WatchedReadersAndWriters.{watched_inner, watched_failed, watched_retried, GetsFlushed};
ghost use Rattle.nd_picture_text.specs.ImageFormatsAndHeaders.{pixmap_of, IsWholeImage};
ghost use Rattle.nd_picture_text.specs.RowwiseImageReading.{still_given};
ghost use Rattle.nd_picture_text.specs.ImageWriting.{image_text};
ghost use Rattle.nd_array_core.specs.reshape.ElementsAsSlice.{IsStandardArray};
ghost use Rattle.nd_picture.specs.ImageOfArray.{drawn_image, LiesInRows};
ghost use Rattle.nd_picture.specs.PictureSampleLists.{IsImageShown};
ghost use Rattle.nd_picture.specs.OutputAndStatus.{is_failed_read, HasGoodSteps, AreNoSteps, IsImageReadFrom, IsReadFor, Changes, WritesImage, WritesBefore, WritesImageOf, WritesBeforeOf};

use crate::image_row_by_row::{plan_for, write_by_rows};
use crate::image_steps_applied::{PictureStepsError, header_after, take_steps};
use crate::images_as_arrays::{laid_out, picture_of, samples_in};
use crate::steps_on_row_strips::are_by_rows;
use nd_array_core::Array3;
use nd_array_core::laws::elements_by_rank;
use nd_picture_text::header_from_stream::read_header;
use nd_picture_text::reader::read_image;
use nd_picture_text::step_words::read_steps;
use nd_picture_text::writer::write_image;
use nd_picture_text::{Header, Image, ImageError, ImageFlaw, Step, StepFlaw, WordsError};
use nd_text::Watched;
use nd_text::read_input::{InputError, fill};
use std::alloc::Global;
use std::io::{Read, Write};

/// Why no image is written.
#[derive(Clone, Copy, Debug, PartialEq, Eq)]
pub enum Fault {
    /// A step can't be read.
    BadStep {
        /// The number of the first step that can't be read, counted from 1.
        number: usize,
        /// What is wrong with that step.
        flaw: StepFlaw,
    },
    /// The input is no image.
    BadByte {
        /// The position of the first byte at which no image can go on, counted from 0.
        byte: usize,
        /// What is wrong at that byte.
        flaw: ImageFlaw,
    },
    /// A step can't be applied to the picture that it meets.
    Refused {
        /// The number of the first step that can't be applied, counted from 1.
        number: usize,
        /// That step.
        step: Step,
    },
    /// Memory was refused.
    Memory,
    /// A read of the input failed.
    ReadFailed,
}

/// The image that is written: a picture in the standard layout, and its header.
#[derive(Drop)]
pub(crate) struct Drawn {
    /// The header of the image.
    pub(crate) header: Header,
    /// The samples of the image, in the standard layout.
    pub(crate) picture: Array3<u16>,
}

/// Reads the input to its end, and returns the image that its bytes are, of which `bytes` were read before.
fn load<R: Read>(alloc: Global, input: &mut Watched<R>, bytes: Vec<u8>) -> Result<Image, Fault>
    ensures image { IsImageReadFrom (still_given R.remaining input.old bytes.items) (result_map_both pixmap_of (λ e. e) result) }
    ensures whole { IfOk result (λ image. IsWholeImage (pixmap_of image)) }
    ensures failed { watched_failed input.new ≡ is_failed_read result }
    ensures steps { HasGoodSteps result }
    ensures stops { watched_retried input.new ≡ watched_retried input.old }
{
    let mut bytes = bytes;
    match fill(input, &mut bytes, usize::MAX) {
        Ok(()) => {}
        Err(InputError::Failed) => return Err(Fault::ReadFailed),
        Err(InputError::Memory) => return Err(Fault::Memory),
    }
    match read_image(alloc, &bytes) {
        Ok(image) => Ok(image),
        Err(ImageError::BadByte { byte, flaw }) => Err(Fault::BadByte { byte, flaw }),
        Err(ImageError::Memory) => Err(Fault::Memory),
    }
}

/// Returns the image of `picture`, with the format and the maxval of `header`.
fn with_header(header: Header, picture: Array3<u16>) -> Drawn
    requires { IsStandardArray picture }
    ensures image { IsImageShown header (meaning_of picture) (drawn_image result) }
    ensures standard { LiesInRows result }
{
    let (height, width, _channels) = picture.dim();
    elements_by_rank(&picture);
    Drawn {
        header: Header {
            kind: header.kind,
            width,
            height,
            maxval: header.maxval,
        },
        picture,
    }
}

/// Returns the image after all steps, which is whole, with no sample above the maxval.
fn change(alloc: Global, steps: &[Step], image: Image) -> Result<Drawn, Fault>
    requires { IsWholeImage (pixmap_of image) }
    ensures changed { Changes steps.now (pixmap_of image) (result_map_both drawn_image (λ e. e) result) }
    ensures standard { IfOk result LiesInRows }
{
    let header = image.header;
    match take_steps(alloc, header.maxval, steps, picture_of(image)) {
        Ok(picture) => match laid_out(alloc, picture) {
            Ok(laid) => Ok(with_header(header_after(steps, header), laid)),
            Err(_) => Err(Fault::Memory),
        },
        Err(PictureStepsError::Refused { number, step }) => Err(Fault::Refused { number, step }),
        Err(PictureStepsError::Memory) => Err(Fault::Memory),
    }
}

/// Writes `image` to `output`, and flushes `output` once.
fn show<W: Write>(output: &mut Watched<W>, image: &Drawn)
    requires { LiesInRows image.now }
    ensures text { TakesText W.contents output.old output.new (image_text (drawn_image image.now)) }
    ensures flushed { GetsFlushed output.old output.new }
{
    write_image(output, image.header, samples_in(&image.picture));
}

/// Reads the whole of an image, of which `bytes` were read before, takes the steps, and writes the image.
fn write_at_once<R: Read, W: Write>(
    alloc: Global,
    steps: &[Step],
    bytes: Vec<u8>,
    input: &mut Watched<R>,
    output: &mut Watched<W>,
) -> Result<(), Fault>
    ensures written { IfOk result (λ _. WritesImage W.contents steps.now (still_given R.remaining input.old bytes.items) output.old output.new) }
    ensures fault { IfErr result (λ fault. WritesBefore W.contents steps.now (still_given R.remaining input.old bytes.items) fault output.old output.new) }
    ensures failed { watched_failed input.new ≡ is_failed_read result }
    ensures steps { HasGoodSteps result }
    ensures stops_reading { watched_retried input.new ≡ watched_retried input.old }
    ensures stops_writing { watched_retried output.new ≡ watched_retried output.old }
{
    let image = match load(alloc, input, bytes) {
        Ok(image) => image,
        Err(fault) => return Err(fault),
    };
    match change(alloc, steps, image) {
        Ok(drawn) => {
            show(output, &drawn);
            Ok(())
        }
        Err(fault) => Err(fault),
    }
}

/// Reads an image, takes the steps, and writes the image: row by row where this can be done, and otherwise at once.
fn write_changed<R: Read, W: Write>(
    alloc: Global,
    steps: &[Step],
    input: &mut Watched<R>,
    output: &mut Watched<W>,
) -> Result<(), Fault>
    ensures written { IfOk result (λ _. WritesImage W.contents steps.now (R.remaining (watched_inner input.old)) output.old output.new) }
    ensures fault { IfErr result (λ fault. WritesBefore W.contents steps.now (R.remaining (watched_inner input.old)) fault output.old output.new) }
    ensures failed { watched_failed input.new ≡ is_failed_read result }
    ensures steps { HasGoodSteps result }
    ensures stops_reading { watched_retried input.new ≡ watched_retried input.old }
    ensures stops_writing { watched_retried output.new ≡ watched_retried output.old }
{
    let mut bytes = Vec::new(alloc);
    if !are_by_rows(steps) {
        return write_at_once(alloc, steps, bytes, input, output);
    }
    match read_header(input, &mut bytes) {
        Ok(Some((header, size))) => match plan_for(steps, header, size) {
            Some(plan) => write_by_rows(alloc, steps, plan, bytes, input, output),
            None => write_at_once(alloc, steps, bytes, input, output),
        },
        Ok(None) => write_at_once(alloc, steps, bytes, input, output),
        Err(InputError::Failed) => Err(Fault::ReadFailed),
        Err(InputError::Memory) => Err(Fault::Memory),
    }
}

/// Reads the steps from the words of `line` and an image from the input, and writes the image after the steps to
/// `output`. If the words are no steps, no byte of the input is read. Steps that make each row of an image from one row of
/// it are taken row by row, so that some rows may be written before a fault is found.
pub(crate) fn write_outcome<R: Read, W: Write>(
    alloc: Global,
    line: &[u8],
    input: &mut Watched<R>,
    output: &mut Watched<W>,
) -> Result<(), Fault>
    ensures written { IfOk result (λ _. WritesImageOf W.contents (words_of line.now) (R.remaining (watched_inner input.old)) output.old output.new) }
    ensures fault { IfErr result (λ fault. WritesBeforeOf W.contents (words_of line.now) (R.remaining (watched_inner input.old)) fault output.old output.new) }
    ensures failed { IsTrue (is_failed_read result) → IsTrue (watched_failed input.new) }
    ensures reads { IsReadFor input.old input.new result }
    ensures unread { AreNoSteps (words_of line.now) → input.new ≡ input.old }
    ensures stops_reading { watched_retried input.new ≡ watched_retried input.old }
    ensures stops_writing { watched_retried output.new ≡ watched_retried output.old }
{
    let steps = match read_steps(alloc, line) {
        Ok(steps) => steps,
        Err(WordsError::BadStep { number, flaw }) => return Err(Fault::BadStep { number, flaw }),
        Err(WordsError::Memory) => return Err(Fault::Memory),
    };
    write_changed(alloc, &steps, input, output)
}
