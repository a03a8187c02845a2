//! Images that are changed row by row: a few rows are read, changed and written at a time.
#![tactic(auto, using(nd_array_core::proofs::AxesOfDimensionTypes::known_axes))]

ghost use Rattle.std.specs.Prelude.{◌≡◌, false, true, IfOk, IfErr, IfSome, OnOk, OnErr};
ghost use Rattle.nd_array_core.specs.ArrayMeaning.{meaning_of};
ghost use Rattle.nd_array_core.specs.reshape.ElementsAsSlice.{IsStandardArray};
ghost use Rattle.nd_text.specs.WatchedReadersAndWriters.{watched_failed, watched_retried};
ghost use Rattle.nd_picture_text.specs.ImageFormatsAndHeaders.{pixmap_of, IsHeader, IsWholeImage};
ghost use Rattle.nd_picture_text.specs.RowwiseImageReading.{still_given, HasFront};
ghost use Rattle.nd_picture.specs.RowByRowOutput.{GoesByRows, IsPlanFor, AreSomeRows, ShowsRowsMade, PutsMade, PutsRows, IsFaultAfter};
ghost use Rattle.nd_picture.specs.OutputAndStatus.{is_failed_read, HasGoodSteps, WritesImage, WritesBefore};
ghost use Rattle.nd_picture.specs.RowwiseSteps.{are_by_rows};

use crate::image_steps_applied::header_after;
use crate::images_as_arrays::{laid_out, picture_of, samples_in};
use crate::read_change_and_write::Fault;
use crate::steps_on_row_strips::{Strip, row_count, sides_after, strip_after_each};
use nd_array_core::Array3;
use nd_picture_text::rows_from_stream::{drop_front, next_rows, with_rows};
use nd_picture_text::writer::{put_header, put_raster};
use nd_picture_text::{Header, Image, RowsError, Step};
use nd_shape_and_slice::NoMemory;
use nd_text::buffered_printing::finish;
use nd_text::{Page, Watched};
use std::alloc::Global;
use std::io::{Read, Write};

/// How an image is changed row by row.
#[derive(Clone, Copy)]
pub(crate) struct Plan {
    /// The header of the image that is read.
    pub(crate) header: Header,
    /// The number of bytes of that header.
    pub(crate) size: usize,
    /// The header of the image that is written.
    pub(crate) after: Header,
}

/// Returns how the steps, each of which goes by rows, can be taken row by row on an image with the header `header`, which
/// takes `size` bytes. Returns `None` if a step can't be taken.
pub(crate) fn plan_for(steps: &[Step], header: Header, size: usize) -> Option<Plan>
    requires { are_by_rows steps.now ≡ true }
    ensures { IfSome result (λ plan. IsPlanFor steps.now header size plan) }
{
    let (height, width) = sides_after(header.maxval, steps, header.height, header.width)?;
    let after = Header {
        height,
        width,
        ..header_after(steps, header)
    };
    Some(Plan {
        header,
        size,
        after,
    })
}

/// Returns the rows that the steps make of `image`, which is the rows from `first` on of an image. They are in the
/// standard layout.
fn rows_made(
    alloc: Global,
    steps: &[Step],
    first: usize,
    image: Image,
) -> Result<Array3<u16>, NoMemory>
    requires whole { IsWholeImage (pixmap_of image) }
    requires rows { AreSomeRows steps.now first (pixmap_of image) }
    ensures rows { IfOk result (λ a. ShowsRowsMade steps.now first (pixmap_of image) (meaning_of a)) }
    ensures standard { IfOk result IsStandardArray }
{
    let maxval = image.header.maxval;
    let strip = Strip {
        first,
        rows: picture_of(image),
    };
    let made = strip_after_each(alloc, maxval, steps, strip)?;
    let laid = laid_out(alloc, made.rows)?;
    Ok(laid)
}

/// Writes the rows that the steps make of `image`, which is the rows from `first` on of an image. All is buffered in
/// `page`. Fails if memory is refused, and then writes nothing.
fn put_made<W: Write>(
    alloc: Global,
    steps: &[Step],
    first: usize,
    image: Image,
    after: Header,
    output: &mut Watched<W>,
    page: &mut Page,
) -> Result<(), NoMemory>
    requires whole { IsWholeImage (pixmap_of image) }
    requires rows { AreSomeRows steps.now first (pixmap_of image) }
    ensures put { OnOk result (PutsMade W.contents steps.now first (pixmap_of image) after output.old page.old output.new page.new) }
    ensures output { OnErr result (output.new ≡ output.old) }
    ensures page { OnErr result (page.new ≡ page.old) }
{
    let made = rows_made(alloc, steps, first, image)?;
    let count = row_count(&made);
    put_raster(output, page, with_rows(after, count), samples_in(&made));
    Ok(())
}

/// Returns the fault that the error of some rows is, before which there are `before` bytes. Where the position of a byte is
/// above the greatest `usize`, which takes a stream of as many bytes, the fault is that memory was refused.
fn fault_of(error: RowsError, before: usize) -> Fault
    ensures { IsFaultAfter before error result }
{
    match error {
        RowsError::BadByte { byte, flaw } => match before.checked_add(byte) {
            Some(byte) => Fault::BadByte { byte, flaw },
            None => Fault::Memory,
        },
        RowsError::Memory => Fault::Memory,
        RowsError::ReadFailed => Fault::ReadFailed,
    }
}

/// Reads the rows of an image, of which `bytes` were read before, and writes the rows that the steps make of them. All is
/// buffered in `page`. After a fault the rows before it are written.
fn put_rows<R: Read, W: Write>(
    alloc: Global,
    steps: &[Step],
    plan: Plan,
    bytes: &mut Vec<u8>,
    input: &mut Watched<R>,
    output: &mut Watched<W>,
    page: &mut Page,
) -> Result<(), Fault>
    requires header { IsHeader plan.header }
    requires plan { GoesByRows steps.now plan.header plan.after }
    requires fine { watched_failed input.old ≡ false }
    ensures put { PutsRows W.contents steps.now plan (still_given R.remaining input.old bytes.old.items) output.old page.old output.new page.new result }
    ensures failed { watched_failed input.new ≡ is_failed_read result }
    ensures stops { watched_retried input.new ≡ watched_retried input.old }
{
    let Plan {
        header,
        size,
        after,
    } = plan;
    let mut passed = size;
    let mut done = 0;
    while done < header.height {
        let rows = match next_rows(alloc, input, bytes, header, header.height - done) {
            Ok(rows) => rows,
            Err(error) => return Err(fault_of(error, passed)),
        };
        passed = match passed.checked_add(rows.size) {
            Some(sum) => sum,
            None => return Err(Fault::Memory),
        };
        let count = rows.image.header.height;
        match put_made(alloc, steps, done, rows.image, after, output, page) {
            Ok(()) => done += count,
            Err(_) => return Err(Fault::Memory),
        }
    }
    Ok(())
}

/// Reads an image, of which `bytes` were read before, row by row, and writes the rows that the steps make of it.
pub(crate) fn write_by_rows<R: Read, W: Write>(
    alloc: Global,
    steps: &[Step],
    plan: Plan,
    bytes: Vec<u8>,
    input: &mut Watched<R>,
    output: &mut Watched<W>,
) -> Result<(), Fault>
    requires front { HasFront R.remaining input.old bytes.items (plan.header, plan.size) }
    requires plan { GoesByRows steps.now plan.header plan.after }
    requires fine { watched_failed input.old ≡ false }
    ensures written { IfOk result (λ _. WritesImage W.contents steps.now (still_given R.remaining input.old bytes.items) output.old output.new) }
    ensures fault { IfErr result (λ fault. WritesBefore W.contents steps.now (still_given R.remaining input.old bytes.items) fault output.old output.new) }
    ensures failed { watched_failed input.new ≡ is_failed_read result }
    ensures steps { HasGoodSteps result }
    ensures stops_reading { watched_retried input.new ≡ watched_retried input.old }
    ensures stops_writing { watched_retried output.new ≡ watched_retried output.old }
{
    let mut bytes = bytes;
    let mut page = Page::new();
    drop_front(&mut bytes, plan.size);
    put_header(output, &mut page, plan.after);
    let result = put_rows(alloc, steps, plan, &mut bytes, input, output, &mut page);
    finish(output, &page);
    result
}
