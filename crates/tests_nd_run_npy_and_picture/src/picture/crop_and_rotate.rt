//! A caller that crops and turns a picture. It needs no proof file.

ghost use Rattle.std.specs.Prelude.{IfOk};
ghost use Rattle.nd_array_core.specs.ArrayMeaning.{meaning_of};
ghost use Rattle.nd_picture.specs.PictureChanges.{ShowsAfter, picture_cropped, picture_turned_quarter};

use nd_array_core::Array3;
use nd_picture::image_steps_applied::take_steps;
use nd_picture::images_as_arrays::{image_of, picture_of};
use nd_picture::{PictureStepsError, Watched};
use nd_picture_text::reader::read_image;
use nd_picture_text::writer::write_image;
use nd_picture_text::{Image, Step};
use std::alloc::Global;

/// The crop to three rows from row 2 on and four columns from column 1 on.
const PART: Step = Step::Crop {
    top: 2,
    left: 1,
    height: 3,
    width: 4,
};

/// Returns this part of a picture, turned clockwise by a quarter.
pub fn crop_and_turn(
    alloc: Global,
    maxval: u16,
    picture: Array3<u16>,
) -> Result<Array3<u16>, PictureStepsError>
    ensures { IfOk result (λ a. ShowsAfter (λ p. picture_turned_quarter (picture_cropped 2 1 3 4 p)) (meaning_of picture) (meaning_of a)) }
{
    let steps = [PART, Step::RotateQuarter];
    take_steps(alloc, maxval, &steps, picture)
}

const FIVE_ROWS: &[u8] = b"P2 5 5 99
0 1 2 3 4
10 11 12 13 14
20 21 22 23 24
30 31 32 33 34
40 41 42 43 44
";

/// Returns an image that is cropped and turned.
fn turned_image(alloc: Global, bytes: &[u8]) -> Option<Image> {
    let image = read_image(alloc, bytes).ok()?;
    let header = image.header;
    let turned = crop_and_turn(alloc, header.maxval, picture_of(image)).ok()?;
    image_of(alloc, header, &turned).ok()
}

#[test]
fn crops_and_turns(rt: HostRuntime) {
    let image = turned_image(rt.alloc(), FIVE_ROWS).expect(&rt, "image");
    let mut output = Watched::new(Vec::new(rt.alloc()));
    write_image(&mut output, image.header, &image.samples);
    assert!(rt;
        output.into_inner().as_slice()
            == b"P2\n3 4\n99\n41\n31\n21\n42\n32\n22\n43\n33\n23\n44\n34\n24\n".as_slice()
    );
}
