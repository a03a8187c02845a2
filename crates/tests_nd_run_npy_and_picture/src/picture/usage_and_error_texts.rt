//! The usage text, arguments that can't be taken, and the texts of errors.

use nd_picture::usage_and_argument_errors::{asks_for_help, decline, help};
use nd_picture::{ArgumentsError, PictureStepsError, Watched};
use nd_picture_text::reader::read_image;
use nd_picture_text::step_words::read_steps;
use nd_picture_text::{ImageError, Step, WordsError};

#[test]
fn help_that_is_asked_for(rt: HostRuntime) {
    assert!(rt; asks_for_help(b" --help"));
    assert!(rt; asks_for_help(b"--help flip"));
    assert!(rt; !asks_for_help(b""));
    assert!(rt; !asks_for_help(b"flip --help"));
    assert!(rt; !asks_for_help(b"-help"));
    let mut output = Watched::new(Vec::new(rt.alloc()));
    let mut errors = Watched::new(Vec::new(rt.alloc()));
    assert!(rt; help(&mut output, &mut errors) == 0);
    let usage = output.into_inner();
    assert!(rt; usage.starts_with(b"Usage: nd_picture_program [STEP]..\n"));
    assert!(rt; errors.into_inner().as_slice() == b"".as_slice());
}

#[test]
fn arguments_that_can_not_be_taken(rt: HostRuntime) {
    let mut errors = Watched::new(Vec::new(rt.alloc()));
    assert!(rt; decline(&mut errors, ArgumentsError::NotText) == 1);
    assert!(rt;
        errors.into_inner().as_slice()
            == b"nd_picture_program: an argument isn't UTF-8\n".as_slice()
    );
    let mut errors = Watched::new(Vec::new(rt.alloc()));
    assert!(rt; decline(&mut errors, ArgumentsError::Memory) == 2);
    assert!(rt;
        errors.into_inner().as_slice() == b"nd_picture_program: out of memory\n".as_slice()
    );
}

#[test]
fn what_errors_write(rt: HostRuntime) {
    let bytes = read_image(rt.alloc(), b"P2 1 1 9 10")
        .err()
        .expect(&rt, "error");
    let text = format!(in rt.alloc(); "{bytes}").expect(&rt, "text");
    assert!(rt; text.as_str() == "byte 10: a sample must be a number from 0 to the maxval");
    let words = read_steps(rt.alloc(), b"flip rotate 45")
        .err()
        .expect(&rt, "error");
    let text = format!(in rt.alloc(); "{words}").expect(&rt, "text");
    assert!(rt; text.as_str() == "step 2: rotate takes 90, 180 or 270");
    let step = PictureStepsError::Refused {
        number: 3,
        step: Step::ScaleDown(0),
    };
    let text = format!(in rt.alloc(); "{step}, {}", ArgumentsError::NotText).expect(&rt, "text");
    assert!(rt;
        text.as_str()
            == "step 3: the factor must be at least 1 and below 2^63, an argument isn't UTF-8"
    );
    let text = format!(in rt.alloc(); "{}, {}", ImageError::Memory, WordsError::Memory).expect(
        &rt, "text",
    );
    assert!(rt; text.as_str() == "out of memory, out of memory");
}
