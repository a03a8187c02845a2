//! Writing a head.

ghost use Rattle.std.specs.Prelude.{◌≡◌, ◌≤◌, ◌<◌, ◌+◌, ◌^◌, ◌++◌, length, IfOk, OnOk};
ghost use Rattle.std.specs.Fmt.{decimal};
ghost use Rattle.std.specs.List.{flat_map};
ghost use Rattle.nd_npy_text.specs.HeaderDescription.{described};
ghost use Rattle.nd_npy_text.specs.HeaderWriting.{order_text, next_length, tuple_end, tuple_text, dict_text, growth_room, spaces, padded, roomy_text, with_front, npy_header_text};

use crate::item_type::ItemType;
use itoa::Buffer;
use std::alloc::{AllocError, Global};

/// Puts a text after the bytes.
fn put(bytes: &mut Vec<u8>, text: &[u8]) -> Result<(), AllocError>
    ensures { OnOk result (bytes.new.items ≡ bytes.old.items ++ text.now) }
{
    bytes.extend_from_slice(text)
}

/// Puts texts after the bytes, one after another.
fn put_all(bytes: &mut Vec<u8>, texts: &[&[u8]]) -> Result<(), AllocError>
    ensures { OnOk result (bytes.new.items ≡ bytes.old.items ++ flat_map (λ text. text.now) texts.now) }
{
    for text in texts {
        put(bytes, text)?;
    }
    Ok(())
}

/// Puts a text after the bytes, and a number after this text.
fn put_with_number(bytes: &mut Vec<u8>, text: &[u8], number: usize) -> Result<(), AllocError>
    ensures { OnOk result (bytes.new.items ≡ bytes.old.items ++ (text.now ++ decimal number)) }
{
    put_all(bytes, &[text, Buffer::new().format(number).as_bytes()])
}

/// Puts lengths after the bytes, each with a comma and a space in front of it.
fn put_next_lengths(bytes: &mut Vec<u8>, lengths: &[usize]) -> Result<(), AllocError>
    ensures { OnOk result (bytes.new.items ≡ bytes.old.items ++ flat_map next_length lengths.now) }
{
    for length in lengths {
        put_with_number(bytes, b", ", *length)?;
    }
    Ok(())
}

/// Returns what ends a shape after its first length and these others: with a comma if there are no others.
fn shape_end(others: &[usize]) -> &'static [u8]
    ensures { result.now ≡ tuple_end others.now }
{
    match others {
        [] => b",)",
        _ => b")",
    }
}

/// Puts a shape after the bytes, as Python writes it: its lengths in parentheses, with a comma after the length if there is
/// only one.
///
/// # Errors
///
/// Fails with `AllocError` if memory for the bytes is refused. A part of the shape may then stand after the bytes.
pub fn put_shape(bytes: &mut Vec<u8>, shape: &[usize]) -> Result<(), AllocError>
    ensures { OnOk result (bytes.new.items ≡ bytes.old.items ++ tuple_text shape.now) }
{
    match shape {
        [] => put(bytes, b"()"),
        [first, others @ ..] => {
            put_with_number(bytes, b"(", *first)?;
            put_next_lengths(bytes, others)?;
            put(bytes, shape_end(others))
        }
    }
}

/// Returns what stands in a dict between the item type and the shape: the order as Python writes it, and the keys of
/// order and shape.
fn order_text(fortran_order: bool) -> &'static [u8]
    ensures { result.now ≡ order_text fortran_order }
{
    if fortran_order {
        b"', 'fortran_order': True, 'shape': "
    } else {
        b"', 'fortran_order': False, 'shape': "
    }
}

/// Puts a dict after the bytes.
fn put_dict(
    bytes: &mut Vec<u8>,
    item_type: ItemType,
    fortran_order: bool,
    shape: &[usize],
) -> Result<(), AllocError>
    ensures { OnOk result (bytes.new.items ≡ bytes.old.items ++ dict_text (described item_type fortran_order shape.now)) }
{
    let mark = [item_type.order.mark()];
    let front: [&[u8]; 4] = [
        b"{'descr': '",
        &mark,
        item_type.kind.code(),
        order_text(fortran_order),
    ];
    put_all(bytes, &front)?;
    put_shape(bytes, shape)?;
    put(bytes, b", }")
}

/// Returns how many decimal digits a number has.
fn digit_count(number: usize) -> usize
    ensures { result ≡ length (decimal number) }
{
    Buffer::new().format(number).len()
}

/// Returns how many spaces leave room for the length of the growing axis to have 21 digits; none if there is no axis.
fn growth_room(fortran_order: bool, shape: &[usize]) -> usize
    ensures { result ≡ growth_room fortran_order shape.now }
{
    if shape.is_empty() {
        return 0;
    }
    let axis = if fortran_order { shape.len() - 1 } else { 0 };
    DIGITS.saturating_sub(digit_count(shape[axis]))
}

/// The number of digits for which the length of the growing axis has room.
const DIGITS: usize = 21;

/// Puts spaces and a line feed after the text of a dict, which begins at byte 10 of the file: `room` spaces, and after
/// them as many as let the head end at a multiple of 64.
fn pad(text: &mut Vec<u8>, room: usize) -> Result<(), AllocError>
    requires { length text.old.items + room ≤ 800 }
    ensures text { OnOk result (text.new.items ≡ padded (text.old.items ++ spaces room)) }
    ensures short { OnOk result (length text.new.items < 2 ^ 16) }
{
    let size = text.len() + room;
    let end = size + ALIGNMENT - (FRONT_LEN + 1 + size) % ALIGNMENT;
    text.resize(end, b' ')?;
    put(text, b"\n")
}

/// The elements begin at a multiple of this number of bytes.
const ALIGNMENT: usize = 64;

/// How many bytes stand in front of the dict.
const FRONT_LEN: usize = 10;

/// Returns the dict, with the spaces and the line feed that end the head.
fn padded_text(
    alloc: Global,
    item_type: ItemType,
    fortran_order: bool,
    shape: &[usize],
) -> Result<Vec<u8>, AllocError>
    requires { length shape.now ≤ 32 }
    ensures text { IfOk result (λ v. v.items ≡ padded (roomy_text (described item_type fortran_order shape.now))) }
    ensures short { IfOk result (λ v. length v.items < 2 ^ 16) }
{
    let mut text = Vec::new(alloc);
    put_dict(&mut text, item_type, fortran_order, shape)?;
    pad(&mut text, growth_room(fortran_order, shape))?;
    Ok(text)
}

/// Returns the magic bytes, the version 1.0, the length of the text in two bytes, and the text.
fn with_front(alloc: Global, text: &[u8]) -> Result<Vec<u8>, AllocError>
    requires { length text.now < 2 ^ 16 }
    ensures { IfOk result (λ v. v.items ≡ with_front text.now) }
{
    let size = text.len();
    let front = [
        0x93,
        b'N',
        b'U',
        b'M',
        b'P',
        b'Y',
        1,
        0,
        (size % 256) as u8,
        (size / 256) as u8,
    ];
    let mut bytes = Vec::new(alloc);
    put_all(&mut bytes, &[&front, text])?;
    Ok(bytes)
}

/// Returns the head of an array with elements of this type, in this order, and with this shape, as numpy 1.24 writes
/// it. The shape must have at most 32 axes; the head then takes less than 1,024 bytes, so the version is 1.0.
///
/// # Errors
///
/// Fails with `AllocError` if memory for the bytes is refused.
#[tactic(auto, unfolding(crate::specs::HeaderWriting::npy_header_text))]
pub fn header_bytes(
    alloc: Global,
    item_type: ItemType,
    fortran_order: bool,
    shape: &[usize],
) -> Result<Vec<u8>, AllocError>
    requires axes { length shape.now ≤ 32 }
    ensures written { IfOk result (λ v. v.items ≡ npy_header_text (described item_type fortran_order shape.now)) }
{
    let text = padded_text(alloc, item_type, fortran_order, shape)?;
    with_front(alloc, text.as_slice())
}
