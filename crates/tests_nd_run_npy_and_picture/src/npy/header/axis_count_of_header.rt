//! A caller that reads a head, whose contract needs no proof file.

ghost use Rattle.std.specs.Prelude.{◌≡◌, ◌≤◌, length, IfOk};
ghost use Rattle.nd_npy_text.specs.HeaderReading.{npy_header_in};

use nd_npy_text::reader::read_header;
use nd_npy_text::writer::header_bytes;
use nd_npy_text::{ByteOrder, HeaderError, ItemType, Kind};
use std::alloc::Global;

/// Returns how many axes the array of a file has.
pub fn axes_of(alloc: Global, bytes: &[u8]) -> Result<usize, HeaderError>
    ensures few { IfOk result (λ axes. axes ≤ 32) }
    ensures meant { IfOk result (λ axes. IfOk (npy_header_in bytes.now) (λ x. axes ≡ length x.0.array_shape)) }
{
    match read_header(alloc, bytes) {
        Ok((header, _start)) => Ok(header.shape.len()),
        Err(error) => Err(error),
    }
}

#[test]
fn axes_of_a_head(rt: HostRuntime) {
    let item_type = ItemType {
        kind: Kind::Float64,
        order: ByteOrder::Little,
    };
    let alloc = rt.alloc();
    let three = match header_bytes(alloc, item_type, false, &[2, 3, 4]) {
        Ok(bytes) => matches!(axes_of(alloc, &bytes), Ok(3)),
        Err(_) => false,
    };
    assert!(rt; three);
}
