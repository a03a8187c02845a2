//! The bytes of a file's elements as values.

ghost use Rattle.std.specs.Prelude.{◌≡◌, ◌<◌, ◌≤◌, ◌+◌, ◌*◌, ◌++◌, [], ◌∷◌, length, take, drop, vec_len, vec_capacity, IfOk};
ghost use Rattle.nd_npy.specs.ItemBytes.{values_in};

use crate::item::NpyItem;
use nd_npy_text::ByteOrder;
use std::alloc::{AllocError, Global};

/// Appends the value of the first `size` of the bytes to `values`, which must have room for it, and returns the bytes
/// that follow.
fn take_value<'a, A: NpyItem>(
    values: &mut Vec<A>,
    order: ByteOrder,
    size: usize,
    bytes: &'a [u8],
) -> &'a [u8]
    requires size { size ≡ A.size }
    requires room { vec_len values.old < vec_capacity values.old }
    requires enough { size ≤ length bytes.now }
    ensures values { values.new.items ≡ values.old.items ++ A.value_of order (take size bytes.now) ∷ [] }
    ensures rest { result.now ≡ drop size bytes.now }
    ensures len { vec_len values.new ≡ vec_len values.old + 1 }
    ensures room { vec_capacity values.new ≡ vec_capacity values.old }
{
    values.push_reserved(A::from_bytes(order, &bytes[..size]));
    &bytes[size..]
}

/// Appends the values of `count` items of `size` bytes each, which must be all of the bytes, to `values`, which must have
/// room for them.
#[tactic(auto, using(crate::proofs::ItemValues::values_all, crate::proofs::ItemValues::values_more))]
pub(crate) fn push_values<A: NpyItem>(
    values: &mut Vec<A>,
    order: ByteOrder,
    size: usize,
    count: usize,
    bytes: &[u8],
)
    requires size { size ≡ A.size }
    requires whole { length bytes.now ≡ count * size }
    requires room { vec_len values.old + count ≤ vec_capacity values.old }
    ensures values { values.new.items ≡ values.old.items ++ values_in (A.value_of order) size count bytes.now }
    ensures len { vec_len values.new ≡ vec_len values.old + count }
{
    let mut rest = bytes;
    let mut left = count;
    while left > 0 {
        rest = take_value(values, order, size, rest);
        left -= 1;
    }
}

/// Returns the values of `count` items of `size` bytes each, which must be all of the bytes.
pub(crate) fn values_of<A: NpyItem>(
    alloc: Global,
    order: ByteOrder,
    size: usize,
    count: usize,
    bytes: &[u8],
) -> Result<Vec<A>, AllocError>
    requires size { size ≡ A.size }
    requires whole { length bytes.now ≡ count * size }
    ensures values { IfOk result (λ v. v.items ≡ values_in (A.value_of order) size count bytes.now) }
    ensures count { IfOk result (λ v. vec_len v ≡ count) }
{
    match Vec::with_capacity(alloc, count) {
        Ok(mut values) => {
            push_values(&mut values, order, size, count, bytes);
            Ok(values)
        }
        Err(error) => Err(error),
    }
}
