//! Equality and hashes of arrays.

ghost use Rattle.std.specs.Prelude.{ℕ};

use crate::arrays_by_memory_order::by_columns;
use nd_array_core::Array2;
use nd_shape_and_slice::ShapeBuilder;
use nd_test_arrays::table;
use std::alloc::Global;
use std::cell::Cell;
use std::hash::{DefaultHasher, Hash, Hasher};

/// Returns whether two tables are equal.
fn same(one: &Array2<u64>, other: &Array2<u64>) -> bool {
    one == other
}

/// Returns the hash of an image.
fn hashed(image: &Array2<u64>) -> u64 {
    let mut hasher = DefaultHasher::default();
    image.view().hash(&mut hasher);
    hasher.finish()
}

/// A hasher that records what it is fed: for each call how many bytes there were, and the little-endian number that
/// they are. The record is kept in cells, so that in proofs the hasher doesn't change.
#[derive(Drop)]
struct Recorder {
    calls: Cell<[(usize, u64); 16]>,
    count: Cell<usize>,
}

impl Recorder {
    fn new() -> Recorder {
        Recorder {
            calls: Cell::new([(0, 0); 16]),
            count: Cell::new(0),
        }
    }
}

impl Hasher for Recorder {
    ghost write = { λ s bytes. s };

    ghost finish = { λ s. 0 };

    fn finish(&self) -> u64 {
        0
    }

    fn write(&mut self, bytes: &[u8]) {
        let mut number = 0u64;
        for byte in bytes.iter().rev() {
            number = number.wrapping_mul(256) | *byte as u64;
        }
        let mut calls = self.calls.get();
        let count = self.count.get();
        if count < calls.len() {
            calls[count] = (bytes.len(), number);
        }
        self.calls.set(calls);
        self.count.set(count.wrapping_add(1));
    }
}

/// Returns whether an array feeds a hasher what the hasher `wanted` was fed.
fn feeds(array: &Array2<(u8, u16)>, wanted: &Recorder) -> bool {
    let mut hasher = Recorder::new();
    array.hash(&mut hasher);
    hasher.count.get() == wanted.count.get() && hasher.calls.get() == wanted.calls.get()
}

/// Returns the square of two rows and two columns that is stored as these four pairs, by rows or by columns.
fn square(alloc: Global, by_columns: bool, pairs: &[(u8, u16)]) -> Option<Array2<(u8, u16)>> {
    let items = Vec::from_slice(alloc, pairs).ok()?;
    let strides = if by_columns { [1, 2] } else { [2, 1] };
    match Array2::from_shape_vec((2, 2).strides(&strides), items) {
        Ok(square) => Some(square),
        Err(_) => None,
    }
}

const PAIRS: [(u8, u16); 4] = [(1, 10), (2, 20), (3, 30), (4, 40)];

fn equal_arrays_are_fed_alike(alloc: Global) -> bool {
    let Some(rows) = square(alloc, false, &PAIRS) else {
        return false;
    };
    let Some(columns) = square(alloc, true, &[(1, 10), (3, 30), (2, 20), (4, 40)]) else {
        return false;
    };
    let mut wanted = Recorder::new();
    [2usize, 2].as_slice().hash(&mut wanted);
    for pair in &PAIRS {
        pair.hash(&mut wanted);
    }
    wanted.count.get() == 11
        && wanted.calls.get()[10] == (2, 40)
        && rows == columns
        && feeds(&rows, &wanted)
        && feeds(&columns, &wanted)
}

fn equal_in_either_order(alloc: Global) -> bool {
    let Some(rows) = table(alloc, (2, 3), &[1, 2, 3, 4, 5, 6]) else {
        return false;
    };
    let Some(mut columns) = by_columns(alloc, (2, 3), &[1, 4, 2, 5, 3, 6]) else {
        return false;
    };
    let equal = same(&rows, &columns) && same(&columns, &rows) && hashed(&rows) == hashed(&columns);
    columns[[1, 2]] = 7;
    equal && !same(&rows, &columns)
}

fn a_hasher_is_fed_the_shape_and_each_element(alloc: Global) -> bool {
    let Some(image) = by_columns(alloc, (2, 2), &[1, 2, 3, 4]) else {
        return false;
    };
    let mut hasher = DefaultHasher::default();
    [2usize, 2].as_slice().hash(&mut hasher);
    for number in [1u64, 3, 2, 4] {
        number.hash(&mut hasher);
    }
    hashed(&image) == hasher.finish()
}

#[test]
fn equal_and_hashed(rt: HostRuntime) {
    assert!(rt; equal_arrays_are_fed_alike(rt.alloc()));
    assert!(rt; equal_in_either_order(rt.alloc()));
    assert!(rt; a_hasher_is_fed_the_shape_and_each_element(rt.alloc()));
}
