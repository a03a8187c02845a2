//! Counts in loops how many pixels of an image have each value.
#![tactic(auto, using(nd_array_core::proofs::AxesOfDimensionTypes::known_axes))]

ghost use Rattle.std.specs.Prelude.{◌≡◌, ◌<◌, ◌+◌, ◌^◌, ℕ, slice_index};
ghost use Rattle.nd_array_core.specs.Prelude.{rows_of, columns_of, table_of, row_of};
ghost use Rattle.uses_nd_array_core.specs.CellCounts.{count_in_table, CountsValue, CountsLine, GrowByAtMost};

use nd_array_core::laws::rows_joined;
use nd_array_core::prelude::*;
use std::alloc::Global;

/// Returns an array of `N` zeros.
fn zeros<const N: usize>() -> [u64; N]
    ensures { (k : ℕ) → k < N → slice_index result k ≡ 0 }
{
    [0; N]
}

/// Increments the count of the value of one pixel.
fn count_pixel(counts: &mut [u64; 256], value: u8)
    requires no_overflow { slice_index counts.old value + 1 < 2 ^ 64 }
    ensures { CountsValue value counts.old counts.new }
{
    counts[value as usize] += 1;
}

/// Increments, for each pixel of a row, the count of its value.
#[tactic(auto, using(std::proofs::lemmas::Bool::Decides::nat_tests, nd_array_core::proofs::AxesOfDimensionTypes::known_axes))]
fn count_row<S: Data<Elem = u8>>(counts: &mut [u64; 256], image: &ArrayBase<S, Ix2>, row: usize)
    requires row { row < rows_of image.now }
    requires no_overflow { (v : ℕ) → v < 256 → slice_index counts.old v + columns_of image.now < 2 ^ 64 }
    ensures counted { CountsLine (row_of row (table_of image.now)) counts.old counts.new }
    ensures few { GrowByAtMost (columns_of image.now) counts.old counts.new }
{
    let columns = image.ncols();
    for column in 0..columns {
        count_pixel(counts, image[[row, column]]);
    }
}

/// Returns for each of the 256 values how many pixels have it.
#[tactic(auto, using(std::proofs::lemmas::Bool::Decides::nat_tests, nd_array_core::proofs::AxesOfDimensionTypes::known_axes))]
pub fn histogram<S: Data<Elem = u8>>(image: &ArrayBase<S, Ix2>) -> [u64; 256]
    ensures { (value : ℕ) → value < 256 → slice_index result value ≡ count_in_table (table_of image.now) value }
{
    rows_joined(image);
    let rows = image.nrows();
    let mut counts: [u64; 256] = zeros();
    for row in 0..rows {
        count_row(&mut counts, image, row);
    }
    counts
}
