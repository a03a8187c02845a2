//! Computes the distance of two arrays of floats, and the mean of each window of neighbours in a list.
#![tactic(auto, using(std::proofs::lemmas::Bool::Decides::nat_tests, nd_array_core::proofs::AxesOfDimensionTypes::known_axes))]

ghost use Rattle.std.specs.Prelude.{◌≡◌, ◌+◌, ◌<◌, ◌≤◌, slice_index, IfOk};
ghost use Rattle.nd_array_core.specs.CollectedElements.{collected};
ghost use Rattle.nd_array_core.specs.Prelude.{meaning_of, shape_of, element_at, line_of, line_part, row_major_elements, IsMappedByIndex, ShowsLine};
ghost use Rattle.nd_array_core.specs.arithmetic.ElementwiseArithmetic.{CanMeet, IsOfBoth};
ghost use Rattle.nd_array_core.specs.elements.BroadcastPairs.{other_at};
ghost use Rattle.uses_nd_iter_stacking_and_numeric.specs.DistancesAndWindowMeans.{distance_of, squared_difference, squared_distance_of, squares_of, window_fits, window_mean, window_mean_at, window_sum};

use nd_array_core::laws::broadcast_to_itself;
use nd_array_core::prelude::*;
use nd_numeric::{Real, sum};
use std::alloc::Global;
use std::num::nearest_usize_to_f64;

/// Returns the squared distance of two arrays of the same shape: the sum of the squares of the differences of their
/// elements.
pub fn squared_distance<S: Data<Elem = f64>, Z: Data<Elem = f64>, D: Dimension>(
    one: &ArrayBase<S, D>,
    other: &ArrayBase<Z, D>,
) -> f64
    requires { shape_of other.now ≡ shape_of one.now }
    ensures { result ≡ squared_distance_of (meaning_of one.now) (meaning_of other.now) }
{
    broadcast_to_itself(other);
    one.zip_fold(
        other,
        0.0,
        |sum: f64, x: &f64, y: &f64| sum + (*x - *y) * (*x - *y),
    )
}

/// Returns the square of the difference of two numbers.
fn squared_difference(x: f64, y: f64) -> f64
    ensures { result ≡ squared_difference x y }
{
    (x - y) * (x - y)
}

/// Returns a new array of the squares of the differences of the elements of two arrays. `other` is broadcast to the shape
/// of `one`, which must be possible.
pub fn squared_differences<S: Data<Elem = f64>, D: Dimension, Z: Data<Elem = f64>, E: Dimension>(
    alloc: Global,
    one: &ArrayBase<S, D>,
    other: &ArrayBase<Z, E>,
) -> Result<Array<f64, D>, NoMemory>
    requires { CanMeet one.now other.now }
    ensures { IfOk result (IsOfBoth squared_difference one.now other.now) }
{
    let squares = one.zip_map(alloc, other, |x, y| squared_difference(*x, *y))?;
    Ok(squares)
}

/// States which elements an array of squares of differences has in row-major order.
#[tactic(auto, using(nd_array_core::proofs::reshape_lemmas::RunElements::same_elements))]
fn squares_in_order<
    S: Data<Elem = f64>,
    D: Dimension,
    Z: Data<Elem = f64>,
    E: Dimension,
    Y: Data<Elem = f64>,
>(squares: &ArrayBase<Y, D>, one: &ArrayBase<S, D>, other: &ArrayBase<Z, E>)
    requires { IsOfBoth squared_difference one.now other.now squares.now }
    ensures { row_major_elements (meaning_of squares.now) ≡ row_major_elements (squares_of (meaning_of one.now) (other_at one.now other.now)) }
{}

/// Returns the distance of two arrays: the square root of the sum of the squares of the differences of their elements.
/// `other` is broadcast to the shape of `one`, which must be possible.
pub fn distance<S: Data<Elem = f64>, D: Dimension, Z: Data<Elem = f64>, E: Dimension>(
    alloc: Global,
    one: &ArrayBase<S, D>,
    other: &ArrayBase<Z, E>,
) -> Result<f64, NoMemory>
    requires { CanMeet one.now other.now }
    ensures { IfOk result (λ distance. distance ≡ distance_of (meaning_of one.now) (other_at one.now other.now)) }
{
    let squares = squared_differences(alloc, one, other)?;
    squares_in_order(&squares, one, other);
    Ok(sum(&squares).root())
}

/// A list, and how many neighbours a window in it has.
#[derive(Drop)]
struct Windows<'a, S: Data<Elem = f64>> {
    list: &'a ArrayBase<S, Ix1>,
    width: usize,
}

/// Returns the part of `list` of `width` numbers that begins at the coordinate `from`.
fn window_of<'a, S: Data<Elem = f64>>(
    list: &'a ArrayBase<S, Ix1>,
    width: usize,
    from: usize,
) -> ArrayView1<'a, f64>
    requires { from + width ≤ slice_index (shape_of list.now) 0 }
    ensures { ShowsLine result (line_part from width (line_of list.now)) }
{
    list.slice_axis(Axis(0), Slice::between(from, from + width))
}

/// States which elements a window has in row-major order: its numbers, from the first on.
#[tactic(auto, using(nd_numeric::proofs::OneAxisInOrder::in_order))]
fn window_in_order<S: Data<Elem = f64>, Z: Data<Elem = f64>>(
    window: &ArrayBase<Z, Ix1>,
    list: &ArrayBase<S, Ix1>,
    width: usize,
    from: usize,
)
    requires { ShowsLine window.now (line_part from width (line_of list.now)) }
    ensures { row_major_elements (meaning_of window.now) ≡ collected (λ k. (line_of list.now).cells (from + k)) width }
{}

/// Returns the sum of the `width` numbers of `list` that begin at the coordinate `from`.
fn sum_of_window<S: Data<Elem = f64>>(list: &ArrayBase<S, Ix1>, width: usize, from: usize) -> f64
    requires { from + width ≤ slice_index (shape_of list.now) 0 }
    ensures { result ≡ window_sum width (line_of list.now) from }
{
    let window = window_of(list, width, from);
    window_in_order(&window, list, width, from);
    sum(&window)
}

impl<'a, S: Data<Elem = f64>> Windows<'a, S> {
    /// Returns whether the list has a window that begins at the coordinate `from`.
    fn has(&self, from: usize) -> bool
        ensures { result ≡ window_fits self.entry.now.width (line_of self.entry.now.list.now) from }
    {
        let count = self.list.len();
        from <= count && self.width <= count - from
    }

    /// Returns the mean of the window that begins at the coordinate `from`, and 0 if there is none.
    fn mean(&self, from: usize) -> f64
        ensures { result ≡ window_mean_at self.entry.now.width (line_of self.entry.now.list.now) from }
    {
        if self.has(from) {
            sum_of_window(self.list, self.width, from) / nearest_usize_to_f64(self.width)
        } else {
            0.0
        }
    }
}

/// Writes the mean of each window of `width` neighbours of `list` to the element of `means` at the coordinate at which the
/// window begins, and 0 where the list ends before the window does. It takes no memory.
pub fn running_mean<S: Data<Elem = f64>, Z: DataMut<Elem = f64>>(
    list: &ArrayBase<S, Ix1>,
    width: usize,
    means: &mut ArrayBase<Z, Ix1>,
)
    ensures shape { shape_of means.new ≡ shape_of means.old }
    ensures means { IsMappedByIndex (window_mean width (line_of list.now)) (element_at means.old) (element_at means.new) }
{
    let windows = Windows { list, width };
    means.indexed_map_inplace(|from, mean| *mean = windows.mean(from));
}
