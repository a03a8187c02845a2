//! Finds the nearest of several centres for each of many points: the step of k-means that assigns the points.
#![tactic(auto, using(nd_array_core::proofs::AxesOfDimensionTypes::known_axes))]

ghost use Rattle.std.specs.Prelude.{◌≡◌, ◌↔◌, IfOk, IfSome, IsNone, [], ◌∷◌};
ghost use Rattle.std.specs.Float.{binary64, float_zero};
ghost use Rattle.std.specs.Float.Ieee.{add};
ghost use Rattle.std.specs.Ordering.{nan_last_cmp};
ghost use Rattle.nd_array_core.specs.Prelude.{meaning_of, shape_of, element_at, size_of, table_of, IsMappedByIndex};
ghost use Rattle.nd_numeric.specs.IndexOfLeastAndGreatest.{AreFirstLeast, IsFirstLeast};
ghost use Rattle.nd_numeric.specs.SumsProductsAndMeans.{AreLaneFolds};
ghost use Rattle.uses_nd_iter_stacking_and_numeric.specs.NearestCentres.{coordinate_of, square_between, square_at};

use nd_array_core::prelude::*;
use nd_numeric::{argmin, argmin_axis, sum_axis};
use std::alloc::Global;

/// Returns the number of the centre that is nearest to a point, given the point's distances to all centres. Of several
/// that are equally near it returns the first, and `None` if there is no centre. A distance that is a NaN counts as
/// greater than all others.
pub fn nearest_centre<S: Data<Elem = f64>>(distances: &ArrayBase<S, Ix1>) -> Option<usize>
    ensures none { IsNone result ↔ (size_of (shape_of distances.now) ≡ 0) }
    ensures nearest { IfSome result (λ k. IsFirstLeast nan_last_cmp (meaning_of distances.now) (k ∷ [])) }
{
    argmin(distances)
}

/// Points and centres, as the rows of two tables.
#[derive(Drop)]
struct Clusters<'a, S: Data<Elem = f64>, Z: Data<Elem = f64>> {
    points: &'a ArrayBase<S, Ix2>,
    centres: &'a ArrayBase<Z, Ix2>,
}

/// Returns the number of a table at `row` and `column`, and 0 outside of it.
fn coordinate_of<S: Data<Elem = f64>>(table: &ArrayBase<S, Ix2>, row: usize, column: usize) -> f64
    ensures { result ≡ coordinate_of (table_of table.now) row column }
{
    match table.get([row, column]) {
        Some(number) => *number,
        None => 0.0,
    }
}

impl<'a, S: Data<Elem = f64>, Z: Data<Elem = f64>> Clusters<'a, S, Z> {
    /// Returns the square of the difference of a point and a centre in one column.
    fn square_between(&self, point: usize, centre: usize, column: usize) -> f64
        ensures { result ≡ square_between (table_of self.entry.now.points.now) (table_of self.entry.now.centres.now) point centre column }
    {
        let difference = coordinate_of(self.points, point, column)
            - coordinate_of(self.centres, centre, column);
        difference * difference
    }
}

/// Writes the square of the difference of each point and each centre in each column. It takes no memory.
pub fn write_squares<S: Data<Elem = f64>, Z: Data<Elem = f64>, Y: DataMut<Elem = f64>>(
    points: &ArrayBase<S, Ix2>,
    centres: &ArrayBase<Z, Ix2>,
    squares: &mut ArrayBase<Y, Ix3>,
)
    ensures shape { shape_of squares.new ≡ shape_of squares.old }
    ensures squares { IsMappedByIndex (square_at (table_of points.now) (table_of centres.now)) (element_at squares.old) (element_at squares.new) }
{
    let clusters = Clusters { points, centres };
    squares.indexed_map_inplace(|(point, centre, column), square| {
        *square = clusters.square_between(point, centre, column)
    });
}

/// Returns the squared distance of each point from each centre, and the number of the centre that is nearest to each point:
/// the step of k-means that assigns the points. `squares` has an axis for the points, one for the centres and one for the
/// columns of both tables; it is written, and a squared distance is the sum of the squares in all columns. Of several
/// centres that are equally near the number is that of the first.
pub fn nearest_centres<S: Data<Elem = f64>, Z: Data<Elem = f64>, Y: DataMut<Elem = f64>>(
    alloc: Global,
    points: &ArrayBase<S, Ix2>,
    centres: &ArrayBase<Z, Ix2>,
    squares: &mut ArrayBase<Y, Ix3>,
) -> Result<(Array2<f64>, Array1<Option<usize>>), NoMemory>
    ensures squares { IsMappedByIndex (square_at (table_of points.now) (table_of centres.now)) (element_at squares.old) (element_at squares.new) }
    ensures distances { IfOk result (λ r. AreLaneFolds (add binary64) float_zero squares.new 2 (element_at r.0)) }
    ensures nearest { IfOk result (λ r. AreFirstLeast nan_last_cmp r.0 1 (element_at r.1)) }
{
    write_squares(points, centres, squares);
    let distances = sum_axis(alloc, squares, Axis(2))?;
    let nearest = argmin_axis(alloc, &distances, Axis(1))?;
    Ok((distances, nearest))
}
