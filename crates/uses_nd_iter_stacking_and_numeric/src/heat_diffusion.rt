//! Computes a step of heat diffusion on a grid of floats, cell by cell.
#![tactic(auto, using(nd_array_core::proofs::AxesOfDimensionTypes::known_axes))]

ghost use Rattle.std.specs.Prelude.{◌≡◌, ◌&&◌, IsTrue};
ghost use Rattle.nd_array_core.specs.Prelude.{rows_of, columns_of, shape_of, element_at, table_of, IsMappedByIndex};
ghost use Rattle.uses_nd_iter_stacking_and_numeric.specs.HeatStep.{is_inner, differences_to_neighbours, heat_after, heat_of, warmed_at};

use nd_array_core::prelude::*;

/// A grid, and the rate of a step of heat diffusion on it.
#[derive(Drop)]
struct Plate<'a, S: Data<Elem = f64>> {
    grid: &'a ArrayBase<S, Ix2>,
    rate: f64,
}

/// Returns whether `k` is neither the first nor the last of `count` coordinates.
fn is_inner(count: usize, k: usize) -> bool
    ensures { result ≡ is_inner count k }
{
    0 < k && k < count.saturating_sub(1)
}

/// Returns the cell at `row` and `column`, and 0 outside of the grid.
fn heat_at<S: Data<Elem = f64>>(grid: &ArrayBase<S, Ix2>, row: usize, column: usize) -> f64
    ensures { result ≡ heat_of (table_of grid.now) row column }
{
    match grid.get([row, column]) {
        Some(heat) => *heat,
        None => 0.0,
    }
}

/// Returns the sum of the differences between the four cells next to a cell and the cell itself. The cell must not lie
/// at the edge of the grid.
fn differences_at<S: Data<Elem = f64>>(grid: &ArrayBase<S, Ix2>, row: usize, column: usize) -> f64
    requires inner { IsTrue (is_inner (rows_of grid.now) row && is_inner (columns_of grid.now) column) }
    ensures { result ≡ differences_to_neighbours (table_of grid.now) row column }
{
    let here = heat_at(grid, row, column);
    (heat_at(grid, row - 1, column) - here)
        + (heat_at(grid, row + 1, column) - here)
        + (heat_at(grid, row, column - 1) - here)
        + (heat_at(grid, row, column + 1) - here)
}

impl<'a, S: Data<Elem = f64>> Plate<'a, S> {
    /// Returns the cell at `row` and `column` after a step: the rate times the sum of the differences to the four cells
    /// next to it is added to it. A cell at the edge of the grid stays as it is.
    fn heated(&self, row: usize, column: usize) -> f64
        ensures { result ≡ heat_after (table_of self.entry.now.grid.now) self.entry.now.rate row column }
    {
        let (rows, columns) = self.grid.dim();
        let here = heat_at(self.grid, row, column);
        if is_inner(rows, row) && is_inner(columns, column) {
            here + self.rate * differences_at(self.grid, row, column)
        } else {
            here
        }
    }
}

/// Writes the grid after a step of heat diffusion to `next`: to each cell that isn't at the edge of the grid, `rate` times
/// the sum of the differences to the four cells next to it is added. `next` should have the shape of the grid; a cell
/// outside of the grid counts as 0. It takes no memory.
pub fn heat_step<S: Data<Elem = f64>, Z: DataMut<Elem = f64>>(
    grid: &ArrayBase<S, Ix2>,
    rate: f64,
    next: &mut ArrayBase<Z, Ix2>,
)
    ensures shape { shape_of next.new ≡ shape_of next.old }
    ensures cells { IsMappedByIndex (warmed_at (table_of grid.now) rate) (element_at next.old) (element_at next.new) }
{
    let plate = Plate { grid, rate };
    next.indexed_map_inplace(|(row, column), heat| *heat = plate.heated(row, column));
}
