//! What callers of `nd_numeric` make of small tables and lists of floats. Each call finds storage here. numpy 1.24 computed
//! the numbers of the grid and of the points.
#![tactic(auto, using(nd_array_core::proofs::AxesOfDimensionTypes::known_axes))]

use crate::numeric::tables_in_three_layouts::{float_list, floats_by, has, lists_floats, meets};
use nd_array_core::{Array1, Array2, Array3, ArrayBase, Data, DataMut};
use nd_shape_and_slice::{Dimension, Ix2};
use std::alloc::Global;
use uses_nd_iter_stacking_and_numeric::distances_and_window_means::{
    distance, running_mean, squared_distance,
};
use uses_nd_iter_stacking_and_numeric::heat_diffusion::heat_step;
use uses_nd_iter_stacking_and_numeric::nearest_centres::nearest_centres;
use uses_nd_iter_stacking_and_numeric::standardised_columns::{centre_columns, normalise_columns};

/// The shape and strides of a table, what it is stored as, its elements once its columns are shares of 1, and those once
/// they then have a mean of 0.
type Columns = (
    (usize, usize),
    [isize; 2],
    &'static [f64],
    &'static [f64],
    &'static [f64],
);

const SHARES: [f64; 4] = [0.25, 0.25, 0.75, 0.75];

const MOVED: [f64; 4] = [-0.25, -0.25, 0.25, 0.25];

// The table 1 2 / 3 6 in row-major order, in column-major order and with steps, and a table without rows.
const COLUMNS: [Columns; 4] = [
    ((2, 2), [2, 1], &[1.0, 2.0, 3.0, 6.0], &SHARES, &MOVED),
    ((2, 2), [1, 2], &[1.0, 3.0, 2.0, 6.0], &SHARES, &MOVED),
    (
        (2, 2),
        [4, -2],
        &[2.0, 9.0, 1.0, 9.0, 6.0, 9.0, 3.0],
        &SHARES,
        &MOVED,
    ),
    ((0, 2), [0, 0], &[], &[], &[]),
];

/// Returns whether a table comes to have these elements once its columns are shares of 1, and then those once they have a
/// mean of 0.
fn columns_become<S: DataMut<Elem = f64>>(
    alloc: Global,
    table: &mut ArrayBase<S, Ix2>,
    shares: &[f64],
    moved: &[f64],
) -> bool {
    if normalise_columns(alloc, table).is_err() || !has(table, shares) {
        return false;
    }
    centre_columns(alloc, table).is_ok() && has(table, moved)
}

/// Returns whether the columns of a table come to be shares of 1, and then to have a mean of 0.
fn columns_are_right(alloc: Global, row: &Columns) -> bool {
    match floats_by(alloc, row.0, row.1, row.2) {
        Some(made) => {
            let mut table = made;
            columns_become(alloc, &mut table, row.3, row.4)
        }
        None => false,
    }
}

fn columns(alloc: Global) -> bool {
    for row in &COLUMNS {
        if !columns_are_right(alloc, row) {
            return false;
        }
    }
    true
}

/// Returns whether two arrays of one shape are so far apart.
fn are_apart<S: Data<Elem = f64>, Z: Data<Elem = f64>, D: Dimension>(
    one: &ArrayBase<S, D>,
    other: &ArrayBase<Z, D>,
    wanted: f64,
) -> bool {
    one.shape() == other.shape() && squared_distance(one, other) == wanted
}

/// Returns whether two arrays are so far apart, and the first and itself not at all.
fn distances_are<S: Data<Elem = f64>, Z: Data<Elem = f64>, D: Dimension>(
    one: &ArrayBase<S, D>,
    other: &ArrayBase<Z, D>,
    wanted: f64,
) -> bool {
    are_apart(one, other, wanted) && are_apart(one, one, 0.0)
}

/// Returns whether an array and another one, which is broadcast to its shape, have this distance.
fn is_distance<S: Data<Elem = f64>, Z: Data<Elem = f64>, D: Dimension, E: Dimension>(
    alloc: Global,
    one: &ArrayBase<S, D>,
    other: &ArrayBase<Z, E>,
    wanted: f64,
) -> bool {
    meets(one, other) && distance(alloc, one, other) == Ok(wanted)
}

/// Returns whether 1 5 / 4 9 and the row 1 5 have the distance 5.
fn distance_to_row(alloc: Global) -> bool {
    let Some(table) = floats_by(alloc, (2, 2), [1, 2], &[1.0, 4.0, 5.0, 9.0]) else {
        return false;
    };
    match float_list(alloc, &[1.0, 5.0]) {
        Some(row) => is_distance(alloc, &table, &row, 5.0),
        None => false,
    }
}

/// Returns whether a table and the transpose of 0 1 / 4 0, which lies in column-major order, are as far apart as they
/// should be.
fn distances(alloc: Global) -> bool {
    let Some(one) = floats_by(alloc, (2, 2), [2, 1], &[1.0, 2.0, 4.0, 0.5]) else {
        return false;
    };
    match floats_by(alloc, (2, 2), [1, 2], &[0.0, 1.0, 4.0, 0.0]) {
        Some(other) => distances_are(&one, &other, 14.25),
        None => false,
    }
}

/// Widths of windows, and the means of the windows of so many neighbours of 1 2 3 6 0: 0 where the list ends before the
/// window does.
const MEANS: [(usize, &[f64]); 4] = [
    (1, &[1.0, 2.0, 3.0, 6.0, 0.0]),
    (2, &[1.5, 2.5, 4.5, 3.0, 0.0]),
    (5, &[2.4, 0.0, 0.0, 0.0, 0.0]),
    (6, &[0.0, 0.0, 0.0, 0.0, 0.0]),
];

/// Returns whether the means of all windows of so many neighbours of a list are these.
fn means_are(alloc: Global, list: &Array1<f64>, width: usize, wanted: &[f64]) -> bool {
    match float_list(alloc, &[9.0, 9.0, 9.0, 9.0, 9.0]) {
        Some(made) => {
            let mut means = made;
            running_mean(list, width, &mut means);
            lists_floats(&means, wanted)
        }
        None => false,
    }
}

fn windows(alloc: Global) -> bool {
    let Some(list) = float_list(alloc, &[1.0, 2.0, 3.0, 6.0, 0.0]) else {
        return false;
    };
    for (width, wanted) in &MEANS {
        if !means_are(alloc, &list, *width, *wanted) {
            return false;
        }
    }
    true
}

/// A grid of four rows and four columns.
const GRID: [f64; 16] = [
    0.0, 0.0, 0.0, 0.0, 0.0, 8.0, 4.0, 0.0, 0.0, 2.0, 6.0, 0.0, 1.0, 0.0, 0.0, 0.0,
];

/// The grid after a step of heat diffusion with the rate 0.25.
const HEATED: [f64; 16] = [
    0.0, 0.0, 0.0, 0.0, 0.0, 1.5, 3.5, 0.0, 0.0, 3.5, 1.5, 0.0, 1.0, 0.0, 0.0, 0.0,
];

/// The transpose of the grid after that step.
const TURNED: [f64; 16] = [
    0.0, 0.0, 0.0, 1.0, 0.0, 1.5, 3.5, 0.0, 0.0, 3.5, 1.5, 0.0, 0.0, 0.0, 0.0, 0.0,
];

/// Returns whether the grid, or its transpose, as the strides say, is this one after a step of heat diffusion with the
/// rate 0.25.
fn becomes(alloc: Global, strides: [isize; 2], wanted: &[f64]) -> bool {
    let Some(grid) = floats_by(alloc, (4, 4), strides, &GRID) else {
        return false;
    };
    match floats_by(alloc, (4, 4), [4, 1], &GRID) {
        Some(made) => {
            let mut next = made;
            heat_step(&grid, 0.25, &mut next);
            has(&next, wanted)
        }
        None => false,
    }
}

/// Returns whether the grid and its transpose are right after a step of heat diffusion.
fn heat(alloc: Global) -> bool {
    becomes(alloc, [4, 1], &HEATED) && becomes(alloc, [1, 4], &TURNED)
}

/// Points, centres, and the number of the nearest centre of each point; points and centres in a plane, one after another.
const NEAREST: [(&[f64], &[f64], &[Option<usize>]); 4] = [
    (
        &[0.0, 0.0, 1.0, 1.0, 5.0, 4.0, 2.5, 2.0, -3.0, 9.0],
        &[0.0, 1.0, 5.0, 3.0, 0.0, 1.0],
        &[Some(0), Some(0), Some(1), Some(0), Some(0)],
    ),
    (
        &[0.0, 0.0, 4.0, 0.0, 2.0, 0.0, 9.0, 9.0],
        &[0.0, 0.0, 4.0, 0.0],
        &[Some(0), Some(1), Some(0), Some(1)],
    ),
    (&[], &[1.0, 2.0], &[]),
    (&[1.0, 2.0, 3.0, 4.0], &[], &[None, None]),
];

/// Returns an array with an axis for the points, one for the centres and one for the columns. Returns `None` where memory is
/// refused.
fn scratch(alloc: Global, points: &Array2<f64>, centres: &Array2<f64>) -> Option<Array3<f64>> {
    let count = points.len().checked_mul(centres.nrows())?;
    let Ok(items) = Vec::from_slice(alloc, NINES.get(..count)?) else {
        return None;
    };
    match Array3::from_shape_vec((points.nrows(), centres.nrows(), points.ncols()), items) {
        Ok(made) => Some(made),
        Err(_) => None,
    }
}

/// Returns whether the nearest centres of the points have these numbers.
fn assigned_are(
    alloc: Global,
    points: &Array2<f64>,
    centres: &Array2<f64>,
    wanted: &[Option<usize>],
) -> bool {
    let Some(made) = scratch(alloc, points, centres) else {
        return false;
    };
    let mut squares = made;
    match nearest_centres(alloc, points, centres, &mut squares) {
        Ok((_distances, nearest)) => nearest.as_slice() == Some(wanted),
        Err(_) => false,
    }
}

/// What stands in the array of squares before they are written.
const NINES: [f64; 30] = [9.0; 30];

/// Returns the table of points in a plane, whose coordinates come one after another. Returns `None` where memory is
/// refused.
fn points_of(alloc: Global, coordinates: &[f64]) -> Option<Array2<f64>> {
    // Of a table without rows no stride may leave the storage.
    let strides = if coordinates.is_empty() {
        [0, 0]
    } else {
        [2, 1]
    };
    floats_by(alloc, (coordinates.len() / 2, 2), strides, coordinates)
}

/// Returns whether the nearest centres of points in a plane have these numbers.
fn nearest_are(alloc: Global, points: &[f64], centres: &[f64], wanted: &[Option<usize>]) -> bool {
    match points_of(alloc, points) {
        Some(points) => match points_of(alloc, centres) {
            Some(centres) => assigned_are(alloc, &points, &centres, wanted),
            None => false,
        },
        None => false,
    }
}

fn assignments(alloc: Global) -> bool {
    for (points, centres, wanted) in &NEAREST {
        if !nearest_are(alloc, *points, *centres, *wanted) {
            return false;
        }
    }
    true
}

#[test]
fn called(rt: HostRuntime) {
    let alloc = rt.alloc();
    let tables_are_right = columns(alloc) && distances(alloc) && heat(alloc);
    assert!(rt; tables_are_right && windows(alloc));
    assert!(rt; distance_to_row(alloc) && assignments(alloc));
}
