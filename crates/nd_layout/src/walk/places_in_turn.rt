//! The places of a layout, one after another.

ghost use Rattle.std.specs.Prelude.{◌≡◌, ◌+◌, ◌<◌, ◌≤◌, false, length, pos, IsTrue, MatchOption};
ghost use Rattle.nd_shape_and_slice.specs.ShapesAndIndexOrders.{size_of, HasCheckedSize};
ghost use Rattle.nd_layout.specs.ValidMemoryPlaces.{ReachesPlaces};
ghost use Rattle.nd_layout.specs.RowMajorWalk.{place_at_rank, IsLane};

use crate::layout::place_at::place_at;
use crate::walk::lane::Lane;
use crate::walk::layout_as_lanes::Places;
use crate::walk::walk_over_indexes::size;
use nd_shape_and_slice::{MAX_AXES, index_of_rank};

/// The places of a layout in row-major order of its indexes, one after another. They come in runs of places that lie a
/// stride apart, each of which is computed from its number in the run. All places are one run if they lie a stride
/// apart; otherwise there is a run for each lane along the last axis.
#[derive(Drop)]
pub struct PlacesInTurn<'a> {
    /// All places.
    pub places: Places<'a>,
    /// The number of all places.
    count: usize,
    /// The run that was begun last.
    pub run: Lane,
    /// The number of places before this run.
    pub begun: usize,
    ghost counted: { count ≡ size_of places.lengths.now },
}

/// Returns the place of the index of this row-major rank.
#[inline(never)]
fn place_of_rank(first: usize, lengths: &[usize], strides: &[isize], rank: usize) -> usize
    requires as_many { length strides.now ≡ length lengths.now }
    requires few { length lengths.now ≤ MAX_AXES }
    requires checked { HasCheckedSize lengths.now }
    requires reach { ReachesPlaces first lengths.now strides.now }
    requires below { rank < size_of lengths.now }
    ensures { pos result ≡ place_at_rank first lengths.now strides.now rank }
{
    let mut coordinates = [0; MAX_AXES];
    let index = &mut coordinates[..lengths.len()];
    index_of_rank(lengths, rank, index);
    place_at(first, lengths, strides, index)
}

/// Returns the lane of the places along the last axis, from the one of this row-major rank to the last. For the first
/// place, of rank 0, nothing is computed. The layout is given part by part, so that the compiler need not keep it in
/// memory for this call.
#[inline(never)]
fn lane_of_rank(first: usize, lengths: &[usize], strides: &[isize], rank: usize) -> Lane
    requires as_many { length strides.now ≡ length lengths.now }
    requires few { length lengths.now ≤ MAX_AXES }
    requires checked { HasCheckedSize lengths.now }
    requires reach { ReachesPlaces first lengths.now strides.now }
    requires below { rank < size_of lengths.now }
    ensures { IsLane first lengths.now strides.now rank result.place result.count result.stride }
{
    let axes = lengths.len();
    if axes == 0 {
        return Lane {
            place: first,
            count: 1,
            stride: 1,
        };
    }
    let len = lengths[axes - 1];
    let stride = strides[axes - 1];
    if rank == 0 {
        return Lane {
            place: first,
            count: len,
            stride,
        };
    }
    Lane {
        place: place_of_rank(first, lengths, strides, rank),
        count: len - rank % len,
        stride,
    }
}

impl<'a> PlacesInTurn<'a> {
    ghost use Rattle.nd_layout.specs.PlacesInTurn.{turn_count, HasGiven, GivesPlaceInTurn, HaveSamePlaces, ArePlacesOf, ArePlacesOfLayout};

    /// Returns these places in turn, from the first one on.
    #[inline(always)]
    pub fn new(places: Places<'a>) -> Self
        ensures over { ArePlacesOf places.entry result }
        ensures given { HasGiven result 0 }
    {
        if places.lengths.len() == 1 {
            let count = places.lengths[0];
            return PlacesInTurn {
                places,
                count,
                run: Lane {
                    place: places.first,
                    count,
                    stride: places.strides[0],
                },
                begun: 0,
            };
        }
        PlacesInTurn::of_axes(places.first, places.lengths, places.strides)
    }

    /// Returns the places of a layout in turn, from the first one on, whatever its number of axes. The layout is given
    /// part by part, so that the compiler need not keep it in memory for this call.
    #[inline(never)]
    pub(crate) fn of_axes(first: usize, lengths: &'a [usize], strides: &'a [isize]) -> Self
        requires as_many { length strides.now ≡ length lengths.now }
        requires few { length lengths.now ≤ MAX_AXES }
        requires checked { HasCheckedSize lengths.now }
        requires reach { ReachesPlaces first lengths.now strides.now }
        ensures over { ArePlacesOfLayout first lengths.now strides.now result }
        ensures given { HasGiven result 0 }
    {
        let places = Places {
            first,
            lengths,
            strides,
        };
        if let Some(run) = places.as_run() {
            return PlacesInTurn {
                places,
                count: run.count,
                run,
                begun: 0,
            };
        }
        PlacesInTurn {
            places,
            count: size(places.lengths),
            run: Lane {
                place: places.first,
                count: 0,
                stride: 1,
            },
            begun: 0,
        }
    }

    /// Returns whether all places were returned, of which so many have been so far. If the run is over and there are
    /// more places, begins the next run.
    #[inline(always)]
    fn is_through(&mut self, given: usize) -> bool
        requires { HasGiven self.old given }
        ensures over { HaveSamePlaces self.old self.new }
        ensures given { HasGiven self.new given }
        ensures through { IsTrue result → given ≡ turn_count self.old }
        ensures goes_on { result ≡ false → given < self.new.begun + self.new.run.count }
    {
        if given - self.begun < self.run.count {
            return false;
        }
        if given == self.count {
            return true;
        }
        self.run = lane_of_rank(
            self.places.first,
            self.places.lengths,
            self.places.strides,
            given,
        );
        self.begun = given;
        false
    }

    /// Returns place number `given`, counted from 0, or `None` if there are no more. The `given` places before it must
    /// have been returned by the calls before this one.
    #[inline(always)]
    pub fn next(&mut self, given: usize) -> Option<usize>
        requires { HasGiven self.old given }
        ensures place { GivesPlaceInTurn self.old given result }
        ensures over { HaveSamePlaces self.old self.new }
        ensures given { MatchOption result (HasGiven self.new given) (λ _. HasGiven self.new (given + 1)) }
    {
        if self.is_through(given) {
            return None;
        }
        Some(self.run.place_of(given - self.begun))
    }
}
