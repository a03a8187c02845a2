//! The places of a layout lane by lane. A lane is the places along the last axis, which lie a stride apart.

ghost use Rattle.std.specs.Prelude.{◌≡◌, ◌+◌, ◌-◌, ◌*◌, ◌<◌, ◌≤◌, length, slice_index, IfSome};
ghost use Rattle.nd_shape_and_slice.specs.ShapesAndIndexOrders.{size_of, HasCheckedSize};
ghost use Rattle.nd_layout.specs.ValidMemoryPlaces.{ReachesPlaces};
ghost use Rattle.nd_layout.specs.RowMajorWalk.{IsLastAxis};
ghost use Rattle.nd_layout.specs.PlacesInTurn.{turn_count, turn_place, HasGiven, BeginLanes};

use crate::walk::lane::Lane;
use crate::walk::layout_as_lanes::Places;
use crate::walk::places_in_turn::PlacesInTurn;
use nd_shape_and_slice::MAX_AXES;

/// An iterator over the lanes of a layout, in row-major order.
#[derive(Drop)]
pub struct Lanes<'a> {
    /// The place of the index whose coordinates are all 0.
    pub first: usize,
    pub lengths: &'a [usize],
    pub strides: &'a [isize],
    /// The number of places in the lanes that were returned so far.
    pub rank: usize,
    /// The places where the lanes begin.
    starts: PlacesInTurn<'a>,
    /// The number of lanes that were returned so far.
    given: usize,
    count: usize,
    stride: isize,
    ghost some: { 0 < count },
    ghost passed: { rank ≡ given * count },
    ghost stands: { HasGiven starts given },
    ghost checked: { HasCheckedSize lengths.now },
    ghost reach: { ReachesPlaces first lengths.now strides.now },
    ghost begin: { BeginLanes first lengths.now strides.now (turn_count starts) (turn_place starts) count stride },
    ghost along: { 0 < size_of lengths.now → IsLastAxis lengths.now strides.now count stride },
}

/// Returns the number of axes that the walk from lane to lane goes over: all except the last, or all if there are no
/// axes or the last has length 0.
#[inline]
#[tactic(auto, using(crate::proofs::walk_lemmas::PlacesCutIntoLanes::none_at_last))]
fn outer_axes(lengths: &[usize]) -> usize
    ensures within { result ≤ length lengths.now }
    ensures whole { result ≡ length lengths.now → 0 < size_of lengths.now → length lengths.now ≡ 0 }
    ensures last { result < length lengths.now → (length lengths.now ≡ result + 1) × (0 < slice_index lengths.now result) }
{
    let axes = lengths.len();
    if axes == 0 || lengths[axes - 1] == 0 {
        axes
    } else {
        axes - 1
    }
}

impl<'a> Lanes<'a> {
    ghost use Rattle.nd_layout.specs.NumberedPlacesAndWalks.{AreSameLanes, GivesNextLane};

    /// Returns an iterator over the lanes of a layout. Each index must have a place.
    #[inline(always)]
    pub fn new(first: usize, lengths: &'a [usize], strides: &'a [isize]) -> Self
        requires as_many { length strides.now ≡ length lengths.now }
        requires few { length lengths.now ≤ MAX_AXES }
        requires checked { HasCheckedSize lengths.now }
        requires reach { ReachesPlaces first lengths.now strides.now }
        ensures over { (result.first ≡ first) × (result.lengths.now ≡ lengths.now) × (result.strides.now ≡ strides.now) }
        ensures rank { result.rank ≡ 0 }
    {
        let outer = outer_axes(lengths);
        if outer == lengths.len() {
            return Lanes {
                first,
                lengths,
                strides,
                rank: 0,
                starts: PlacesInTurn::of_axes(first, lengths, strides),
                given: 0,
                count: 1,
                stride: 1,
            };
        }
        Lanes {
            first,
            lengths,
            strides,
            rank: 0,
            starts: PlacesInTurn::new(Places {
                first,
                lengths: &lengths[..outer],
                strides: &strides[..outer],
            }),
            given: 0,
            count: lengths[outer],
            stride: strides[outer],
        }
    }

    /// Returns the next lane, or `None` if all lanes were returned.
    #[inline(always)]
    pub fn next(&mut self) -> Option<Lane>
        ensures over { AreSameLanes self.old self.new }
        ensures lane { GivesNextLane self.old self.new result }
        ensures along { IfSome result (λ lane. IsLastAxis self.old.lengths.now self.old.strides.now lane.count lane.stride) }
    {
        match self.starts.next(self.given) {
            Some(place) => {
                self.given += 1;
                self.rank += self.count;
                Some(Lane {
                    place,
                    count: self.count,
                    stride: self.stride,
                })
            }
            None => None,
        }
    }
}
