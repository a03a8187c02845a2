//! A walk over the indexes of a shape in row-major order. It computes each place from the place before, and none from
//! an index.

ghost use Rattle.std.specs.Prelude.{◌≡◌, ◌+◌, ◌<◌, ◌≤◌, ◌+ℤ◌, ◌-ℤ◌, ◌*ℤ◌, min, pos, length, IsTrue};
ghost use Rattle.nd_shape_and_slice.specs.ShapesAndIndexOrders.{in_box, size_of, index_at, HasCheckedSize};
ghost use Rattle.nd_layout.specs.ValidMemoryPlaces.{is_usize, ReachesUsizes};
ghost use Rattle.nd_layout.specs.RowMajorWalk.{StandsAt, IsPlaceAtRank, IsOnItsWay, RanksNext, MovesToNext, KeepsWay, front_of};

use crate::reshape::standard_layouts_and_runs::count_of;
use nd_shape_and_slice::{MAX_AXES, is_empty_shape};
use std::snapshot::Snapshot;

/// Returns the place that lies `stride` after `place`.
#[inline]
fn moved_on(place: usize, stride: isize) -> usize
    requires { IsTrue (is_usize (pos place +ℤ stride)) }
    ensures { pos result ≡ pos place +ℤ stride }
{
    if stride < 0 {
        place - stride.unsigned_abs()
    } else {
        place + stride as usize
    }
}

/// Returns the place that lies `steps` times `stride` before `place`.
#[inline]
fn moved_back(place: usize, steps: usize, stride: isize) -> usize
    requires { IsTrue (is_usize (pos place -ℤ (pos steps *ℤ stride))) }
    ensures { pos result ≡ pos place -ℤ (pos steps *ℤ stride) }
{
    let way = steps * stride.unsigned_abs();
    if stride < 0 { place + way } else { place - way }
}

/// Returns the number of indexes of a shape.
pub(crate) fn size(lengths: &[usize]) -> usize
    requires { HasCheckedSize lengths.now }
    ensures { result ≡ size_of lengths.now }
{
    if is_empty_shape(lengths) {
        0
    } else {
        count_of(lengths)
    }
}

/// Changes `index`, which lies at `place`, to the next index in row-major order, and returns the place of that. The
/// last axis advances by one stride. An axis that is at its end returns to coordinate 0, which subtracts one stride for
/// each of its coordinates, and the axis before it advances. After the last index comes the first one.
fn advanced(lengths: &[usize], strides: &[isize], index: &mut [usize], place: usize) -> usize
    requires as_many { length strides.now ≡ length lengths.now }
    requires checked { HasCheckedSize lengths.now }
    requires inside { IsTrue (in_box lengths.now index.old) }
    requires way { IsOnItsWay lengths.now strides.now index.old place }
    ensures inside { IsTrue (in_box lengths.now index.new) }
    ensures rank { RanksNext lengths.now index.old index.new }
    ensures moves { MovesToNext lengths.now strides.now index.old place result }
    ensures lies { KeepsWay strides.now index.old place index.new result }
{
    let mut place = place;
    let mut axis = lengths.len();
    while axis > 0 {
        axis -= 1;
        let coordinate = index[axis];
        if coordinate + 1 < lengths[axis] {
            index[axis] = coordinate + 1;
            return moved_on(place, strides[axis]);
        }
        index[axis] = 0;
        place = moved_back(place, coordinate, strides[axis]);
    }
    place
}

/// Changes the index at the front of the array `index`, which lies at `place`, to the next index in row-major order,
/// and returns the place of that. After the last index comes the first one.
fn advanced_front(
    lengths: &[usize],
    strides: &[isize],
    index: &mut [usize; MAX_AXES],
    place: usize,
) -> usize
    requires as_many { length strides.now ≡ length lengths.now }
    requires few { length lengths.now ≤ MAX_AXES }
    requires checked { HasCheckedSize lengths.now }
    requires inside { IsTrue (in_box lengths.now (front_of lengths.now index.old)) }
    requires way { IsOnItsWay lengths.now strides.now (front_of lengths.now index.old) place }
    ensures inside { IsTrue (in_box lengths.now (front_of lengths.now index.new)) }
    ensures rank { RanksNext lengths.now (front_of lengths.now index.old) (front_of lengths.now index.new) }
    ensures moves { MovesToNext lengths.now strides.now (front_of lengths.now index.old) place result }
    ensures lies { KeepsWay strides.now (front_of lengths.now index.old) place (front_of lengths.now index.new) result }
{
    let axes = lengths.len();
    advanced(lengths, strides, &mut index[..axes], place)
}

/// A walk over the places of a layout, in row-major order of their indexes. It stands at an index, and holds its
/// coordinates and its place. It holds no element, no pointer and no allocated memory. The field `first` is there only
/// for contracts: no code can compute a place from it and an index.
#[derive(Drop)]
pub struct Walk<'a> {
    /// The place of the index whose coordinates are all 0.
    pub first: Snapshot<usize>,
    pub lengths: &'a [usize],
    pub strides: &'a [isize],
    /// The number of places that the walk has passed.
    pub rank: usize,
    /// The place at which the walk stands, if it hasn't passed all places.
    pub place: usize,
    size: usize,
    index: [usize; MAX_AXES],
    ghost as_many: { length strides.now ≡ length lengths.now },
    ghost few: { length lengths.now ≤ 32 },
    ghost checked: { HasCheckedSize lengths.now },
    ghost reach: { ReachesUsizes first.value lengths.now strides.now },
    ghost counted: { size ≡ size_of lengths.now },
    ghost within: { rank ≤ size_of lengths.now },
    ghost stands: { rank < size_of lengths.now → StandsAt first.value lengths.now strides.now rank place index },
}

impl<'a> Walk<'a> {
    ghost use Rattle.nd_layout.specs.NumberedPlacesAndWalks.{IsSameWalk, MovesOn};

    /// Returns a walk that stands at the first index, if there is one. The place of each index must be a `usize`.
    pub fn new(first: usize, lengths: &'a [usize], strides: &'a [isize]) -> Self
        requires as_many { length strides.now ≡ length lengths.now }
        requires few { length lengths.now ≤ MAX_AXES }
        requires checked { HasCheckedSize lengths.now }
        requires reach { ReachesUsizes first lengths.now strides.now }
        ensures over { (result.first.value ≡ first) × (result.lengths.now ≡ lengths.now) × (result.strides.now ≡ strides.now) }
        ensures rank { result.rank ≡ 0 }
    {
        Walk {
            first: Snapshot::of(&first),
            lengths,
            strides,
            rank: 0,
            place: first,
            size: size(lengths),
            index: [0; MAX_AXES],
        }
    }

    /// Returns the place of the index at which the walk stands, or `None` if it has passed all indexes.
    #[inline]
    #[tactic(auto, using(crate::proofs::walk_lemmas::NextIndexOfWalk::stands_there))]
    pub fn place(&self) -> Option<usize>
        ensures { IsPlaceAtRank self.now.first.value self.now.lengths.now self.now.strides.now self.now.rank result }
    {
        if self.rank < self.size {
            Some(self.place)
        } else {
            None
        }
    }

    /// Returns the index at which the walk stands. The result has no meaning if the walk has passed all indexes.
    #[inline]
    #[tactic(auto, using(crate::proofs::walk_lemmas::NextIndexOfWalk::index_there))]
    pub fn index(&self) -> &[usize]
        ensures { self.now.rank < size_of self.now.lengths.now → result.now ≡ index_at self.now.lengths.now self.now.rank }
    {
        &self.index[..self.lengths.len()]
    }

    /// Moves on to the next index. The place advances by the stride of the axis that advances; the axes after it return
    /// to coordinate 0, which takes back what they had added. Does nothing once all indexes are passed.
    #[inline]
    pub fn advance(&mut self)
        ensures over { IsSameWalk self.old self.new }
        ensures rank { self.new.rank ≡ min (self.old.rank + 1) (size_of self.old.lengths.now) }
        ensures moves { self.old.rank + 1 < size_of self.old.lengths.now → MovesOn self.old self.new }
    {
        if self.size - self.rank > 1 {
            self.place = advanced_front(self.lengths, self.strides, &mut self.index, self.place);
            self.rank += 1;
        } else {
            self.rank = self.size;
        }
    }
}
