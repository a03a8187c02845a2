//! Computing places from an offset, strides and an index.

ghost use Rattle.std.specs.Prelude.{◌↔◌, ◌≡◌, ◌<◌, ◌^◌, ℕ, false, IsTrue, List, length, pos, ◌+ℤ◌, ◌*ℤ◌};
ghost use Rattle.nd_shape_and_slice.specs.ShapesAndIndexOrders.{in_box, HasCheckedSize};
ghost use Rattle.nd_shape_and_slice.specs.PlacesAndOverlaps.{place_of};
ghost use Rattle.nd_layout.specs.ValidMemoryPlaces.{is_place, ReachesPlaces};

/// Returns whether `index` has one coordinate for each axis, each below the axis's length.
pub(crate) fn is_in_box(lengths: &[usize], index: &[usize]) -> bool
    ensures { IsTrue result ↔ IsTrue (in_box lengths.now index.now) }
{
    if lengths.len() != index.len() {
        return false;
    }
    for axis in 0..index.len() {
        if index[axis] >= lengths[axis] {
            return false;
        }
    }
    true
}

/// Returns the place that lies `steps` times `stride` after `place`.
pub(crate) fn moved_by(place: usize, steps: usize, stride: isize) -> usize
    requires from { place < 2 ^ 63 }
    requires few { steps < 2 ^ 63 }
    requires to { IsTrue (is_place (pos place +ℤ (pos steps *ℤ stride))) }
    ensures { pos result ≡ pos place +ℤ (pos steps *ℤ stride) }
{
    (place as isize + steps as isize * stride) as usize
}

/// Returns the place that lies `steps` times `stride` after `place`, or `place` itself if `stays` is true.
#[inline]
pub(crate) fn moved_unless(stays: bool, place: usize, steps: usize, stride: isize) -> usize
    requires from { stays ≡ false → place < 2 ^ 63 }
    requires few { stays ≡ false → steps < 2 ^ 63 }
    requires to { stays ≡ false → IsTrue (is_place (pos place +ℤ (pos steps *ℤ stride))) }
    ensures moved { stays ≡ false → pos result ≡ pos place +ℤ (pos steps *ℤ stride) }
    ensures kept { IsTrue stays → result ≡ place }
{
    if stays {
        place
    } else {
        moved_by(place, steps, stride)
    }
}

/// Returns the place of `index`, which must be an index of the shape.
pub(crate) fn place_at(
    offset: usize,
    lengths: &[usize],
    strides: &[isize],
    index: &[usize],
) -> usize
    requires as_many { length strides.now ≡ length lengths.now }
    requires checked { HasCheckedSize lengths.now }
    requires reach { ReachesPlaces offset lengths.now strides.now }
    requires inside { IsTrue (in_box lengths.now index.now) }
    ensures { pos result ≡ place_of offset strides.now index.now }
{
    let mut place = offset;
    for axis in 0..index.len() {
        place = moved_by(place, index[axis], strides[axis]);
    }
    place
}
