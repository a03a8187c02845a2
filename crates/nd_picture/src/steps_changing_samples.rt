//! Steps that change each sample by itself. They ask for no memory, since the clone of a number needs none.
#![tactic(auto, using(nd_array_core::proofs::AxesOfDimensionTypes::known_axes))]

ghost use Rattle.std.specs.Prelude.{◌≡◌, nat_lt, if◌then◌else◌, ◌-◌, ℕ, List};
ghost use Rattle.std.specs.Option.{option_map};
ghost use Rattle.nd_array_core.specs.ArrayMeaning.{meaning_of, shape_of, element_at};
ghost use Rattle.nd_picture.specs.PictureChanges.{ShowsAfter, picture_changed, over, picture_inverted};

use nd_array_core::Array3;

/// The greatest number that a sample's type holds.
const GREATEST: usize = 65535;

/// Returns 1 if `sample` is above `limit`, and 0 otherwise. It is computed as a quotient: a branch would often be
/// predicted wrongly, since samples come in any order.
fn is_over(limit: usize, sample: u16) -> u16
    ensures { result ≡ if nat_lt limit sample then 1 else 0 }
{
    ((sample as usize + (GREATEST - limit.min(GREATEST))) / (GREATEST + 1)) as u16
}

/// Returns the maxval if `sample` is above `limit`, and 0 otherwise.
fn over(maxval: u16, limit: usize, sample: u16) -> u16
    ensures { result ≡ over maxval limit sample }
{
    maxval * is_over(limit, sample)
}

/// Returns the array with the maxval in place of each element above `limit`, and 0 in place of every other element.
fn all_over(picture: Array3<u16>, maxval: u16, limit: usize) -> Array3<u16>
    ensures shape { shape_of result ≡ shape_of picture }
    ensures samples { (i : List ℕ) → element_at result i ≡ option_map (over maxval limit) (element_at picture i) }
{
    match picture.mapv_into(|sample| over(maxval, limit, sample)) {
        Ok(changed) => changed,
        Err(_) => unreachable!(),
    }
}

/// Returns the picture with the maxval in place of each sample above `limit`, and 0 in place of every other sample.
pub(crate) fn threshold(picture: Array3<u16>, maxval: u16, limit: usize) -> Array3<u16>
    ensures { ShowsAfter (picture_changed (over maxval limit)) (meaning_of picture) (meaning_of result) }
{
    all_over(picture, maxval, limit)
}

/// Returns the array with each element replaced by `maxval` minus the element.
fn all_left(picture: Array3<u16>, maxval: u16) -> Array3<u16>
    ensures shape { shape_of result ≡ shape_of picture }
    ensures samples { (i : List ℕ) → element_at result i ≡ option_map (λ sample. maxval - sample) (element_at picture i) }
{
    match picture.mapv_into(|sample| maxval.saturating_sub(sample)) {
        Ok(changed) => changed,
        Err(_) => unreachable!(),
    }
}

/// Returns the picture with each sample replaced by the maxval minus the sample.
pub(crate) fn invert(picture: Array3<u16>, maxval: u16) -> Array3<u16>
    ensures { ShowsAfter (picture_inverted maxval) (meaning_of picture) (meaning_of result) }
{
    all_left(picture, maxval)
}
