//! Reading and writing entries of short arrays. Each entry is found by going over all positions: if the compiler knows
//! the length, an array that is read and written only at constant positions stays in registers.

ghost use Rattle.std.specs.Prelude.{◌≡◌, ◌<◌, slice_index_or, slice_set};

/// Returns the entry of `list` at position `at`.
#[inline]
pub(crate) fn entry_at<A: Copy, const N: usize>(list: &[A; N], at: usize) -> A
    requires { at < N }
    ensures { (d : A) → result ≡ slice_index_or list.now at d }
{
    let mut entry = list[0];
    for k in 0..N {
        if k == at {
            entry = list[k];
        }
    }
    entry
}

/// Writes `value` at position `at` of `list`, or does nothing if there is no such position.
#[inline]
pub(crate) fn set_entry<A: Copy, const N: usize>(list: &mut [A; N], at: usize, value: A)
    ensures { list.new ≡ slice_set list.old at value }
{
    for k in 0..N {
        if k == at {
            list[k] = value;
        }
    }
}
