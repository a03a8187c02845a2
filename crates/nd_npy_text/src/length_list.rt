//! A list of lengths that needs no allocation.

ghost use Rattle.std.specs.Prelude.{◌≤◌};

/// The largest number of axes that a shape can have.
pub(crate) const MAX_AXES: usize = 32;

/// The lengths of a shape, at most 32. They lie in the value itself, so that memory is asked for only after all of a
/// head is read.
#[derive(Clone, Copy)]
pub(crate) struct Lengths {
    pub(crate) lengths: [usize; MAX_AXES],
    pub(crate) count: usize,
    ghost few: { count ≤ 32 },
}
