//! What a head says.

ghost use Rattle.std.specs.Prelude.{◌≡◌, ◌≤◌};
ghost use Rattle.nd_npy_text.specs.HeaderDescription.{is_wide, text_start};

use crate::item_type::ItemType;

/// What the head of a file says about the elements.
#[derive(Drop)]
pub struct Header {
    /// The type of the elements.
    pub item_type: ItemType,
    /// Whether the first axis runs fastest, as in Fortran, and not the last.
    pub fortran_order: bool,
    /// How many elements there are along each axis.
    pub shape: Vec<usize>,
}

/// A version of the format.
#[derive(Clone, Copy, Debug, PartialEq, Eq)]
pub enum Version {
    /// Version 1.0, where the length of the dict takes two bytes.
    One,
    /// Version 2.0, where the length of the dict takes four bytes.
    Two,
    /// Version 3.0, where the length of the dict takes four bytes and names of fields may be in UTF-8.
    Three,
}

impl Version {
    /// Returns whether the length of the dict takes four bytes, and not two.
    pub(crate) fn is_wide(self) -> bool
        ensures { result ≡ is_wide self }
    {
        match self {
            Version::One => false,
            Version::Two => true,
            Version::Three => true,
        }
    }

    /// Returns at which byte the dict begins.
    pub(crate) fn text_start(self) -> usize
        ensures value { result ≡ text_start self }
        ensures low { result ≤ 12 }
    {
        if self.is_wide() { 12 } else { 10 }
    }
}
