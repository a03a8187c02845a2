//! Elements as their bytes, for a caller that doesn't know their kind: `[u8; N]` has the bytes as they lie in the file.

ghost use Rattle.std.specs.Prelude.{◌≡◌, ◌==◌, length, All, refl};
ghost use Rattle.nd_npy_text.specs.ItemTypes.{kind_size};
ghost use Rattle.std.proofs.Common.{eqb-true};

use crate::item::NpyItem;
use nd_npy_text::{ByteOrder, Kind};
use std::alloc::AllocError;

/// Returns `bytes`, of which there must be `N`, as an item.
pub(crate) fn item_of<const N: usize>(bytes: &[u8]) -> [u8; N]
    requires { length bytes.now ≡ N }
    ensures { result ≡ bytes.now }
{
    let mut item = [0u8; N];
    item.copy_from_slice(bytes);
    item
}

/// An item has `N` bytes.
fn has_its_size<const N: usize>(_item: [u8; N])
    ensures { length _item.entry ≡ N }
{}

/// Each item has `N` bytes. The checker learns this where an item is read; the compiler leaves out the loop, which does
/// nothing.
fn have_their_size<const N: usize>(items: &[[u8; N]])
    ensures { All (λ item. length item ≡ N) items.now }
{
    for item in items {
        has_its_size(*item);
    }
}

impl<const N: usize> NpyItem for [u8; N] {
    ghost accepts = { λ kind. kind_size kind == N };

    ghost size = { N };

    ghost value_of = { λ order bytes. bytes };

    ghost bytes_of = { λ order x. x };

    ghost fits = { λ x. length x ≡ N };

    fn accepts(kind: Kind) -> bool {
        kind.size() == N
    }

    fn from_bytes(_order: ByteOrder, bytes: &[u8]) -> [u8; N] {
        item_of(bytes)
    }

    fn append_to(self, _order: ByteOrder, bytes: &mut Vec<u8>) -> Result<(), AllocError> {
        bytes.extend_from_slice(self.as_slice())
    }

    fn append_all_to(
        items: &[[u8; N]],
        _order: ByteOrder,
        bytes: &mut Vec<u8>,
    ) -> Result<(), AllocError> {
        have_their_size(items);
        bytes.extend_from_slice(items.as_flattened())
    }

    ghost sizes = { λ kind is. eqb-true _ _ is };

    ghost whole = { λ order x fits. fits };

    ghost reads_back = { λ order x fits. refl };
}
