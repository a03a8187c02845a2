//! The types of elements that a file can hold.

ghost use Rattle.std.specs.Prelude.{◌≡◌, ◌++◌, ℕ, All, Bool, List, length, IsTrue, OnOk};
ghost use Rattle.std.specs.List.{flat_map};
ghost use Rattle.nd_npy_text.specs.ItemTypes.{kind_size};
ghost use Rattle.nd_npy_text.specs.declared.item_type.Kind.{Kind};
ghost use Rattle.nd_npy_text.specs.declared.item_type.ByteOrder.{ByteOrder};

use nd_npy_text::{ByteOrder, Kind};
use std::alloc::AllocError;

/// A type of elements that stand in a file as a number of bytes each, in one of two byte orders.
pub trait NpyItem: Copy {
    ghost accepts: { Kind → Bool };

    ghost size: { ℕ };

    ghost value_of: { ByteOrder → List ℕ → Self };

    ghost bytes_of: { ByteOrder → Self → List ℕ };

    ghost fits: { Self → Type 0 };

    /// Returns whether elements of this kind are read as this type.
    fn accepts(kind: Kind) -> bool
        ensures { result ≡ accepts kind };

    /// Returns the element whose bytes in this order are `bytes`.
    fn from_bytes(order: ByteOrder, bytes: &[u8]) -> Self
        requires { length bytes.now ≡ size }
        ensures { result ≡ value_of order bytes.now };

    /// Appends the bytes of the element in this order to `bytes`.
    ///
    /// # Errors
    ///
    /// Fails with `AllocError` if memory for the bytes is refused.
    fn append_to(self, order: ByteOrder, bytes: &mut Vec<u8>) -> Result<(), AllocError>
        ensures written { OnOk result (bytes.new.items ≡ bytes.old.items ++ bytes_of order self) }
        ensures fits { fits self };

    /// Appends the bytes of the elements in this order, one after another, to `bytes`.
    ///
    /// # Errors
    ///
    /// Fails with `AllocError` if memory for the bytes is refused.
    fn append_all_to(
        items: &[Self],
        order: ByteOrder,
        bytes: &mut Vec<u8>,
    ) -> Result<(), AllocError>
        ensures written { OnOk result (bytes.new.items ≡ bytes.old.items ++ flat_map (bytes_of order) items.now) }
        ensures fits { OnOk result (All fits items.now) }
    {
        for item in items {
            item.append_to(order, bytes)?;
        }
        Ok(())
    }

    ghost sizes: { (kind : Kind) → IsTrue (accepts kind) → kind_size kind ≡ size };

    ghost whole: { (order : ByteOrder) (x : Self) → fits x → length (bytes_of order x) ≡ size };

    ghost reads_back: { (order : ByteOrder) (x : Self) → fits x → value_of order (bytes_of order x) ≡ x };
}

/// A type of elements that is written as one kind of number.
pub trait NpyNumber: NpyItem {
    ghost kind: { Kind };

    /// Returns the kind of number that an element is.
    fn kind() -> Kind
        ensures { result ≡ kind };

    ghost accepted: { IsTrue (Self.accepts kind) };
}
