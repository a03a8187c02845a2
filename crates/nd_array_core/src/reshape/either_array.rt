//! A type for a view of an array or an array that owns its elements.
#![tactic(auto, unfolding(crate::specs::ArrayMeaning::meaning_of, crate::specs::ArrayMeaning::memory_layout_of))]

ghost use Rattle.std.specs.Prelude.{◌↔◌, ◌≡◌, IsTrue, false};

use crate::base::array::{ArrayBase, ArrayView};
use nd_elements::storage::{Data, OwnedRepr, ViewRepr};
use nd_shape_and_slice::Dimension;

/// A view, or an array that owns its elements. Users write `ViewOrOwned`.
#[derive(Drop)]
pub enum EitherArray<A, V: Data<Elem = A>, S: Data<Elem = A>, D: Dimension> {
    /// A view of another array.
    View(ArrayBase<V, D>),
    /// An array that owns its elements.
    Owned(ArrayBase<S, D>),
}

/// The result of a reshape of a borrowed array: a view of it, or a copy in the order asked for. It stands for ndarray's
/// `CowArray`.
pub type ViewOrOwned<'a, A, D> = EitherArray<A, ViewRepr<'a, A>, OwnedRepr<A>, D>;

impl<A, V: Data<Elem = A>, S: Data<Elem = A>, D: Dimension> EitherArray<A, V, S, D> {
    ghost use Rattle.nd_array_core.specs.reshape.EitherArray.{is_view_in, meaning_in, ShowsEither};
    ghost use Rattle.nd_array_core.specs.ArrayMeaning.{meaning_of};

    /// Returns whether this is a view, so that nothing was copied. This is ndarray's `CowArray::is_view`.
    pub fn is_view(&self) -> bool
        ensures { result ≡ is_view_in self.now }
    {
        match self {
            EitherArray::View(_) => true,
            EitherArray::Owned(_) => false,
        }
    }

    /// Returns whether this array owns its elements. This is ndarray's `CowArray::is_owned`.
    pub fn is_owned(&self) -> bool
        ensures { result ≡ false ↔ IsTrue (is_view_in self.now) }
    {
        !self.is_view()
    }

    /// Returns a read-only view of the elements, with the same strides. This is ndarray's `CowArray::view`.
    #[tactic(auto, using(crate::proofs::law_lemmas::ViewOrOwnedArrays::whole_shown))]
    pub fn view(&self) -> ArrayView<'_, A, D>
        ensures whole { ShowsEither self.now result }
        ensures shown { meaning_of result ≡ meaning_in self.now }
    {
        match self {
            EitherArray::View(view) => view.view(),
            EitherArray::Owned(array) => array.view(),
        }
    }
}
