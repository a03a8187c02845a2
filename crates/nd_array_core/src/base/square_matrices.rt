//! New square matrices: identities, and diagonals with zeros around them.
#![tactic(auto)]

ghost use Rattle.std.specs.Prelude.{◌≡◌, ◌<◌, [], ◌∷◌, IfOk, IsTrue, OnErr, Some, slice_index};
ghost use Rattle.nd_shape_and_slice.specs.ShapesAndIndexOrders.{HasCheckedSize, in_box};
ghost use Rattle.nd_array_core.specs.ArrayMeaning.{shape_of, element_at};
ghost use Rattle.nd_array_core.specs.ElementsByCoordinates.{element_of_1};
ghost use Rattle.nd_elements.specs.EqualClones.{ClonesAreEqual, ClonesOfAllAreEqual};
ghost use Rattle.nd_array_core.specs.base.NewArrays.{ShowsOnDiagonal};
ghost use Rattle.nd_array_core.specs.base.FromIteratorsAndClosures.{OwnsSquare};
ghost use Rattle.nd_array_core.specs.base.ArrayWrites.{IsWrittenAt};

use crate::base::array::{Array, ArrayBase};
use nd_elements::storage::{Data, DataMut};
use nd_shape_and_slice::{Ix1, Ix2, NoMemory};
use num_traits::{One, Zero};
use std::alloc::Global;

/// Returns a clone of `elem`, which must equal `elem`. Fails with `NoMemory` if the clone is refused.
fn cloned<A: Clone>(elem: &A) -> Result<A, NoMemory>
    requires { ClonesAreEqual A.is_clone elem.now }
    ensures { IfOk result (λ copy. copy ≡ elem.now) }
{
    let copy = elem.clone()?;
    Ok(copy)
}

/// Writes `value` at row `k` and column `k` of `matrix`.
fn put_on_diagonal<S: DataMut>(matrix: &mut ArrayBase<S, Ix2>, k: usize, value: S::Elem)
where
    S::Elem: Drop,
    requires { IsTrue (in_box (shape_of matrix.old) (k ∷ k ∷ [])) }
    ensures { IsWrittenAt S.frame matrix.old (k ∷ k ∷ []) value matrix.new }
{
    matrix.replace([k, k], value);
}

impl<A: Clone + Zero> Array<A, Ix2> {
    /// Returns the identity matrix of n rows and n columns: one at (i, i), zero elsewhere. (n, n) must have a checked
    /// size, and a clone must equal its original. Fails with `NoMemory` if the storage or a clone is refused. This is
    /// ndarray's `eye`.
    pub fn eye(alloc: Global, n: usize) -> Result<Self, NoMemory>
    where
        A: One,
        requires checked { HasCheckedSize (n ∷ n ∷ []) }
        requires zeros { ClonesAreEqual A.is_clone A.zero }
        ensures owns { IfOk result (OwnsSquare n) }
        ensures elements { IfOk result (ShowsOnDiagonal n (λ k. Some A.one) A.zero) }
        ensures refused { OnErr result (0 < n) }
    {
        let mut eye = Array::zeros(alloc, (n, n))?;
        for k in 0..n {
            put_on_diagonal(&mut eye, k, A::one());
        }
        Ok(eye)
    }

    /// Returns a square matrix with the elements of an array on the diagonal and zero elsewhere. (n, n) must have a
    /// checked size for the array's n elements, and a clone must equal its original. Fails with `NoMemory` if the
    /// storage or a clone is refused. This is ndarray's `from_diag`.
    pub fn from_diag<S: Data<Elem = A>>(
        alloc: Global,
        diag: &ArrayBase<S, Ix1>,
    ) -> Result<Self, NoMemory>
        requires checked { HasCheckedSize (slice_index (shape_of diag.now) 0 ∷ slice_index (shape_of diag.now) 0 ∷ []) }
        requires zeros { ClonesAreEqual A.is_clone A.zero }
        requires clones { ClonesOfAllAreEqual A.is_clone (element_at diag.now) }
        ensures owns { IfOk result (OwnsSquare (slice_index (shape_of diag.now) 0)) }
        ensures elements { IfOk result (ShowsOnDiagonal (slice_index (shape_of diag.now) 0) (element_of_1 diag.now) A.zero) }
        ensures refused { OnErr result (0 < slice_index (shape_of diag.now) 0) }
    {
        let n = diag.dim();
        let mut matrix = Array::zeros(alloc, (n, n))?;
        for k in 0..n {
            put_on_diagonal(&mut matrix, k, cloned(diag.uget(k))?);
        }
        Ok(matrix)
    }

    /// Returns a matrix of n rows and n columns with one value on the diagonal and zero elsewhere. (n, n) must have a
    /// checked size, and a clone must equal its original. Fails with `NoMemory` if the storage or a clone is refused.
    /// This is ndarray's `from_diag_elem`.
    pub fn from_diag_elem(alloc: Global, n: usize, elem: A) -> Result<Self, NoMemory>
        requires checked { HasCheckedSize (n ∷ n ∷ []) }
        requires zeros { ClonesAreEqual A.is_clone A.zero }
        requires clones { ClonesAreEqual A.is_clone elem }
        ensures owns { IfOk result (OwnsSquare n) }
        ensures elements { IfOk result (ShowsOnDiagonal n (λ k. Some elem) A.zero) }
        ensures refused { OnErr result (0 < n) }
    {
        let mut matrix = Array::zeros(alloc, (n, n))?;
        for k in 0..n {
            put_on_diagonal(&mut matrix, k, cloned(&elem)?);
        }
        Ok(matrix)
    }
}
