//! Vectors of equal values.

ghost use Rattle.std.specs.Prelude.{◌≡◌, ◌<◌, replicate, IfOk, OnErr, vec_len};
ghost use Rattle.std.specs.List.{All};
ghost use Rattle.nd_elements.specs.EqualClones.{ClonesAreEqual};

use nd_shape_and_slice::{Dimension, NoMemory};
use std::alloc::Global;

/// Returns a new vector with `count` clones of `elem`.
pub fn repeated<A: Clone>(alloc: Global, elem: A, count: usize) -> Result<Vec<A>, NoMemory>
    requires { ClonesAreEqual A.is_clone elem }
    ensures items { IfOk result (λ v. v.items ≡ replicate count elem) }
    ensures count { IfOk result (λ v. vec_len v ≡ count) }
    ensures refused { OnErr result (0 < count) }
{
    match Vec::from_elem(alloc, elem, count) {
        Ok(items) => Ok(items),
        Err(_) if count == 0 => Ok(Vec::new(alloc)),
        Err(_) => Err(NoMemory),
    }
}

/// Returns a new vector with `count` default values.
pub fn defaults<A: Default>(alloc: Global, count: usize) -> Result<Vec<A>, NoMemory>
    ensures items { IfOk result (λ v. All A.is_default v.items) }
    ensures count { IfOk result (λ v. vec_len v ≡ count) }
    ensures refused { OnErr result (0 < count) }
{
    let mut items = Vec::with_capacity(alloc, count)?;
    for _ in 0..count {
        items.push_reserved(A::default());
    }
    Ok(items)
}
