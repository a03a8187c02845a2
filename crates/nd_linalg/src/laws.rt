//! Laws about products of matrices of `i64`, whose arithmetic wraps. Nothing here runs: each law is the contract of a
//! function.

ghost use Rattle.nd_linalg.specs.MatrixProductLaws.{KeepsMatrices, TurnsProducts};

/// States that the product of the transposes of two matrices in the opposite order is the transpose of their product.
#[tactic(auto, using(crate::proofs::MatrixProductLaws::turned_product))]
pub fn transposes_multiply()
    ensures { TurnsProducts }
{}

/// States that the product of the identity matrix and a matrix is that matrix.
#[tactic(auto, using(crate::proofs::MatrixProductLaws::identity_keeps))]
pub fn identity_keeps()
    ensures { KeepsMatrices }
{}
