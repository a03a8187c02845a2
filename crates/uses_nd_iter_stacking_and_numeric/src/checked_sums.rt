//! Counts that must not wrap on overflow.

ghost use Rattle.std.specs.Prelude.{ℕ, pos};
ghost use Rattle.nd_numeric.specs.ExactSums.{exact_sum_of};
ghost use Rattle.uses_nd_iter_stacking_and_numeric.specs.ElementwiseFloatArithmetic.{IsWhereItFits};

use nd_array_core::prelude::*;
use nd_numeric::checked_sum;

/// Returns the sum of all votes, or `None` if it doesn't fit 32 bits.
pub fn votes_cast<S: Data<Elem = u32>, D: Dimension>(votes: &ArrayBase<S, D>) -> Option<u32>
    ensures { IsWhereItFits 32 (exact_sum_of pos votes.now) result }
{
    checked_sum(votes)
}
