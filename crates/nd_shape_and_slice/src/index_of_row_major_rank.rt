//! Computing an index from its row-major rank.

ghost use Rattle.std.specs.Prelude.{◌≡◌, ◌<◌, length};
ghost use Rattle.nd_shape_and_slice.specs.ShapesAndIndexOrders.{size_of, index_at};

/// Writes to `index` the index with the row-major rank `rank`, which must be below the shape's size.
pub fn index_of_rank(lengths: &[usize], rank: usize, index: &mut [usize])
    requires as_long { length index.old ≡ length lengths.now }
    requires below { rank < size_of lengths.now }
    ensures { index.new ≡ index_at lengths.now rank }
{
    let mut rest = rank;
    let mut axis = lengths.len();
    while axis > 0 {
        axis -= 1;
        let len = lengths[axis];
        index[axis] = rest % len;
        rest /= len;
    }
}
