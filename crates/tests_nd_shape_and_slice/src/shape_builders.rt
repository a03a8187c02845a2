//! Shapes with an order or with strides, and the strides that they have.

use nd_shape_and_slice::{
    Dimension, IntoDimension, IntoStrideShape, IxDyn, Order, ShapeArg, ShapeBuilder, StrideList,
    default_strides, fortran_strides, size_of_shape_checked,
};

/// Returns whether the dimension has these lengths.
fn has_lengths<D: Dimension>(dim: &D, lengths: &[usize]) -> bool {
    dim.slice() == lengths
}

/// Returns whether a shape has these lengths and this order, and has given strides or not.
fn is_shape<B: IntoStrideShape>(
    shape: B,
    lengths: &[usize],
    order: Order,
    strides: Option<&[isize]>,
) -> bool {
    let shape = shape.into_stride_shape();
    let custom = shape.custom_strides();
    let same = match (custom, strides) {
        (Some(list), Some(other)) => list.slice() == other,
        (None, None) => true,
        _ => false,
    };
    has_lengths(shape.raw_dim(), lengths) && shape.order() == order && same
}

#[test]
fn shapes_with_orders(rt: HostRuntime) {
    let shape = (2, 3).into_shape_with_order();
    let again = (2, 3).f().into_shape_with_order();
    assert!(rt;
        is_shape((2, 3), &[2, 3], Order::RowMajor, None)
            && is_shape((2, 3).f(), &[2, 3], Order::ColumnMajor, None)
            && is_shape((2, 3).set_f(false), &[2, 3], Order::RowMajor, None)
            && is_shape([4].f().set_f(false), &[4], Order::RowMajor, None)
            && is_shape([4].set_f(false).f(), &[4], Order::ColumnMajor, None)
            && has_lengths(shape.raw_dim(), &[2, 3])
            && shape.order() == Order::RowMajor
            && again.order() == Order::ColumnMajor
    );
}

#[test]
fn shapes_with_strides(rt: HostRuntime) {
    let ends = [isize::MIN, isize::MAX];
    assert!(rt;
        is_shape((1, 2).strides(&ends), &[1, 2], Order::RowMajor, Some(&ends))
            && is_shape(
                IxDyn::new(&[1, 2]).f().strides(&ends),
                &[1, 2],
                Order::ColumnMajor,
                Some(&ends)
            )
            && is_shape(().strides(&[]), &[], Order::RowMajor, Some(&[]))
    );
}

#[test]
fn sizes_of_shapes(rt: HostRuntime) {
    assert!(rt; (2, 3).f().size() == 6 && (2, 3).strides(&[1, 1]).size() == 6);
}

// Returns whether the argument of a reshape has these lengths and this order.
fn asks<E: ShapeArg>(shape: E, lengths: &[usize], wanted: Order) -> bool {
    let (dim, order) = shape.into_shape_and_order();
    has_lengths(&dim, lengths) && order == wanted
}

#[test]
fn shapes_to_reshape_to(rt: HostRuntime) {
    assert!(rt;
        asks((2, 3), &[2, 3], Order::RowMajor)
            && asks((6, Order::ColumnMajor), &[6], Order::ColumnMajor)
            && asks(([2, 3], Order::RowMajor), &[2, 3], Order::RowMajor)
    );
}

// Returns whether the size of a shape doesn't overflow, and whether its strides in row-major and in column-major order
// are these.
fn has_strides<I: IntoDimension>(shape: I, rows: &[isize], columns: &[isize]) -> bool {
    let dim = shape.into_dimension();
    size_of_shape_checked(dim.slice()).is_ok()
        && default_strides(&dim).slice() == rows
        && fortran_strides(&dim).slice() == columns
}

#[test]
fn strides_of_shapes(rt: HostRuntime) {
    assert!(rt;
        has_strides((3, 2, 4), &[8, 4, 1], &[1, 3, 6])
            && has_strides(IxDyn::new(&[3, 0, 4]), &[0, 0, 0], &[0, 0, 0])
            && has_strides((9223372036854775807, 1), &[1, 1], &[1, isize::MAX])
    );
}
