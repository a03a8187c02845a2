//! Dimensions, and the types that can be made one: each call once, and its limits; the axes of a dimension, and the
//! index of a rank.

use nd_shape_and_slice::{
    Axes, Axis, AxisCount, AxisDescription, Dimension, FromDimension, InsertAxis, IntoDimension,
    IntoPattern, Ix0, Ix1, Ix2, Ix3, Ix4, Ix5, Ix6, IxDyn, MAX_AXES, NdIndex, RemoveAxis,
    StrideList, default_strides, index_of_rank,
};

/// Returns whether the two lists are equal.
fn same(list: &[usize], other: &[usize]) -> bool {
    list == other
}

/// Returns whether a shape becomes a dimension with these lengths.
fn gives<I: IntoDimension>(shape: I, lengths: &[usize]) -> bool {
    same(shape.into_dimension().slice(), lengths)
}

/// Returns whether an index of dimension `D` has these coordinates.
fn names<D, I: NdIndex<D>>(index: I, coordinates: &[usize]) -> bool {
    same(index.coordinates().slice(), coordinates)
}

#[test]
fn shapes_of_up_to_two_axes_give_dimensions(rt: HostRuntime) {
    assert!(rt;
        gives((), &[])
            && gives([0; 0], &[])
            && gives(7, &[7])
            && gives((7,), &[7])
            && gives([7], &[7])
            && gives((7, 0), &[7, 0])
            && gives([7, 0], &[7, 0])
    );
}

#[test]
fn shapes_of_three_and_four_axes_give_dimensions(rt: HostRuntime) {
    assert!(rt;
        gives((1, 2, 3), &[1, 2, 3])
            && gives([1, 2, 3], &[1, 2, 3])
            && gives((1, 2, 3, 4), &[1, 2, 3, 4])
            && gives([1, 2, 3, 4], &[1, 2, 3, 4])
    );
}

#[test]
fn shapes_of_more_axes_and_dimensions_give_dimensions(rt: HostRuntime) {
    assert!(rt;
        gives((1, 2, 3, 4, 5), &[1, 2, 3, 4, 5])
            && gives([1, 2, 3, 4, 5], &[1, 2, 3, 4, 5])
            && gives((1, 2, 3, 4, 5, 6), &[1, 2, 3, 4, 5, 6])
            && gives([1, 2, 3, 4, 5, 6], &[1, 2, 3, 4, 5, 6])
            && gives((2, 3).into_dimension(), &[2, 3])
            && gives(IxDyn::new(&[usize::MAX]), &[usize::MAX])
    );
}

#[test]
fn indexes_name_coordinates(rt: HostRuntime) {
    assert!(rt;
        names::<Ix1, _>(4, &[4])
            && names::<Ix1, _>([4], &[4])
            && names::<Ix0, _>([], &[])
            && names::<Ix2, _>([1, 2], &[1, 2])
            && names::<Ix2, _>((1, 2).into_dimension(), &[1, 2])
    );
}

#[test]
fn indexes_of_any_number_of_axes_name_coordinates(rt: HostRuntime) {
    assert!(rt;
        names::<IxDyn, _>([1, 2, 3], &[1, 2, 3])
            && names::<IxDyn, _>([usize::MAX, 0].as_slice(), &[usize::MAX, 0])
            && names::<IxDyn, _>(IxDyn::new(&[5, 6]), &[5, 6])
    );
}

#[test]
fn tuples_name_coordinates(rt: HostRuntime) {
    assert!(rt;
        names::<Ix0, _>((), &[])
            && names::<Ix1, _>((7,), &[7])
            && names::<Ix2, _>((1, usize::MAX), &[1, usize::MAX])
            && names::<Ix3, _>((1, 2, 3), &[1, 2, 3])
            && names::<Ix4, _>((4, 3, 2, 1), &[4, 3, 2, 1])
            && names::<Ix5, _>((1, 2, 3, 4, 5), &[1, 2, 3, 4, 5])
            && names::<Ix6, _>((6, 5, 4, 3, 2, 1), &[6, 5, 4, 3, 2, 1])
    );
}

// Returns whether a dimension can have these lengths.
fn has_dimension<D: Dimension>(lengths: &[usize]) -> bool {
    D::from_lengths(lengths).is_some()
}

// Returns whether two lengths are those of `pair` as a dimension of two axes, and come back through one of any number
// of axes.
fn are_two(lengths: &[usize], pair: (usize, usize)) -> bool {
    let back = match IxDyn::from_dimension(&pair.into_dimension()) {
        Some(dim) => same(dim.slice(), lengths),
        None => false,
    };
    back && Ix2::from_dimension(&IxDyn::new(&[pair.0, pair.1])) == Some(pair.into_dimension())
}

#[test]
fn numbers_of_axes(rt: HostRuntime) {
    assert!(rt;
        Ix0::NDIM == Some(0)
            && Ix6::NDIM == Some(6)
            && IxDyn::NDIM == None
            && MAX_AXES == 32
            && IxDyn::new(&[]).ndim() == 0
            && IxDyn::new(&[1; 32]).ndim() == 32
    );
}

#[test]
fn lengths_of_a_dimension(rt: HostRuntime) {
    assert!(rt;
        same(IxDyn::new(&[7; 32]).slice(), &[7; 32])
            && has_dimension::<IxDyn>(&[1; 32])
            && !has_dimension::<IxDyn>(&[1; 33])
            && has_dimension::<Ix2>(&[2, 3])
            && !has_dimension::<Ix2>(&[2])
            && !has_dimension::<Ix0>(&[1])
    );
}

#[test]
fn dimensions_of_dimensions(rt: HostRuntime) {
    assert!(rt; are_two(&[4, 5], (4, 5)) && Ix2::from_dimension(&IxDyn::new(&[4])) == None);
}

#[test]
fn lengths_are_put(rt: HostRuntime) {
    let mut fixed = (2, 3).into_dimension();
    fixed.set_length(1, 9);
    fixed.set_length(2, 8);
    assert!(rt; same(fixed.slice(), &[2, 9]));
    let mut dynamic = IxDyn::new(&[2, 3]);
    dynamic.set_length(0, 9);
    dynamic.set_length(2, 8);
    assert!(rt; same(dynamic.slice(), &[9, 3]));
}

#[test]
fn lengths_as_patterns(rt: HostRuntime) {
    assert!(rt;
        ().into_dimension().into_pattern() == ()
            && 7.into_dimension().into_pattern() == 7
            && (7, 8).into_dimension().into_pattern() == (7, 8)
            && (1, 2, 3).into_dimension().into_pattern() == (1, 2, 3)
    );
}

#[test]
fn lengths_of_more_axes_as_patterns(rt: HostRuntime) {
    assert!(rt;
        (1, 2, 3, 4).into_dimension().into_pattern() == (1, 2, 3, 4)
            && (1, 2, 3, 4, 5).into_dimension().into_pattern() == (1, 2, 3, 4, 5)
            && (1, 2, 3, 4, 5, 6).into_dimension().into_pattern() == (1, 2, 3, 4, 5, 6)
            && same(IxDyn::new(&[3, 4]).into_pattern().slice(), &[3, 4])
    );
}

#[test]
fn sizes_of_dimensions(rt: HostRuntime) {
    assert!(rt;
        ().into_dimension().size() == 1
            && (3, 2, 4).into_dimension().size() == 24
            && IxDyn::new(&[9223372036854775807]).size() == 9223372036854775807
            && IxDyn::new(&[9223372036854775807, 0]).size() == 0
    );
}

#[test]
fn strides_are_put(rt: HostRuntime) {
    let mut fixed = (2, 3).into_dimension().zero_strides();
    fixed.set(1, isize::MIN);
    fixed.set(2, 8);
    assert!(rt; StrideList::slice(&fixed) == [0, isize::MIN].as_slice());
    let mut dynamic = IxDyn::new(&[2, 3]).zero_strides();
    dynamic.set(0, isize::MAX);
    dynamic.set(2, 8);
    assert!(rt; dynamic.slice() == [isize::MAX, 0].as_slice());
}

// Returns whether a shape without one of its axes has these lengths.
fn leaves<I: IntoDimension>(shape: I, axis: usize, lengths: &[usize]) -> bool
where
    I::Dim: RemoveAxis,
{
    let dim = shape.into_dimension();
    axis < dim.ndim() && same(dim.remove_axis(Axis(axis)).slice(), lengths)
}

#[test]
fn axes_are_taken_out(rt: HostRuntime) {
    assert!(rt;
        leaves(7, 0, &[])
            && leaves((1, 2), 1, &[1])
            && leaves((1, 2, 3), 1, &[1, 3])
            && leaves((1, 2, 3, 4), 0, &[2, 3, 4])
            && leaves((1, 2, 3, 4, 5), 4, &[1, 2, 3, 4])
            && leaves((1, 2, 3, 4, 5, 6), 2, &[1, 2, 4, 5, 6])
            && leaves(IxDyn::new(&[5; 32]), 31, &[5; 31])
    );
}

#[test]
fn axes_are_put_in(rt: HostRuntime) {
    let three = (7, 8, 9).into_dimension();
    assert!(rt;
        same(().into_dimension().insert_axis(Axis(0)).slice(), &[1])
            && same(7.into_dimension().insert_axis(Axis(1)).slice(), &[7, 1])
            && same(
                (7, 8).into_dimension().insert_axis(Axis(1)).slice(),
                &[7, 1, 8]
            )
            && same(three.insert_axis(Axis(0)).slice(), &[1, 7, 8, 9])
            && Axis(3).index() == 3
    );
}

#[test]
fn axes_are_put_into_more(rt: HostRuntime) {
    let four = (5, 6, 7, 8).into_dimension();
    let five = (5, 6, 7, 8, 9).into_dimension();
    let six = (4, 5, 6, 7, 8, 9).into_dimension();
    let most = IxDyn::new(&[1; 31]).insert_axis(Axis(31));
    assert!(rt;
        same(four.insert_axis(Axis(4)).slice(), &[5, 6, 7, 8, 1])
            && same(five.insert_axis(Axis(2)).slice(), &[5, 6, 1, 7, 8, 9])
            && same(six.insert_axis(Axis(6)).slice(), &[4, 5, 6, 7, 8, 9, 1])
            && same(most.slice(), &[1; 32])
    );
}

#[test]
fn axes_one_after_another(rt: HostRuntime) {
    let dim = (3, 2).into_dimension();
    let strides = [-2, 1];
    let mut axes = Axes::new(&dim, &strides);
    let first = AxisDescription {
        axis: Axis(0),
        len: 3,
        stride: -2,
    };
    let second = AxisDescription {
        axis: Axis(1),
        len: 2,
        stride: 1,
    };
    assert!(rt; axes.next() == Some(first) && axes.next() == Some(second) && axes.next() == None);
    let most = IxDyn::new(&[1; 32]);
    assert!(rt; Axes::new(&most, &default_strides(&most)).count() == 32);
}

// Returns whether the index at the position `rank` in row-major order in the shape (2, 3, 4) is this one.
fn has_rank(rank: usize, wanted: [usize; 3]) -> bool {
    let mut index = [9, 9, 9];
    if rank >= 24 {
        return false;
    }
    index_of_rank(&[2, 3, 4], rank, &mut index);
    index == wanted
}

#[test]
fn indexes_of_ranks(rt: HostRuntime) {
    assert!(rt; has_rank(0, [0, 0, 0]) && has_rank(23, [1, 2, 3]) && has_rank(13, [1, 0, 1]));
}
