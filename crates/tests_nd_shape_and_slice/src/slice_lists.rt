//! Lists of slices: which items read an axis and keep one, and which shapes a list fits.

use crate::slices::{LONGEST, part_from};
use nd_shape_and_slice::{
    ErrorKind, Ix0, Ix1, Ix2, IxDyn, SliceArg, SliceInfo, SliceInfoElem, axes_kept, axes_read,
    slices_fit,
};

// Returns whether each item reads an axis or not, and keeps one or not, as its row says.
fn read_and_keep(list: &[SliceInfoElem], rows: &[(bool, bool)]) -> bool {
    for (element, (reads, keeps)) in list.iter().zip(rows) {
        if element.reads_axis() != *reads || element.keeps_axis() != *keeps {
            return false;
        }
    }
    list.len() == rows.len()
}

#[test]
fn elements_read_and_keep_axes(rt: HostRuntime) {
    let list = [
        part_from(0, 1),
        SliceInfoElem::Index(-1),
        SliceInfoElem::NewAxis,
        SliceInfoElem::Index(2),
    ];
    const ROWS: [(bool, bool); 4] = [(true, true), (true, false), (false, true), (true, false)];
    assert!(rt; read_and_keep(&list, &ROWS) && axes_read(&list) == 3 && axes_kept(&list) == 2);
}

// Returns whether a list fits each shape or not, as its row says.
fn fits_where(list: &[SliceInfoElem], rows: &[(&[usize], bool)]) -> bool {
    for (shape, fits) in rows {
        if slices_fit(*shape, list) != *fits || list.fits(*shape) != *fits {
            return false;
        }
    }
    true
}

#[test]
fn lists_fit_shapes(rt: HostRuntime) {
    let list = [
        part_from(1, 1),
        SliceInfoElem::Index(-1),
        SliceInfoElem::NewAxis,
        part_from(-3, 1),
    ];
    const ROWS: [(&[usize], bool); 6] = [
        (&[6, 4, 5], true),
        (&[1, 1, 3], true),
        (&[0, 4, 5], false),
        (&[6, 0, 5], false),
        (&[6, 4, 2], false),
        (&[6, 4], false),
    ];
    assert!(rt;
        fits_where(&list, &ROWS)
            && !slices_fit(&[6, 4, 5, 1], &list)
            && list.as_slice().elements().len() == 4
    );
}

// Returns whether the first 32 items of a list of 33 fit a shape without axes, and all 33 don't.
fn is_one_too_long(list: &[SliceInfoElem; 33]) -> bool {
    slices_fit(&[], &list[..32]) && !slices_fit(&[], list)
}

// Returns whether a list can be one from any number of axes to any number of axes.
fn are_dynamic(list: &[SliceInfoElem]) -> bool {
    SliceInfo::<IxDyn, IxDyn>::new(list).is_ok()
}

// Returns whether a list can be one from any number of axes to none.
fn leave_none(list: &[SliceInfoElem]) -> bool {
    SliceInfo::<IxDyn, Ix0>::new(list).is_ok()
}

#[test]
fn lists_leave_32_axes_at_most(rt: HostRuntime) {
    let mut list = [SliceInfoElem::NewAxis; 33];
    assert!(rt; is_one_too_long(&list) && are_dynamic(&list[..32]) && !are_dynamic(&list));
    list[32] = SliceInfoElem::Index(isize::MIN);
    assert!(rt; slices_fit(&[1 << 63], &list) && !slices_fit(&[LONGEST], &list));
    let read = [SliceInfoElem::Index(0); 33];
    assert!(rt; leave_none(&read[..32]) && !leave_none(&read) && slices_fit(&[1; 33], &read));
}

/// Returns whether a list that leaves one axis of two fits this shape.
fn leaves_one_of_two(list: &[SliceInfoElem], shape: &[usize]) -> bool {
    match SliceInfo::<Ix2, Ix1>::new(list) {
        Ok(info) => info.fits(shape) && info.elements().len() == list.len(),
        Err(_) => false,
    }
}

// Returns whether a list isn't one from two axes to two axes.
fn keeps_no_two(list: &[SliceInfoElem]) -> bool {
    match SliceInfo::<Ix2, Ix2>::new(list) {
        Ok(_) => false,
        Err(error) => error.kind() == ErrorKind::IncompatibleShape,
    }
}

#[test]
fn lists_from_dimension_to_dimension(rt: HostRuntime) {
    let list = [part_from(0, 1), SliceInfoElem::Index(2)];
    assert!(rt;
        leaves_one_of_two(&list, &[2, 3])
            && !leaves_one_of_two(&list, &[2, 2])
            && are_dynamic(&list)
            && keeps_no_two(&list)
            && SliceInfo::<Ix1, Ix1>::new(&list).is_err()
            && SliceInfo::<Ix0, Ix0>::new(&[]).is_ok()
    );
}
