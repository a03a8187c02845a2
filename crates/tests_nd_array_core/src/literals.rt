//! Arrays and views of numbers that are written out.

use nd_array_core::prelude::*;
use std::alloc::Global;

/// Returns whether there is an array with this shape and, in row-major order, these elements.
fn is_made<D: Dimension>(
    made: Result<Array<u64, D>, NoMemory>,
    shape: &[usize],
    elements: &[u64],
) -> bool {
    match made {
        Ok(array) => shows(&array.view(), shape, elements),
        Err(NoMemory) => false,
    }
}

/// Returns whether a view has this shape and, in row-major order, these elements.
fn shows<D: Dimension>(view: &ArrayView<'_, u64, D>, shape: &[usize], elements: &[u64]) -> bool {
    match view.as_slice() {
        Some(shown) => view.shape() == shape && shown == elements,
        None => false,
    }
}

fn is_list_made(made: Result<Array1<u64>, NoMemory>, shape: &[usize], elements: &[u64]) -> bool {
    is_made(made, shape, elements)
}

fn is_table_made(made: Result<Array2<u64>, NoMemory>, shape: &[usize], elements: &[u64]) -> bool {
    is_made(made, shape, elements)
}

fn is_box_made(made: Result<Array3<u64>, NoMemory>, shape: &[usize], elements: &[u64]) -> bool {
    is_made(made, shape, elements)
}

const NUMBERS: [u64; 12] = [1, 2, 3, 4, 5, 6, 7, 8, 9, 0, 1, 2];

fn lists_are_as_they_are_written(alloc: Global) -> bool {
    is_list_made(array![in alloc; 1, 2, 3, 4], &[4], &NUMBERS[..4])
        && is_list_made(array![in alloc;], &[0], &[])
        && is_made(arr0(alloc, 7), &[], &[7])
        && is_list_made(arr1(alloc, &[1, 2, 3]), &[3], &NUMBERS[..3])
}

fn tables_are_as_they_are_written(alloc: Global) -> bool {
    is_table_made(array![in alloc; [1, 2], [3, 4]], &[2, 2], &NUMBERS[..4])
        && is_table_made(
            array![in alloc; [1, 2, 3,], [4, 5, 6],],
            &[2, 3],
            &NUMBERS[..6],
        )
        && is_table_made(array![in alloc; [], []], &[2, 0], &[])
        && is_table_made(arr2(alloc, &[[1, 2, 3], [4, 5, 6]]), &[2, 3], &NUMBERS[..6])
}

fn boxes_are_as_they_are_written(alloc: Global) -> bool {
    is_box_made(
        array![in alloc; [[1, 2], [3, 4]], [[5, 6], [7, 8]]],
        &[2, 2, 2],
        &NUMBERS[..8],
    ) && is_box_made(
        arr3(
            alloc,
            &[[[1, 2], [3, 4]], [[5, 6], [7, 8]], [[9, 0], [1, 2]]],
        ),
        &[3, 2, 2],
        &NUMBERS,
    )
}

#[test]
fn arrays_are_made_of_slices(rt: HostRuntime) {
    assert!(rt; lists_are_as_they_are_written(rt.alloc()));
    assert!(rt; tables_are_as_they_are_written(rt.alloc()));
    assert!(rt; boxes_are_as_they_are_written(rt.alloc()));
}

#[test]
fn views_show_what_is_borrowed(rt: HostRuntime) {
    let numbers = [1; 1024];
    assert!(rt; shows(&aview0(&7), &[], &[7]) && shows(&aview1(&numbers), &[1024], &numbers));
    assert!(rt;
        shows(
            &aview2(&[[1, 2, 3], [4, 5, 6]]),
            &[2, 3],
            &[1, 2, 3, 4, 5, 6]
        )
    );
    let boxes = [[[1, 2], [3, 4]]];
    assert!(rt;
        shows(
            &ArrayView3::from(boxes.as_slice()),
            &[1, 2, 2],
            &[1, 2, 3, 4]
        )
    );
}
