//! Calls on all elements of arrays in row-major order, in column-major order, and with negative strides and other
//! elements between their own: what is stored afterwards, the other elements too.

ghost use Rattle.std.specs.Prelude.{◌≡◌, ◌∷◌, [], IfSome};
ghost use Rattle.nd_array_core.specs.ArrayMeaning.{shape_of};

use nd_array_core::Array2;
use nd_test_arrays::{table_by, table_stores};
use std::alloc::Global;

// The strides of 1 2 / 3 4, what is stored, and what is stored after each element is multiplied by ten. The 7s lie
// between the elements.
const LAYOUTS: [([isize; 2], &[u64], &[u64]); 3] = [
    ([2, 1], &[1, 2, 3, 4], &[10, 20, 30, 40]),
    ([1, 2], &[1, 3, 2, 4], &[10, 30, 20, 40]),
    ([-4, -2], &[4, 7, 3, 7, 2, 7, 1], &[40, 7, 30, 7, 20, 7, 10]),
];

/// Returns the table of two rows and two columns that has these strides and is stored as these numbers.
fn square(alloc: Global, strides: &[isize; 2], items: &[u64]) -> Option<Array2<u64>>
    ensures { IfSome result (λ table. shape_of table ≡ 2 ∷ 2 ∷ []) }
{
    table_by(alloc, (2, 2), *strides, items)
}

fn changed_in_place(alloc: Global) -> bool {
    for (strides, items, tens) in &LAYOUTS {
        let Some(mut one) = square(alloc, strides, *items) else {
            return false;
        };
        let Some(mut other) = square(alloc, strides, *items) else {
            return false;
        };
        let Some(third) = square(alloc, strides, *items) else {
            return false;
        };
        one.map_inplace(|x| *x = x.wrapping_mul(10));
        let done = other.mapv_inplace(|x| x.wrapping_mul(10)).is_ok();
        let Ok(third) = third.mapv_into(|x| x.wrapping_mul(10)) else {
            return false;
        };
        if !done
            || !table_stores(one, *tens)
            || !table_stores(other, *tens)
            || !table_stores(third, *tens)
        {
            return false;
        }
    }
    true
}

fn copied_or_moved_to_another(alloc: Global) -> bool {
    for (strides, _items, tens) in &LAYOUTS {
        for (others, items, copied) in &LAYOUTS {
            let Some(table) = square(alloc, strides, *tens) else {
                return false;
            };
            let Some(mut one) = square(alloc, others, *items) else {
                return false;
            };
            let Some(mut other) = square(alloc, others, *items) else {
                return false;
            };
            let done = table.assign_to(&mut one).is_ok();
            table.move_into(&mut other);
            if !done || !table_stores(one, *copied) || !table_stores(other, *copied) {
                return false;
            }
        }
    }
    true
}

#[test]
fn each_layout(rt: HostRuntime) {
    assert!(rt; changed_in_place(rt.alloc()));
    assert!(rt; copied_or_moved_to_another(rt.alloc()));
}
