//! Tests of what each function of this crate leaves in its slice.

use crate::even_and_odd_places::fill_in_turn;
use crate::one_column::fill_column;
use crate::part_by_value::fill_even;
use crate::swapped_elements::exchange;
use crate::two_columns::fill_columns;
use crate::whole_slice::write_two;

#[test]
fn callers_leave_what_they_say(rt: HostRuntime) {
    let mut two = [1u64, 2, 3, 4];
    write_two(&mut two);
    assert_eq!(rt; two, [1, 7, 3, 9]);
    let mut six = [5u64, 5, 5, 5, 5, 5];
    fill_in_turn(&mut six);
    assert_eq!(rt; six, [0, 1, 0, 1, 0, 1]);
    fill_even(&mut six);
    assert_eq!(rt; six, [7, 1, 7, 1, 7, 1]);
    let mut rows = [2u64, 3, 4, 5, 6, 7, 8, 9, 10, 11, 12, 13];
    fill_column(&mut rows);
    assert_eq!(rt; rows, [0, 1, 0, 0, 0, 1, 0, 0, 0, 1, 0, 0]);
    let mut columns = [5u64, 5, 5, 5, 5, 5, 5, 5, 5, 5, 5, 5];
    fill_columns(&mut columns);
    assert_eq!(rt; columns, [5, 1, 5, 2, 5, 1, 5, 2, 5, 1, 5, 2]);
    let mut three = [1u64, 2, 3];
    exchange(&mut three);
    assert_eq!(rt; three, [3, 2, 1]);
}
