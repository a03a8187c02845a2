//! Cloning the elements of rows whose neighbours lie far apart in memory into a vector. Each row is cut into as many
//! parts as there are rows. The first parts of all rows are cloned first, then the second parts of all rows, and so on,
//! so that elements which are read one soon after another lie near each other. At the end parts are exchanged within
//! the vector, which brings each element to its position. Each element is cloned once, and no memory is allocated.

ghost use Rattle.std.specs.Prelude.{◌≡◌, ◌+◌, ◌*◌, ◌<◌, ◌≤◌, OnOk, OnErr, length, vec_len, vec_capacity};
ghost use Rattle.nd_shape_and_slice.specs.ShapesAndIndexOrders.{size_of};
ghost use Rattle.nd_layout.specs.NumberedPlacesAndWalks.{ranked};
ghost use Rattle.nd_elements.specs.CollectedElements.{IsFront};
ghost use Rattle.nd_elements.specs.ElementsAtNumberedPlaces.{ranked_by, Holds, ListsAfter, ListsShown, ClonesAreEqualAt, MayLackAt, MayLackBy};
ghost use Rattle.nd_elements.specs.elements.TransposedRowParts.{columns_of_lanes, rows_by_parts, part_by_parts, AreLong, ReachTo, HasRows, AreExchanged, TurnsFurther, IsTurnedBelow, IsTurnedAfter};

use crate::elements::to_vec::{clones_of_lane, list};
use crate::storage::Data;
use nd_layout::{Lane, Layout, MOST_ROWS, Places};
use nd_shape_and_slice::{Dimension, NoMemory, StrideList};
use std::alloc::Global;
use std::mem;

/// Exchanges the `count` items from position `one` on with the `count` items from position `other` on. The two runs
/// don't overlap, and `one` comes first.
fn exchange_runs<A>(items: &mut [A], one: usize, other: usize, count: usize)
    requires apart { one + count ≤ other }
    requires within { other + count ≤ length items.old }
    ensures long { length items.new ≡ length items.old }
    ensures exchanged { AreExchanged one other count items.old items.new }
{
    let (before, after) = items.split_at_mut(other);
    before[one..one + count].swap_with_slice(&mut after[..count]);
}

/// Exchanges, for each row `other` after row `row`, part number `other` of row `row` with part number `row` of row
/// `other`.
fn exchange_row<A>(items: &mut [A], rows: usize, part: usize, width: usize, row: usize)
    requires fits { rows * part ≤ width }
    requires all { length items.old ≡ rows * width }
    requires on { row < rows }
    ensures turned { TurnsFurther rows part width (row * width) (row * width + width) items.old items.new }
    ensures long { length items.new ≡ length items.old }
{
    for other in row + 1..rows {
        exchange_runs(
            items,
            row * width + other * part,
            other * width + row * part,
            part,
        );
    }
}

/// Exchanges the parts of all rows, so that each row gets its own parts.
fn exchange_parts<A>(items: &mut [A], rows: usize, part: usize, width: usize)
    requires fits { rows * part ≤ width }
    requires all { length items.old ≡ rows * width }
    ensures turned { IsTurnedBelow rows part width (rows * width) items.old items.new }
{
    for row in 0..rows {
        exchange_row(items, rows, part, width, row);
    }
}

/// Pushes clones of `count` elements of each lane, from number `from` on, to `items`, lane by lane, and returns
/// `items`. If a clone fails for memory, the clones made before it stay in `items`.
fn clones_of_columns<S: Data>(
    items: Vec<S::Elem>,
    storage: &S,
    lanes: &[Lane],
    from: usize,
    count: usize,
) -> (Vec<S::Elem>, Result<(), NoMemory>)
where
    S::Elem: Clone + Drop,
    requires long { ReachTo (from + count) lanes.now }
    requires clones { ClonesAreEqualAt S.Elem.is_clone S.stored (columns_of_lanes lanes.now from count) storage.now }
    requires holds { Holds S.stored (columns_of_lanes lanes.now from count) storage.now }
    requires room { vec_len items + length lanes.now * count ≤ vec_capacity items }
    ensures items { OnOk result.1 (ListsAfter S.stored (columns_of_lanes lanes.now from count) storage.now items result.0) }
    ensures len { OnOk result.1 (vec_len result.0 ≡ vec_len items + length lanes.now * count) }
    ensures room { vec_capacity result.0 ≡ vec_capacity items }
    ensures kept { OnErr result.1 (IsFront items.items result.0.items) }
    ensures refused { OnErr result.1 (MayLackAt S.Elem.is_infallible S.stored (columns_of_lanes lanes.now from count) storage.now) }
{
    let mut items = items;
    for nth in 0..lanes.len() {
        let (longer, end) = clones_of_lane(items, storage, lanes[nth].part(from, count));
        items = longer;
        match end {
            Ok(()) => {}
            Err(refused) => return (items, Err(refused)),
        }
    }
    (items, Ok(()))
}

/// Pushes clones of the `nth` part of each lane to `items`, then clones of the elements that are left over after the
/// last part of the `nth` lane, and returns `items`. If a clone fails for memory, the clones made before it stay in
/// `items`.
fn clones_of_part<S: Data>(
    items: Vec<S::Elem>,
    storage: &S,
    lanes: &[Lane],
    part: usize,
    width: usize,
    nth: usize,
) -> (Vec<S::Elem>, Result<(), NoMemory>)
where
    S::Elem: Clone + Drop,
    requires on { nth < length lanes.now }
    requires fits { length lanes.now * part ≤ width }
    requires long { AreLong width lanes.now }
    requires clones { ClonesAreEqualAt S.Elem.is_clone S.stored (part_by_parts lanes.now part width nth) storage.now }
    requires holds { Holds S.stored (part_by_parts lanes.now part width nth) storage.now }
    requires room { vec_len items + width ≤ vec_capacity items }
    ensures items { OnOk result.1 (ListsAfter S.stored (part_by_parts lanes.now part width nth) storage.now items result.0) }
    ensures len { OnOk result.1 (vec_len result.0 ≡ vec_len items + width) }
    ensures room { vec_capacity result.0 ≡ vec_capacity items }
    ensures kept { OnErr result.1 (IsFront items.items result.0.items) }
    ensures refused { OnErr result.1 (MayLackAt S.Elem.is_infallible S.stored (part_by_parts lanes.now part width nth) storage.now) }
{
    let done = lanes.len() * part;
    let (longer, end) = clones_of_columns(items, storage, lanes, nth * part, part);
    match end {
        Ok(()) => clones_of_lane(longer, storage, lanes[nth].part(done, width - done)),
        Err(refused) => (longer, Err(refused)),
    }
}

/// Pushes clones of all elements of the lanes to `items`, and returns `items`. For each number `nth` below the number
/// of lanes, `clones_of_part` pushes the `nth` parts of all lanes and what is left over of the `nth` lane. If a clone
/// fails for memory, the clones made before it stay in `items`.
fn clones_by_parts<S: Data>(
    items: Vec<S::Elem>,
    storage: &S,
    lanes: &[Lane],
    part: usize,
    width: usize,
) -> (Vec<S::Elem>, Result<(), NoMemory>)
where
    S::Elem: Clone + Drop,
    requires fits { length lanes.now * part ≤ width }
    requires long { AreLong width lanes.now }
    requires clones { ClonesAreEqualAt S.Elem.is_clone S.stored (rows_by_parts lanes.now part width) storage.now }
    requires holds { Holds S.stored (rows_by_parts lanes.now part width) storage.now }
    requires room { vec_len items + length lanes.now * width ≤ vec_capacity items }
    ensures items { OnOk result.1 (ListsAfter S.stored (rows_by_parts lanes.now part width) storage.now items result.0) }
    ensures len { OnOk result.1 (vec_len result.0 ≡ vec_len items + length lanes.now * width) }
    ensures room { vec_capacity result.0 ≡ vec_capacity items }
    ensures kept { OnErr result.1 (IsFront items.items result.0.items) }
    ensures refused { OnErr result.1 (MayLackAt S.Elem.is_infallible S.stored (rows_by_parts lanes.now part width) storage.now) }
{
    let mut items = items;
    for nth in 0..lanes.len() {
        let (longer, end) = clones_of_part(items, storage, lanes, part, width, nth);
        items = longer;
        match end {
            Ok(()) => {}
            Err(refused) => return (items, Err(refused)),
        }
    }
    (items, Ok(()))
}

/// Pushes clones of all elements of the lanes to `items`, in the order of `clones_by_parts`.
fn list_by_parts<S: Data>(
    items: &mut Vec<S::Elem>,
    storage: &S,
    lanes: &[Lane],
    part: usize,
    width: usize,
) -> Result<(), NoMemory>
where
    S::Elem: Clone + Drop,
    requires fits { length lanes.now * part ≤ width }
    requires long { AreLong width lanes.now }
    requires clones { ClonesAreEqualAt S.Elem.is_clone S.stored (rows_by_parts lanes.now part width) storage.now }
    requires holds { Holds S.stored (rows_by_parts lanes.now part width) storage.now }
    requires room { vec_len items.old + length lanes.now * width ≤ vec_capacity items.old }
    ensures items { OnOk result (ListsAfter S.stored (rows_by_parts lanes.now part width) storage.now items.old items.new) }
    ensures len { OnOk result (vec_len items.new ≡ vec_len items.old + length lanes.now * width) }
    ensures room { vec_capacity items.old ≤ vec_capacity items.new }
    ensures kept { OnErr result (IsFront items.old.items items.new.items) }
    ensures refused { OnErr result (MayLackAt S.Elem.is_infallible S.stored (rows_by_parts lanes.now part width) storage.now) }
{
    let alloc = *items.allocator();
    let held = mem::replace(items, Vec::new(alloc));
    let (longer, end) = clones_by_parts(held, storage, lanes, part, width);
    let empty = mem::replace(items, longer);
    empty.destroy_empty();
    end
}

/// Exchanges the parts of the rows that stand in `items` from position `start` on, so that each row gets its own parts.
fn exchange_last<A>(items: &mut Vec<A>, start: usize, rows: usize, part: usize, width: usize)
    requires fits { rows * part ≤ width }
    requires all { start + rows * width ≡ vec_len items.old }
    ensures turned { IsTurnedAfter start rows part width items.old.items items.new.items }
    ensures len { vec_len items.new ≡ vec_len items.old }
    ensures room { vec_capacity items.new ≡ vec_capacity items.old }
{
    exchange_parts(items.slice_mut(start..), rows, part, width);
}

/// Pushes clones of the elements of the lanes, which all have `width` elements, to `items`, one lane after another.
fn list_rows<S: Data>(
    items: &mut Vec<S::Elem>,
    storage: &S,
    lanes: &[Lane],
    width: usize,
) -> Result<(), NoMemory>
where
    S::Elem: Clone + Drop,
    requires some { 0 < length lanes.now }
    requires long { AreLong width lanes.now }
    requires clones { ClonesAreEqualAt S.Elem.is_clone S.stored (columns_of_lanes lanes.now 0 width) storage.now }
    requires holds { Holds S.stored (columns_of_lanes lanes.now 0 width) storage.now }
    requires room { vec_len items.old + length lanes.now * width ≤ vec_capacity items.old }
    ensures items { OnOk result (ListsAfter S.stored (columns_of_lanes lanes.now 0 width) storage.now items.old items.new) }
    ensures count { OnOk result (vec_len items.new ≡ vec_len items.old + length lanes.now * width) }
    ensures room { vec_capacity items.old ≤ vec_capacity items.new }
    ensures kept { OnErr result (IsFront items.old.items items.new.items) }
    ensures refused { OnErr result (MayLackAt S.Elem.is_infallible S.stored (columns_of_lanes lanes.now 0 width) storage.now) }
{
    let (start, rows) = (items.len(), lanes.len());
    let part = width / rows;
    match list_by_parts(items, storage, lanes, part, width) {
        Ok(()) => {}
        Err(refused) => return Err(refused),
    }
    exchange_last(items, start, rows, part, width);
    Ok(())
}

/// Writes the lanes of `places` to `rows`, and returns their number. Returns 0 if `rows` has no room for all of them,
/// or if one of them doesn't have `width` elements. `size` is the number of places.
fn rows_in(places: Places<'_>, size: usize, width: usize, rows: &mut [Lane]) -> usize
    ensures { 0 < result → HasRows (ranked places.entry) size width rows.new result }
{
    let mut lanes = places.lanes();
    for nth in 0..rows.len() {
        match lanes.next() {
            Some(lane) => {
                if lane.count != width {
                    return 0;
                }
                rows[nth] = lane;
            }
            None => return 0,
        }
        if lanes.rank == size {
            return nth + 1;
        }
    }
    0
}

/// Pushes a clone of each element of `layout` to `items`, in row-major order. If the layout has at most `MOST_ROWS`
/// rows, goes by parts of the rows; otherwise lane by lane. Allocates no memory for that.
pub(crate) fn list_turned<S: Data, D: Dimension>(
    items: &mut Vec<S::Elem>,
    storage: &S,
    layout: &Layout<D, D::Strides>,
) -> Result<(), NoMemory>
where
    S::Elem: Clone + Drop,
    requires axes { 1 < length (D.lengths layout.now.dim) }
    requires clones { ClonesAreEqualAt S.Elem.is_clone S.stored (ranked_by layout.now) storage.now }
    requires holds { Holds S.stored (ranked_by layout.now) storage.now }
    requires room { vec_len items.old + size_of (D.lengths layout.now.dim) ≤ vec_capacity items.old }
    ensures items { OnOk result (ListsShown S.stored layout.now storage.now items.old items.new) }
    ensures count { OnOk result (vec_len items.new ≡ vec_len items.old + size_of (D.lengths layout.now.dim)) }
    ensures room { vec_capacity items.old ≤ vec_capacity items.new }
    ensures kept { OnErr result (IsFront items.old.items items.new.items) }
    ensures refused { OnErr result (MayLackBy S.Elem.is_infallible S.stored layout.now storage.now) }
{
    let width = layout.dim.length(layout.dim.ndim() - 1);
    let none = Lane {
        place: 0,
        count: 0,
        stride: 1,
    };
    let mut lanes = [none; MOST_ROWS];
    let rows = rows_in(layout.places(), layout.dim.size(), width, &mut lanes);
    if rows == 0 {
        return list(items, storage, layout.places());
    }
    list_rows(items, storage, &lanes[..rows], width)
}
