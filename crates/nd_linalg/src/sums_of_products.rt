//! Sums of products over slices. A matrix is given as the slice of its elements in row-major order, which are its
//! cells.
#![tactic(auto, using(std::proofs::lemmas::Bool::Decides::nat_tests, crate::proofs::RowsOfCells::row_within))]

ghost use Rattle.std.specs.Prelude.{◌≡◌, ◌<◌, ◌≤◌, ◌+◌, ◌*◌, ◌^◌, ℕ, [], length, slice_get, vec_len, vec_capacity, Some, IfOk};
ghost use Rattle.nd_linalg.specs.DotAndMatrixProducts.{sum_from, row_sum, HasFrom, AddsProducts, HasRowSums, HasColumnSums, PutsSums, ListsProduct};

use nd_numbers::Arithmetic;
use nd_shape_and_slice::NoMemory;
use std::alloc::Global;

/// Returns the sum of the products of the elements of `cells` from the position `from` on and the elements of `list`.
pub(crate) fn sum_along<A: Arithmetic>(cells: &[A], from: usize, list: &[A]) -> A
    requires { from + length list.now ≤ length cells.now }
    ensures { Some result ≡ sum_from A.plus A.times A.zero cells.now from list.now }
{
    let mut sum = A::zero();
    for k in 0..list.len() {
        sum = sum.add_product(cells[from + k], list[k]);
    }
    sum
}

/// Sets each element to 0.
fn clear<A: Arithmetic>(sums: &mut [A])
    ensures count { length sums.new ≡ length sums.old }
    ensures zeros { (j : ℕ) → j < length sums.old → slice_get sums.new j ≡ Some A.zero }
{
    for j in 0..sums.len() {
        sums[j] = A::zero();
    }
}

/// Adds to each element of `sums` the product of `x` and an element of `cells`: those from the position `from` on, in
/// order.
fn add_row<A: Arithmetic>(sums: &mut [A], x: A, cells: &[A], from: usize)
    requires { from + length sums.old ≤ length cells.now }
    ensures count { length sums.new ≡ length sums.old }
    ensures each { AddsProducts A.plus A.times sums.old x cells.now from sums.new }
{
    for j in 0..sums.len() {
        sums[j] = sums[j].add_product(x, cells[from + j]);
    }
}

/// Adds four products to each of `sums`. Before, they are the sums of the first `done` products of the elements of a
/// row and of each column of the matrix `right`; the row stands in `left` from the position `from` on. Afterwards they
/// are the sums of the first `done + 4` products.
fn add_four<A: Arithmetic>(sums: &mut [A], left: &[A], from: usize, done: usize, right: &[A])
    requires row { from + done + 4 ≤ length left.now }
    requires cells { (done + 4) * length sums.old ≤ length right.now }
    requires before { HasColumnSums A.plus A.times A.zero left.now from right.now (length sums.old) done sums.old }
    ensures count { length sums.new ≡ length sums.old }
    ensures each { HasColumnSums A.plus A.times A.zero left.now from right.now (length sums.old) (done + 4) sums.new }
{
    let columns = sums.len();
    let (x, y) = (left[from + done], left[from + done + 1]);
    let (z, w) = (left[from + done + 2], left[from + done + 3]);
    let one = done * columns;
    let two = one + columns;
    let three = two + columns;
    let four = three + columns;
    for j in 0..columns {
        let sum = sums[j]
            .add_product(x, right[one + j])
            .add_product(y, right[two + j]);
        sums[j] = sum
            .add_product(z, right[three + j])
            .add_product(w, right[four + j]);
    }
}

/// Sets `sums` to the sums of the products of the elements of a row and of each column of the matrix `right`. The row
/// is the `inner` elements of `left` from the position `from` on.
fn sum_columns<A: Arithmetic>(sums: &mut [A], left: &[A], from: usize, inner: usize, right: &[A])
    requires row { from + inner ≤ length left.now }
    requires cells { length right.now ≡ inner * length sums.old }
    ensures count { length sums.new ≡ length sums.old }
    ensures each { HasColumnSums A.plus A.times A.zero left.now from right.now (length sums.old) inner sums.new }
{
    let columns = sums.len();
    let fours = inner / 4;
    clear(sums);
    for four in 0..fours {
        add_four(sums, left, from, four * 4, right);
    }
    for k in fours * 4..inner {
        add_row(sums, left[from + k], right, k * columns);
    }
}

/// Appends the elements of `row` to `cells`, which has room for them.
fn push_row<A: Arithmetic>(cells: &mut Vec<A>, row: &[A])
    requires { vec_len cells.old + length row.now ≤ vec_capacity cells.old }
    ensures count { length cells.new.items ≡ length cells.old.items + length row.now }
    ensures len { vec_len cells.new ≡ vec_len cells.old + length row.now }
    ensures room { vec_capacity cells.new ≡ vec_capacity cells.old }
    ensures before { (p : ℕ) → p < length cells.old.items → slice_get cells.new.items p ≡ slice_get cells.old.items p }
    ensures row { HasFrom cells.new.items (length cells.old.items) row.now }
{
    for j in 0..row.len() {
        cells.push_reserved(row[j]);
    }
}

/// Appends to `cells`, which has room for them, the sums of the products of the elements of a row and of each column of
/// the matrix `right`. The row is the `inner` elements of `left` from the position `from` on. `sums` is overwritten.
fn push_sums<A: Arithmetic>(
    cells: &mut Vec<A>,
    sums: &mut [A],
    left: &[A],
    from: usize,
    inner: usize,
    right: &[A],
)
    requires row { from + inner ≤ length left.now }
    requires cells { length right.now ≡ inner * length sums.old }
    requires room { vec_len cells.old + length sums.old ≤ vec_capacity cells.old }
    ensures as_many { length sums.new ≡ length sums.old }
    ensures count { length cells.new.items ≡ length cells.old.items + length sums.old }
    ensures len { vec_len cells.new ≡ vec_len cells.old + length sums.old }
    ensures room { vec_capacity cells.new ≡ vec_capacity cells.old }
    ensures before { (p : ℕ) → p < length cells.old.items → slice_get cells.new.items p ≡ slice_get cells.old.items p }
    ensures row { PutsSums A.plus A.times A.zero left.now from right.now sums.old inner cells.old cells.new }
{
    sum_columns(sums, left, from, inner, right);
    push_row(cells, sums);
}

/// Returns `count` zeros.
fn zeros<A: Arithmetic>(alloc: Global, count: usize) -> Result<Vec<A>, NoMemory>
    ensures { IfOk result (λ v. length v.items ≡ count) }
{
    let mut zeros = Vec::with_capacity(alloc, count)?;
    for _ in 0..count {
        zeros.push_reserved(A::zero());
    }
    Ok(zeros)
}

/// Returns the cells of the product of the matrices `left`, with `rows` rows and `inner` columns, and `right`, with
/// `inner` rows and `columns` columns.
pub(crate) fn product_of<A: Arithmetic>(
    alloc: Global,
    left: &[A],
    right: &[A],
    rows: usize,
    inner: usize,
    columns: usize,
) -> Result<Vec<A>, NoMemory>
    requires left { length left.now ≡ rows * inner }
    requires right { length right.now ≡ inner * columns }
    requires fits { rows * columns < 2 ^ 64 }
    ensures count { IfOk result (λ v. length v.items ≡ rows * columns) }
    ensures each { IfOk result (λ v. ListsProduct A.plus A.times A.zero left.now right.now rows inner columns v.items) }
{
    let mut row = zeros(alloc, columns)?;
    let sums = row.as_mut_slice();
    let mut cells = Vec::with_capacity(alloc, rows * columns)?;
    for i in 0..rows {
        push_sums(&mut cells, sums, left, i * inner, inner, right);
    }
    Ok(cells)
}

/// Returns two sums of products with the elements of `list`: those of the elements of `cells` from the position `from`
/// on, and those of the elements from the position `next` on.
fn sum_two<A: Arithmetic>(cells: &[A], from: usize, next: usize, list: &[A]) -> (A, A)
    requires first { from + length list.now ≤ length cells.now }
    requires second { next + length list.now ≤ length cells.now }
    ensures first { Some result.0 ≡ sum_from A.plus A.times A.zero cells.now from list.now }
    ensures second { Some result.1 ≡ sum_from A.plus A.times A.zero cells.now next list.now }
{
    let mut one = A::zero();
    let mut two = A::zero();
    for k in 0..list.len() {
        one = one.add_product(cells[from + k], list[k]);
        two = two.add_product(cells[next + k], list[k]);
    }
    (one, two)
}

/// Appends `sum` to `sums`, which has room for it. It is the sum for the row `row`, and `sums` has those of the rows
/// before it.
fn push_sum<A: Arithmetic>(sums: &mut Vec<A>, cells: &[A], row: usize, list: &[A], sum: A)
    requires room { vec_len sums.old < vec_capacity sums.old }
    requires count { length sums.old.items ≡ row }
    requires each { HasRowSums A.plus A.times A.zero cells.now list.now row sums.old.items }
    requires sum { Some sum ≡ row_sum A.plus A.times A.zero cells.now list.now row }
    ensures count { length sums.new.items ≡ row + 1 }
    ensures len { vec_len sums.new ≡ vec_len sums.old + 1 }
    ensures room { vec_capacity sums.new ≡ vec_capacity sums.old }
    ensures each { HasRowSums A.plus A.times A.zero cells.now list.now (row + 1) sums.new.items }
{
    sums.push_reserved(sum);
}

/// Appends to `sums`, which is empty and has room for them, the sums of the products of the elements of each of the
/// first `pairs * 2` rows of a matrix and of `list`. Works on two rows at a time.
fn push_pairs<A: Arithmetic>(sums: &mut Vec<A>, cells: &[A], pairs: usize, list: &[A])
    requires rows { pairs * 2 * length list.now ≤ length cells.now }
    requires room { pairs * 2 ≤ vec_capacity sums.old }
    requires len { vec_len sums.old ≡ 0 }
    requires none { length sums.old.items ≡ 0 }
    ensures count { length sums.new.items ≡ pairs * 2 }
    ensures len { vec_len sums.new ≡ pairs * 2 }
    ensures room { vec_capacity sums.new ≡ vec_capacity sums.old }
    ensures each { HasRowSums A.plus A.times A.zero cells.now list.now (pairs * 2) sums.new.items }
{
    for pair in 0..pairs {
        let row = pair * 2;
        let (one, two) = sum_two(cells, row * list.len(), (row + 1) * list.len(), list);
        push_sum(sums, cells, row, list, one);
        push_sum(sums, cells, row + 1, list, two);
    }
}

/// Returns, for each of the `rows` rows of a matrix, the sum of the products of its elements and those of `list`.
pub(crate) fn rows_by_list<A: Arithmetic>(
    alloc: Global,
    cells: &[A],
    rows: usize,
    list: &[A],
) -> Result<Vec<A>, NoMemory>
    requires { length cells.now ≡ rows * length list.now }
    ensures count { IfOk result (λ v. length v.items ≡ rows) }
    ensures each { IfOk result (λ v. HasRowSums A.plus A.times A.zero cells.now list.now rows v.items) }
{
    let mut sums = Vec::with_capacity(alloc, rows)?;
    let pairs = rows / 2;
    push_pairs(&mut sums, cells, pairs, list);
    for i in pairs * 2..rows {
        let sum = sum_along(cells, i * list.len(), list);
        push_sum(&mut sums, cells, i, list, sum);
    }
    Ok(sums)
}
