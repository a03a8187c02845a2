//! The text of a view with elements: its entries in brackets, axis by axis.
#![tactic(auto)]

ghost use Rattle.std.specs.Prelude.{◌≡◌, ◌≤◌, ◌<◌, ◌+◌, ◌-◌, ◌^◌, length, slice_index};
ghost use Rattle.std.specs.Fmt.{DisplaysOnOk, DisplaysStyledOnOk, formatter_spec};
ghost use Rattle.nd_array_core.specs.ArrayMeaning.{meaning_of, shape_of};
ghost use Rattle.nd_array_core.specs.printing.ArrayTexts.{axes_text, ends_of, entries_of, first_at, item_of, run_of_entries};

use crate::base::array::ArrayView;
use crate::printing::element::WritesElement;
use crate::printing::separators::{limit_of, shows_all, write_before, write_dots};
use nd_shape_and_slice::{Axis, Dimension, IxDyn, MAX_AXES};
use std::fmt;

/// Returns a view of the elements at coordinate `k` of the first axis, without that axis.
fn part_at<'a, 'b, A>(view: &'a ArrayView<'b, A, IxDyn>, k: usize) -> ArrayView<'a, A, IxDyn>
    requires some { 0 < length (shape_of view.now) }
    requires within { k < slice_index (shape_of view.now) 0 }
    ensures meaning { meaning_of result ≡ first_at (meaning_of view.now) k }
    ensures fewer { length (shape_of result) + 1 ≡ length (shape_of view.now) }
{
    view.index_axis(Axis(0), k)
}

/// Writes the element of a view without axes.
fn write_scalar<P: WritesElement<A>, A, W: fmt::Write>(
    f: &mut fmt::Formatter<W>,
    view: &ArrayView<'_, A, IxDyn>,
    whole: bool,
    depth: usize,
) -> fmt::Result
    requires { length (shape_of view.now) ≡ 0 }
    ensures writes { DisplaysOnOk W.write_str_gives f.old result (axes_text P.text_of whole depth 0 (meaning_of view.now)) f.new }
    ensures styled { DisplaysStyledOnOk W.write_str_gives f.old result (axes_text (P.styled_text_of (formatter_spec f.old)) whole depth 0 (meaning_of view.now)) f.new }
{
    match view.get(IxDyn::zeros(0)) {
        Some(x) => P::write_element(x, f),
        None => Ok(()),
    }
}

/// Writes a view that has elements, inside `depth` open brackets. If `whole` is false, long axes are shortened.
#[cycle(printing)]
pub fn write_axes<P: WritesElement<A>, A, W: fmt::Write>(
    f: &mut fmt::Formatter<W>,
    view: &ArrayView<'_, A, IxDyn>,
    whole: bool,
    depth: usize,
) -> fmt::Result
    requires few { depth + length (shape_of view.now) ≤ MAX_AXES }
    ensures writes { DisplaysOnOk W.write_str_gives f.old result (axes_text P.text_of whole depth (length (shape_of view.now)) (meaning_of view.now)) f.new }
    ensures styled { DisplaysStyledOnOk W.write_str_gives f.old result (axes_text (P.styled_text_of (formatter_spec f.old)) whole depth (length (shape_of view.now)) (meaning_of view.now)) f.new }
{
    if view.ndim() == 0 {
        return write_scalar::<P, A, W>(f, view, whole, depth);
    }
    f.write_str("[")?;
    write_entries::<P, A, W>(f, view, whole, depth)?;
    f.write_str("]")
}

/// Writes the entries of the first axis: all of them, or the first and the last ones if there are many and `whole` is
/// false.
#[cycle(printing)]
fn write_entries<P: WritesElement<A>, A, W: fmt::Write>(
    f: &mut fmt::Formatter<W>,
    view: &ArrayView<'_, A, IxDyn>,
    whole: bool,
    depth: usize,
) -> fmt::Result
    requires some { 0 < length (shape_of view.now) }
    requires few { depth + length (shape_of view.now) ≤ MAX_AXES }
    ensures writes { DisplaysOnOk W.write_str_gives f.old result (entries_of P.text_of whole depth (meaning_of view.now)) f.new }
    ensures styled { DisplaysStyledOnOk W.write_str_gives f.old result (entries_of (P.styled_text_of (formatter_spec f.old)) whole depth (meaning_of view.now)) f.new }
{
    let count = view.len_of(Axis(0));
    let inner = view.ndim() - 1;
    if shows_all(whole, inner, count) {
        return write_run::<P, A, W>(f, view, whole, depth, 0, count);
    }
    write_ends::<P, A, W>(f, view, whole, depth, limit_of(inner) / 2, count)
}

/// Writes the first `edge` and the last `edge` of the `count` entries of the first axis, and three dots between them.
#[cycle(printing)]
fn write_ends<P: WritesElement<A>, A, W: fmt::Write>(
    f: &mut fmt::Formatter<W>,
    view: &ArrayView<'_, A, IxDyn>,
    whole: bool,
    depth: usize,
    edge: usize,
    count: usize,
) -> fmt::Result
    requires some { 0 < length (shape_of view.now) }
    requires few { depth + length (shape_of view.now) ≤ MAX_AXES }
    requires count { count ≡ slice_index (shape_of view.now) 0 }
    requires edge { edge < count }
    ensures writes { DisplaysOnOk W.write_str_gives f.old result (ends_of P.text_of whole depth (meaning_of view.now) edge count) f.new }
    ensures styled { DisplaysStyledOnOk W.write_str_gives f.old result (ends_of (P.styled_text_of (formatter_spec f.old)) whole depth (meaning_of view.now) edge count) f.new }
{
    write_run::<P, A, W>(f, view, whole, depth, 0, edge)?;
    write_dots(f, depth + 1, view.ndim() - 1)?;
    write_run::<P, A, W>(f, view, whole, depth, count - edge, count)
}

/// Writes the entries of the first axis from number `from` up to number `to`, which isn't written.
#[cycle(printing)]
fn write_run<P: WritesElement<A>, A, W: fmt::Write>(
    f: &mut fmt::Formatter<W>,
    view: &ArrayView<'_, A, IxDyn>,
    whole: bool,
    depth: usize,
    from: usize,
    to: usize,
) -> fmt::Result
    requires some { 0 < length (shape_of view.now) }
    requires few { depth + length (shape_of view.now) ≤ MAX_AXES }
    requires order { from ≤ to }
    requires within { to ≤ slice_index (shape_of view.now) 0 }
    ensures writes { DisplaysOnOk W.write_str_gives f.old result (run_of_entries P.text_of whole depth (meaning_of view.now) from (to - from)) f.new }
    ensures styled { DisplaysStyledOnOk W.write_str_gives f.old result (run_of_entries (P.styled_text_of (formatter_spec f.old)) whole depth (meaning_of view.now) from (to - from)) f.new }
{
    for k in from..to {
        write_item::<P, A, W>(f, view, whole, depth, k)?;
    }
    Ok(())
}

/// Writes entry number `k` of the first axis, after a separator if it isn't entry 0.
#[cycle(printing)]
fn write_item<P: WritesElement<A>, A, W: fmt::Write>(
    f: &mut fmt::Formatter<W>,
    view: &ArrayView<'_, A, IxDyn>,
    whole: bool,
    depth: usize,
    k: usize,
) -> fmt::Result
    requires some { 0 < length (shape_of view.now) }
    requires few { depth + length (shape_of view.now) ≤ MAX_AXES }
    requires within { k < slice_index (shape_of view.now) 0 }
    ensures writes { DisplaysOnOk W.write_str_gives f.old result (item_of P.text_of whole depth (meaning_of view.now) k) f.new }
    ensures styled { DisplaysStyledOnOk W.write_str_gives f.old result (item_of (P.styled_text_of (formatter_spec f.old)) whole depth (meaning_of view.now) k) f.new }
{
    write_before(f, depth + 1, view.ndim() - 1, k)?;
    write_axes::<P, A, W>(f, &part_at(view, k), whole, depth + 1)
}
