//! The brackets, separators and dots around and between the entries of an axis.
#![tactic(auto)]

ghost use Rattle.std.specs.Prelude.{◌≡◌, ◌==◌, ◌++◌, ◌^◌, ◌+◌, ◌<◌, Some, [], codes, if◌then◌else◌};
ghost use Rattle.std.specs.List.{repeat};
ghost use Rattle.std.specs.Fmt.{WritesOnOk, WritesStyledOnOk};
ghost use Rattle.nd_array_core.specs.printing.ArrayTexts.{limit_of, shows_all, separator_text};

use std::fmt;

/// Returns how many entries of an axis are shown at most before some are left out. `inner` is the number of axes after
/// it.
pub fn limit_of(inner: usize) -> usize
    ensures { result ≡ limit_of inner }
{
    if inner < 2 { 11 } else { 6 }
}

/// Returns whether all `count` entries of an axis are shown: if `whole` is true, or if they are few. `inner` is the
/// number of axes after it.
pub fn shows_all(whole: bool, inner: usize, count: usize) -> bool
    ensures { result ≡ shows_all whole inner count }
{
    whole || count <= limit_of(inner)
}

/// Writes a comma, a line break for each of the `inner` axes of an entry, and a space for each of the `around` open
/// brackets.
fn write_breaks<W: fmt::Write>(
    f: &mut fmt::Formatter<W>,
    around: usize,
    inner: usize,
) -> fmt::Result
    ensures writes { WritesOnOk W.write_str_gives f.old result (codes "," ++ (repeat inner (codes "\n") ++ repeat around (codes " "))) f.new }
    ensures styled { WritesStyledOnOk W.write_str_gives f.old result (codes "," ++ (repeat inner (codes "\n") ++ repeat around (codes " "))) f.new }
{
    f.write_str(",")?;
    f.write_repeated("\n", inner)?;
    f.write_repeated(" ", around)
}

/// Writes the separator between two entries of an axis. `around` is the number of open brackets, and `inner` the number
/// of axes of each entry.
pub fn write_separator<W: fmt::Write>(
    f: &mut fmt::Formatter<W>,
    around: usize,
    inner: usize,
) -> fmt::Result
    ensures writes { WritesOnOk W.write_str_gives f.old result (separator_text around inner) f.new }
    ensures styled { WritesStyledOnOk W.write_str_gives f.old result (separator_text around inner) f.new }
{
    if inner == 0 {
        return f.write_str(", ");
    }
    write_breaks(f, around, inner)
}

/// Writes the separator before entry `k`, or nothing if `k` is 0. `around` is the number of open brackets, and `inner`
/// the number of axes of each entry.
pub fn write_before<W: fmt::Write>(
    f: &mut fmt::Formatter<W>,
    around: usize,
    inner: usize,
    k: usize,
) -> fmt::Result
    ensures writes { WritesOnOk W.write_str_gives f.old result (if k == 0 then [] else separator_text around inner) f.new }
    ensures styled { WritesStyledOnOk W.write_str_gives f.old result (if k == 0 then [] else separator_text around inner) f.new }
{
    if k == 0 {
        return f.write_str("");
    }
    write_separator(f, around, inner)
}

/// Writes a separator and three dots, which stand for the entries that are left out. `around` is the number of open
/// brackets, and `inner` the number of axes of each entry.
pub fn write_dots<W: fmt::Write>(
    f: &mut fmt::Formatter<W>,
    around: usize,
    inner: usize,
) -> fmt::Result
    ensures writes { WritesOnOk W.write_str_gives f.old result (separator_text around inner ++ codes "...") f.new }
    ensures styled { WritesStyledOnOk W.write_str_gives f.old result (separator_text around inner ++ codes "...") f.new }
{
    write_separator(f, around, inner)?;
    f.write_str("...")
}

/// Writes as many opening brackets as there are axes, and then as many closing brackets.
pub fn write_brackets<W: fmt::Write>(f: &mut fmt::Formatter<W>, axes: usize) -> fmt::Result
    ensures writes { WritesOnOk W.write_str_gives f.old result (repeat axes (codes "[") ++ repeat axes (codes "]")) f.new }
    ensures styled { WritesStyledOnOk W.write_str_gives f.old result (repeat axes (codes "[") ++ repeat axes (codes "]")) f.new }
{
    f.write_repeated("[", axes)?;
    f.write_repeated("]", axes)
}
