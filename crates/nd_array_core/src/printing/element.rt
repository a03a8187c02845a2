//! The two ways to write an element: as `{}` does, and as `{:?}` does.
#![tactic(auto)]

ghost use Rattle.std.specs.Prelude.{ℕ, List, Option, None};
ghost use Rattle.std.specs.Fmt.{DisplaysOnOk, DisplaysStyledOnOk, formatter_spec};
ghost use Rattle.core.specs.declared.fmt.formatter.FormatSpec.{FormatSpec};

use std::fmt;
use std::fmt::{Debug, Display};

/// A way to write an element.
pub trait WritesElement<A> {
    /// Returns the text that is written for an element, where it is known.
    ghost text_of: { A → Option (List ℕ) };

    /// Returns the text that is written for an element under a hole's options, where it is known.
    ghost styled_text_of: { FormatSpec → A → Option (List ℕ) };

    /// Writes an element under the options of the formatter.
    fn write_element<W: fmt::Write>(element: &A, f: &mut fmt::Formatter<W>) -> fmt::Result
        ensures writes { DisplaysOnOk W.write_str_gives f.old result (text_of element.now) f.new }
        ensures styled { DisplaysStyledOnOk W.write_str_gives f.old result (styled_text_of (formatter_spec f.old) element.now) f.new };
}

/// Writes each element as `{}` does.
pub struct AsDisplayed;

/// Writes each element as `{:?}` does.
pub struct AsDebugged;

impl<A: Display> WritesElement<A> for AsDisplayed {
    ghost text_of = { A.output };

    ghost styled_text_of = { λ style element. A.styled_output element style };

    fn write_element<W: fmt::Write>(element: &A, f: &mut fmt::Formatter<W>) -> fmt::Result {
        Display::fmt(element, f)
    }
}

impl<A: Debug> WritesElement<A> for AsDebugged {
    ghost text_of = { A.debug_output };

    ghost styled_text_of = { λ _ _. None };

    fn write_element<W: fmt::Write>(element: &A, f: &mut fmt::Formatter<W>) -> fmt::Result {
        Debug::fmt(element, f)
    }
}
