//! Laws of texts, over their words and lines alone. Nothing here runs: the law is what each function's `ensures` clause
//! says.

ghost use Rattle.nd_read.specs.LineAndScriptLaws.{MeansOneCall, MeansOneScript, HasNoBadLine};

pub use nd_text::laws::lines_join_again;

/// The words of a line mean at most one call.
pub fn line_means_one_call()
    ensures { MeansOneCall }
{}

/// The lines of a text mean at most one script, and if they mean one, then no line is bad.
pub fn lines_mean_one_script()
    ensures one { MeansOneScript }
    ensures none_bad { HasNoBadLine }
{}
