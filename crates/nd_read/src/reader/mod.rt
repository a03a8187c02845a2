//! Reading a script from a text.

ghost use Rattle.std.specs.Prelude.{◌≡◌, ◌||◌, ℕ, ◌+◌, ◌^◌, ◌<◌, length, IfOk};
ghost use Rattle.nd_array_core.specs.ArrayMeaning.{meaning_of};
ghost use Rattle.nd_text.specs.LinesAndWords.{lines_of};
ghost use Rattle.nd_read.specs.ScriptCalls.{asked_calls, boxed};
ghost use Rattle.nd_read.specs.ScriptReading.{AskedScript, IsScript, IsFirstBad, MayLackIn, MayLackInCalls, GivesScript, asked_script, calls_from, script_from, lacked_memory, lacks_memory};

mod calls_from_words;
mod lines_of_script;
pub mod read_errors;
mod words_of_line;

use crate::script_call_types::Call;
pub use calls_from_words::split_step;
pub use lines_of_script::ScriptReader;
use nd_array_core::Array;
use nd_shape_and_slice::IxDyn;
use nd_text::lines_and_words::{is_wordless, split_line};
use read_errors::ScriptError;

/// The type that holds an array in a call that is read from a text. It is a box, because each call of a long list has
/// the size of the largest one.
pub type Held = Box<Array<i64, IxDyn>>;

/// A script: the array that it starts with, and the calls on it.
#[derive(Drop)]
pub struct Script {
    /// The array that the script starts with.
    pub start: Array<i64, IxDyn>,
    /// The calls, in order.
    pub calls: Vec<Call<i64, Held>>,
}

/// Returns the calls that the lines of `text` write. The number of the first line is `first`; lines without words are
/// skipped.
fn calls(
    reader: &mut ScriptReader,
    first: usize,
    text: &[u8],
) -> Result<Vec<Call<i64, Held>>, ScriptError>
    requires { first + length text.now < 2 ^ 64 }
    ensures read { GivesScript (λ v. asked_calls (boxed meaning_of) v.items) result (calls_from first (lines_of text.now)) }
    ensures stopped { result ≡ Err ScriptError.Memory → MayLackInCalls (lines_of text.now) }
    ensures lacked { lacked_memory reader.new ≡ (lacks_memory result || lacked_memory reader.old) }
{
    let mut calls = reader.list();
    let mut rest = text;
    let mut number = first;
    while !rest.is_empty() {
        let (line, after) = split_line(rest);
        let here = number;
        rest = after;
        number += 1;
        if is_wordless(line) {
            continue;
        }
        let call = reader.call(here, line)?;
        reader.keep(&mut calls, call)?;
    }
    Ok(calls)
}

/// Returns the script that `text` writes. It reads line by line, up to the first bad line or the first one for which
/// memory is refused.
fn whole_script(reader: &mut ScriptReader, text: &[u8]) -> Result<Script, ScriptError>
    ensures read { GivesScript asked_script result (script_from 1 (lines_of text.now)) }
    ensures stopped { result ≡ Err ScriptError.Memory → MayLackIn (lines_of text.now) }
    // Once memory was refused, the error is `ScriptError::Memory`: no later line is found bad.
    ensures lacked { lacked_memory reader.new ≡ (lacks_memory result || lacked_memory reader.old) }
{
    let mut rest = text;
    let mut number = 1;
    while !rest.is_empty() {
        let (line, after) = split_line(rest);
        if !is_wordless(line) {
            let start = reader.start(number, line)?;
            let calls = calls(reader, number + 1, after)?;
            return Ok(Script { start, calls });
        }
        rest = after;
        number += 1;
    }
    Err(ScriptError::BadLine(number))
}

/// Returns the script that `text` writes. Once a line was found bad, no memory is taken; once memory was refused, no
/// line is read.
pub fn read_script(reader: &mut ScriptReader, text: &[u8]) -> Result<Script, ScriptError>
    // The script that is returned is the one that the lines write.
    ensures found { IfOk result (λ s. IsScript (lines_of text.now) (asked_script s)) }
    // If the lines write a script, then it is returned, unless memory runs out.
    ensures only { (s : AskedScript) → IsScript (lines_of text.now) s → GivesScript asked_script result (Ok s) }
    // The number in the error `BadLine` is that of the first bad line.
    ensures bad { (n : ℕ) → result ≡ Err (ScriptError.BadLine n) → IsFirstBad (lines_of text.now) n }
    // If a line is bad, then the error is `BadLine` with the number of the first bad line, unless memory runs out.
    ensures bad_only { (n : ℕ) → IsFirstBad (lines_of text.now) n → GivesScript asked_script result (Err n) }
    // Memory runs out only in a line that takes memory for its words, or is a call; the lines before it are good.
    ensures memory { result ≡ Err ScriptError.Memory → MayLackIn (lines_of text.now) }
    // Once memory was refused, the error is `ScriptError::Memory`, whatever the later lines are.
    ensures lacked { lacked_memory reader.new ≡ (lacks_memory result || lacked_memory reader.old) }
{
    whole_script(reader, text)
}
