//! A reader of the lines of a script. It remembers whether memory was refused for one of them.

ghost use Rattle.std.specs.Prelude.{◌≡◌, ◌||◌, ◌++◌, ◌∷◌, [], false, OnOk, IfErr, IsTrue};
ghost use Rattle.nd_array_core.specs.ArrayMeaning.{meaning_of};
ghost use Rattle.nd_read.specs.ScriptCalls.{asked_call, boxed};
ghost use Rattle.nd_read.specs.ScriptReading.{GivesScript, StartMayLack, CallMayLack, read_or_number, call_in, start_in, lacked_memory, lacks_memory};

use super::read_errors::{LineFault, ScriptError};
use super::{Held, calls_from_words};
use crate::script_call_types::Call;
use nd_array_core::Array;
use nd_shape_and_slice::IxDyn;
use std::alloc::Global;

/// A reader of the lines of a script. It takes the memory for each line, and remembers whether memory was refused,
/// which no contract over the text alone can tell.
#[derive(Drop)]
pub struct ScriptReader {
    alloc: Global,
    lacked: bool,
}

impl ScriptReader {
    /// Returns a reader that was not refused memory yet.
    pub fn new(alloc: Global) -> ScriptReader
        ensures { lacked_memory result ≡ false }
    {
        ScriptReader {
            alloc,
            lacked: false,
        }
    }

    /// Returns whether memory was refused to this reader.
    pub fn lacked_memory(&self) -> bool
        ensures { result ≡ lacked_memory self.now }
    {
        self.lacked
    }

    /// Remembers that memory was refused, and returns the error for that.
    fn lack(&mut self) -> ScriptError
        ensures fault { result ≡ ScriptError.Memory }
        ensures lacked { IsTrue (lacked_memory self.new) }
    {
        self.lacked = true;
        ScriptError::Memory
    }

    /// Returns the array that the first line of a script writes. `number` is the number of the line, which an error
    /// names.
    pub(super) fn start(
        &mut self,
        number: usize,
        line: &[u8],
    ) -> Result<Array<i64, IxDyn>, ScriptError>
        ensures read { GivesScript meaning_of result (read_or_number number (start_in line.now)) }
        ensures memory { result ≡ Err ScriptError.Memory → StartMayLack line.now }
        ensures lacked { lacked_memory self.new ≡ (lacks_memory result || lacked_memory self.old) }
    {
        match calls_from_words::start(self.alloc, line) {
            Ok(start) => Ok(start),
            Err(LineFault::Bad) => Err(ScriptError::BadLine(number)),
            Err(LineFault::Memory) => Err(self.lack()),
        }
    }

    /// Returns the call that a line writes. `number` is the number of the line, which an error names.
    pub(super) fn call(
        &mut self,
        number: usize,
        line: &[u8],
    ) -> Result<Call<i64, Held>, ScriptError>
        ensures read { GivesScript (asked_call (boxed meaning_of)) result (read_or_number number (call_in line.now)) }
        ensures memory { result ≡ Err ScriptError.Memory → CallMayLack line.now }
        ensures lacked { lacked_memory self.new ≡ (lacks_memory result || lacked_memory self.old) }
    {
        match calls_from_words::call(self.alloc, line) {
            Ok(call) => Ok(call),
            Err(LineFault::Bad) => Err(ScriptError::BadLine(number)),
            Err(LineFault::Memory) => Err(self.lack()),
        }
    }

    /// Returns an empty list of calls.
    pub(super) fn list(&self) -> Vec<Call<i64, Held>>
        ensures { result.items ≡ [] }
    {
        Vec::new(self.alloc)
    }

    /// Appends `call` to `calls`.
    pub(super) fn keep(
        &mut self,
        calls: &mut Vec<Call<i64, Held>>,
        call: Call<i64, Held>,
    ) -> Result<(), ScriptError>
        ensures kept { OnOk result (calls.new.items ≡ calls.old.items ++ call ∷ []) }
        ensures fault { IfErr result (λ fault. fault ≡ ScriptError.Memory) }
        ensures lacked { lacked_memory self.new ≡ (lacks_memory result || lacked_memory self.old) }
    {
        match calls.push(call) {
            Ok(()) => Ok(()),
            Err(_) => Err(self.lack()),
        }
    }
}
