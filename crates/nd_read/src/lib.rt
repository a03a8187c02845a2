//! Scripts of calls on one array, as values, and a reader of scripts that are written as text.
//!
//! `read_script` reads from a text the array that a script starts with, and the calls on that array. `split_step` reads
//! one step of a call from the front of a line.
#![tactic(auto)]

pub mod laws;
mod reader;
mod script_call_types;

pub use reader::read_errors::{LineFault, ScriptError};
pub use reader::{Held, Script, ScriptReader, read_script, split_step};
pub use script_call_types::{Act, Call, HoldsArray, Question, Step};
