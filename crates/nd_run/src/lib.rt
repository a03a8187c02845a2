//! Scripts of calls on one array: the calls, a function that carries them out, and their replies as values and as text.
//!
//! `run::run` carries out a list of calls on an array and returns their replies. `program::drive` reads a script from
//! any reader, runs it, and writes its replies to any writer.
#![tactic(auto)]

// What callers use.
pub mod laws;
pub mod program;
mod replies;
pub mod run_calls;

// Carrying out a call.
mod concatenate_and_stack;
mod writes_through_views;

// Writing what is due at the end.
mod output_and_exit_status;
mod printer;

pub use nd_read::{Act, Call, HoldsArray, Question, Step};
pub use nd_steps::Cause;
pub use nd_text::{Flushes, Watched};
pub use replies::Reply;
