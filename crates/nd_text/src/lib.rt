//! Texts as lines, words and numbers, which are read from a reader and written to a writer that remember failures.
#![tactic(auto)]

// Streams.
pub mod read_input;
mod watched_streams;

// Reading.
pub mod lines_and_words;
pub mod number_reading;
mod script_keywords;

// Writing.
pub mod buffered_printing;
pub mod laws;
mod output_page;

pub use output_page::Page;
pub use script_keywords::Keyword;
pub use watched_streams::{Flushes, Watched};
