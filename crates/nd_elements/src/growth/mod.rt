//! Moving elements into fresh storage with another layout.

pub mod relayout_elements;
