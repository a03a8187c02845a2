//! Storages of elements, and loops over the elements that a layout names, lane by lane.
//!
//! - `storage`: the storages of arrays: an owned vector, a borrowed slice, a region
//! - `elements`: loops over all elements: folding, mapping, filling, assigning, comparing, hashing, cloning into a
//!   vector
//! - `along`: loops over the lanes of one axis
//! - `growth`: moving the elements of a vector into the order of a layout
//! - `base`: the vectors that new arrays are made of
#![tactic(auto)]

pub mod along;
pub mod base;
pub mod elements;
pub mod growth;
pub mod storage;
