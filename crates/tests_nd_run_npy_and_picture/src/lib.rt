//! Tests of what programs run, by public calls: scripts of calls, `.npy` files and pictures.
#![tactic(auto)]

#[cfg(test)]
pub mod npy;
#[cfg(test)]
pub mod picture;
#[cfg(test)]
mod run;
