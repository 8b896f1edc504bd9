//! Carriers: what stands for one element of one group, the chamber, and one-line notation.

#![tactic(auto)]

pub mod carrier;
pub mod chamber;
mod coefficients;
mod entries;
pub mod faults;
pub mod one_line;
mod opening;
mod point;
