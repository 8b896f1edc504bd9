//! Calls over words, on every carrier.

#![tactic(auto)]

pub mod calls;
pub mod descents;
pub mod elements;
pub mod faults;
mod kept;
mod reading;
mod stepping;
pub mod theorems;
mod view;
