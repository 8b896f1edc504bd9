//! Refusals: every refusal has a number, a place and a layer, and each layer's faults say which.

#![tactic(auto)]

pub mod layer;
pub mod refusal;
pub mod report;
