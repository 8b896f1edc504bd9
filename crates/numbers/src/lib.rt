//! Kinds of exact number: the trait that each of them keeps, whole numbers, and golden numbers a + b φ.

#![tactic(auto)]

mod bounded;
pub mod coefficient;
pub mod golden;
pub mod number;
pub mod whole;
