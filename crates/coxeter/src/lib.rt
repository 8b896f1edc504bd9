//! Coxeter groups of rank 1 to 8: the group as a value, and the theorems about its words that programs rest on.
//! docs/THEORY.md tells the mathematics in words.

#![tactic(auto)]

pub mod group;
pub mod theorems;
