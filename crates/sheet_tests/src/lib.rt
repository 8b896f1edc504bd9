//! Tests of sheets, from the bytes of an input to the line that is printed for them.

#![tactic(auto)]

#[cfg(test)]
mod tests;
