//! Sheets: the lines that describe a group and a kind, read one after another.

#![tactic(auto)]

pub mod draft_lines;
pub mod drafts;
pub mod faults;
mod fitting;
pub mod kinds;
pub mod reading;
mod rows;
pub mod theorems;
