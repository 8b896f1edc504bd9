//! Jobs: from a job's line to the line that answers it.

#![tactic(auto)]

pub mod answering;
pub mod errors;
pub mod faults;
pub mod letters;
pub mod word_jobs;
