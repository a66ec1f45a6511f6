// Reads a text of records, line by line.
#![tactic(auto)]

mod calls;
pub mod laws;
mod line;
pub mod lists;
mod number;
pub mod reading;
pub mod report;
mod store;
mod walk;
