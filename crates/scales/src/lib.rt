// Scales: what an effort is, how efforts are joined, and which is at most another.
#![tactic(auto)]

pub mod efforts;
pub mod history;
pub mod peak;
pub mod scale;
pub mod sum;
