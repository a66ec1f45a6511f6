// What the lines of a text say, and the rules that they keep.
#![tactic(auto)]

pub mod display;
pub mod fault;
pub mod kind;
pub mod laws;
pub mod listed;
pub mod record;
pub mod rules;
