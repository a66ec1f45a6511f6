// Tables of jobs, made from the records of their nodes and definitions.
#![tactic(auto)]

pub mod making;
pub mod node;
pub mod table;
