// What jobs can write: complete and started histories of a table's nodes, and when one offends a policy.
#![tactic(auto)]

pub mod laws;
