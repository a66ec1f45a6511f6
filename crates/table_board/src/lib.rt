// The table board, made from records of policies, bads and edges.
#![tactic(auto)]

mod building;
pub mod laws;
pub mod making;
pub mod rows;
pub mod table;
