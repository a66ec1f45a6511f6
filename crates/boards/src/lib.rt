// Boards: the interface behind which policies stand, and the boards that are made of no records.
#![tactic(auto)]

pub mod board;
pub mod joined;
pub mod journal;
pub mod quota;
mod side;
pub mod translated;
