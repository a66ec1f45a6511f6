// The played cases, proved from the definitions of histories, boards and scales.
#![tactic(auto)]

pub mod laws;
