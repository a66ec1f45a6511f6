// One more board and one more scale, as an owner adds them.
#![tactic(auto)]

pub mod banded;
pub mod ordered;
#[cfg(test)]
mod tests;
