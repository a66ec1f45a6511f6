// Plays boards and scales.
#![tactic(auto)]

#[cfg(test)]
mod layers;
#[cfg(test)]
mod making;
#[cfg(test)]
mod scales_played;
