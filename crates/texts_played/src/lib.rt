// Plays texts.
#![tactic(auto)]

#[cfg(test)]
mod lines;
#[cfg(test)]
mod lists;
#[cfg(test)]
mod long;
