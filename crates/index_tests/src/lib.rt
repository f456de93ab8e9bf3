//! Tests of the indices of a world: what they answer is what a scan gives, over made worlds and for every way.
#![tactic(auto)]

#[cfg(test)]
mod agreement;
#[cfg(test)]
mod battle;
#[cfg(test)]
mod worlds;
