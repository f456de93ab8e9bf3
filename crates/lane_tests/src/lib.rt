//! Tests of the values of expressions for many rows side by side: what lanes hold is the value of each row for itself.
#![tactic(auto)]

#[cfg(test)]
mod agreement;
#[cfg(test)]
mod equal;
#[cfg(test)]
mod expressions;
#[cfg(test)]
mod forms;
#[cfg(test)]
mod sample;
#[cfg(test)]
mod slots;
