//! Tests of plans, from the text of a script to its plan in normal form.
#![tactic(auto)]

#[cfg(test)]
mod plans;
#[cfg(test)]
mod scripts;
#[cfg(test)]
mod shown;
#[cfg(test)]
mod ways;
