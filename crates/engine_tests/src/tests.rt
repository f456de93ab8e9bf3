//! Tests of each step of a tick, and the scripts that they are tried on.

mod endings;
mod items;
mod parts;
mod towers;
mod values;
mod writing_out;
