//! Tests of tokens, trees, typed scripts and values, and what they are told by.

mod equal;
mod faults;
mod lexer;
mod reading;
mod shown;
mod trees;
mod typed;
mod values;
