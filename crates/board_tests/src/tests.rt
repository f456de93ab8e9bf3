//! Tests of what lies between the files and the worlds of a tick.

mod boards;
mod equal;
mod machines;
mod outside;
mod stands;
mod tables;
mod words;
mod worlds;
