//! Tests of a whole run, a module for each thing that decides it.

mod equal;
mod limits;
mod outside;
mod report;
mod run;
mod spectators;
mod words;
mod workers;
