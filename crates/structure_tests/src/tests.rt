//! Tests of each structure.

mod areas;
mod circles;
mod drawn;
mod equal;
mod nearest;
mod orders;
mod ranges;
mod ranks;
mod sweeps;
