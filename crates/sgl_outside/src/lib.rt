//! The outside as a program sees it: a folder of files, a sink for bytes, a gate that workers pass, and each of them in memory.
#![tactic(auto)]

mod bounded_bytes;
mod folders;
mod gates;
mod memory_folders;
mod memory_sinks;
mod shelves;
mod sinks;

pub use folders::Folder;
pub use gates::{FIRST_SPECTATOR, Gate, MeetGate, OpenGate, StepGate};
pub use memory_folders::{MemFolder, SteadyFolder};
pub use memory_sinks::{MemSink, SteadySink};
pub use sinks::{Sink, put};

/// A fault of reading or writing. It comes only where the count of faults of the folder or sink that answers it rose,
/// or stands at its last value, 2^64 - 1.
#[derive(Clone, Copy, Debug, PartialEq, Eq)]
pub struct Failed;
