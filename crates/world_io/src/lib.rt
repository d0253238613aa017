//! The outside of the program: where a script comes from, where a report goes, and a gate that a test can close.
//!
//! It stands on nothing but std, and whatever reads a script or writes a report stands on it. The layer above
//! uses that a source gives the bytes it has left in order, that a sink appends what it took, and that a count
//! of faults rises wherever a call fails. Sources and sinks in memory tell their bytes; the real ones do not.
#![tactic(auto)]

mod fault_plan;
mod gate;
mod mem_sink;
mod mem_source;
mod sink;
mod source;
mod std_sink;
mod std_source;

pub use gate::{Gate, NoGate};
pub use mem_sink::MemSink;
pub use mem_source::MemSource;
pub use sink::{Sink, write_all};
pub use source::{Failed, Source};
pub use std_sink::StdSink;
pub use std_source::StdSource;
