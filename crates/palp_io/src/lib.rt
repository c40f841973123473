//! Bytes in and bytes out: what a source of bytes and a sink for bytes are, by what each call
//! does to the bytes and to a count of faults, with sources and sinks in memory, whose every
//! answer is known, and with adapters of the standard streams. It stands on `lattice_core`, whose
//! `NoMemory` is the answer to want of memory, and on `std`. Its central theorem: over any calls
//! of a source, the bytes that were given, one after another, are the front of what it had left,
//! and a call that fails has the rise of the count as its cause.
#![tactic(auto)]

mod giving;
mod laws;
mod listing;
mod memory_sink;
mod memory_source;
mod next_bytes;
mod streams;
mod sure_source;
mod taking;

pub use giving::{Gave, Sink};
pub use laws::{count_law, giving_law, taking_law};
pub use memory_sink::MemSink;
pub use memory_source::MemSource;
pub use streams::{StdSink, StdSource};
pub use sure_source::NeverFails;
pub use taking::{Source, Took};
