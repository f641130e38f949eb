//! Sources and sinks of bytes: the edge to the outside, with a count of the faults met there.
#![tactic(auto)]

mod edge;
mod memory;
mod sink;
mod source;
mod sure;
mod transfer;

pub use edge::{ReaderSource, WriterSink};
pub use memory::{MemorySink, MemorySource};
pub use sink::{GiveFault, Sink};
pub use source::{Failed, Source};
pub use sure::{SureSink, SureSource};
pub use transfer::{ReadFault, read_all, write_all};
