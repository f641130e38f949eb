//! Ports of blobs: where the bytes of parts are kept and read, with a count of the faults and of the reads.
#![tactic(auto)]

mod counts;
mod memory;
mod port;
mod sure;

pub use counts::rises_add_up;
pub use memory::MemoryPort;
pub use pj_io::Failed;
pub use port::{KeepFault, Kept, Port};
pub use sure::{MemoryBlob, SurePort};
