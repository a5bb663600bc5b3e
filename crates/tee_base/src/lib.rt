//! The base of the runtime: codes and limits, bytes, sources and sinks with their counts of faults.
#![tactic(auto)]

mod bytes;
mod codes;
mod fakes;
mod io;
pub mod keys;
pub mod limits;
mod numbers;
mod streams;
mod transfer;

pub use bytes::{Bytes, NoMemory};
pub use codes::{Code, Flags, Origin};
pub use fakes::{MemSink, MemSource, Schedule, SureSource};
pub use io::{Sink, SinkFailed, Source, SourceFailed};
pub use numbers::{find_lowest_free, lowest_free_is_least};
pub use streams::{StdSink, StdSource};
pub use transfer::{ReadAnswer, WriteFault, read_all, write_all};
