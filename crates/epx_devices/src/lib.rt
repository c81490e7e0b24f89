//! Devices: the sources of logs, the sinks of reports and the savers of states, and the two
//! transfers over them, reading a whole log and writing a whole text.
#![tactic(auto)]

mod device;
mod either_source;
mod file_saver;
mod fuse;
mod fuse_sink;
mod fuse_source;
mod kept_source;
mod laws;
mod memory_saver;
mod memory_sink;
mod memory_source;
mod opener;
mod path_source;
mod retry;
mod saver;
mod std_sink;
mod std_source;
mod transfer;
mod transferred;

pub use device::{DeviceFault, Sink, Source};
pub use either_source::EitherSource;
pub use file_saver::FileSaver;
pub use fuse_sink::FuseSink;
pub use fuse_source::FuseSource;
pub use kept_source::KeptSource;
pub use laws::{all_are_returned, all_are_the_known, file_returns_all, path_delivers_its_file};
pub use memory_saver::MemorySaver;
pub use memory_sink::MemorySink;
pub use memory_source::MemorySource;
pub use opener::Opener;
pub use path_source::PathSource;
pub use saver::Saver;
pub use std_sink::StdSink;
pub use std_source::StdSource;
pub use transfer::{LogPart, read_log, read_on, write_out};
