//! The outside as the program sees it: a folder of files, and a sink that takes text.
//!
//! `Folder` and `Sink` say what a call may answer and what it changes. `MemoryFolder`, `SureFolder` and
//! `MemorySink` tell what they hold, so that contracts can speak of it; `HostFolder` and `StdSink` are the
//! real thing, and tell nothing. The calls of a `MemoryFolder` can be made to fail, those of a `SureFolder`
//! never do.
#![tactic(auto)]

mod causes;
mod file_map;
mod folder;
mod host;
mod host_folder;
mod memory_folder;
mod memory_sink;
mod sink;
mod std_sink;
mod sure_folder;
mod transfer;

pub use folder::{Folder, Taken, Trouble};
pub use host_folder::HostFolder;
pub use memory_folder::{Call, MemoryFolder};
pub use memory_sink::MemorySink;
pub use sink::Sink;
pub use std_sink::StdSink;
pub use sure_folder::SureFolder;
pub use transfer::{FetchFault, append_all, read_whole, say};
