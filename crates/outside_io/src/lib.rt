//! Files and a sink, behind traits that count their faults, with the real ones and fakes in memory.
//!
//! The contracts of `Files` and `Sink` say what is known of bytes that are read and taken, and that a call
//! fails only where a count of faults rises. For example, `read_all` of a `MemFiles` that holds `a.c` gives
//! its bytes, and `Fault` only where one of its reads was listed to fail.
//!
//! `specs/Io.antt` states what is known of faults and fronts, `specs/Memory.antt` what the fakes do, and
//! `specs/Host.antt` what is told of the system; `read_all` and `write_all` promise what a whole text needs.
#![tactic(auto)]

mod calls;
mod files;
mod host;
mod memory_files;
mod memory_sink;
mod reading;
mod sink;
mod writing;

pub use files::{Failed, Files};
pub use host::{HostFiles, HostOut};
pub use memory_files::MemFiles;
pub use memory_sink::MemSink;
pub use reading::{MAX_BYTES, ReadError, read_all};
pub use sink::Sink;
pub use writing::write_all;
