//! The outside: where files are read from and where text goes, as two traits that say what their devices mean, and the two calls
//! that move a whole file or a whole text across them.
//!
//! A device is known by what it tells and by what it counts: faults, and how many times a file was begun. The crate promises that
//! a file is begun once and read whole or not at all, that a text is written whole or cut at a fault, and that no call fails but by
//! a fault that the device counted, or for a file that is known to be absent. The devices in memory do exactly what their contracts say, failures included: they serve tests, and
//! callers that have the bytes at hand. The files of the system and its two output streams tell nothing of what they hold: they are
//! the trusted edge. The crate stands on `mov_base`, for the name of want of memory.
#![tactic(auto)]

mod disk_files;
mod faults;
mod mem_files;
mod mem_sink;
mod outside;
mod std_sink;
mod transfer;

pub use disk_files::DiskFiles;
pub use mem_files::MemFiles;
pub use mem_sink::MemSink;
pub use outside::{Failed, Files, Sink};
pub use std_sink::StdSink;
pub use transfer::{LoadFault, read_whole, write_whole};
