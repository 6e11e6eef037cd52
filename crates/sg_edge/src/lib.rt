//! What the simulator reads and writes: three input streams and two output streams, and stand-ins for both in memory.
//! Whoever reads real files or writes to a real terminal implements [`Files`] and [`Sinks`]. All layers above know
//! these two traits alone, mostly by `load`, which reads an input stream whole, and `write_all`.
//! It stands on `sg_base`.
#![tactic(auto)]

mod failing_calls;
mod files;
mod loading;
mod mem_files;
mod mem_part;
mod mem_sinks;
mod mem_stream;
mod sinks;
mod sure_files;
mod sure_sinks;

pub use files::{Failed, Files, Part, Stage};
pub use loading::{Loaded, ReadError, load, read_whole};
pub use mem_files::MemFiles;
pub use mem_sinks::MemSinks;
pub use sinks::{Sinks, Stream, write_all};
pub use sure_files::SureFiles;
pub use sure_sinks::SureSinks;
