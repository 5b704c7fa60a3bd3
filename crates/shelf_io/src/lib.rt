//! The outside: named files, a taker of bytes, a link between the two sides, and a gate that workers ask.
//! The traits, their forms in memory and those over the system are the project's own.
#![tactic(auto)]

mod call;
mod entries;
mod file_shelf;
mod firm_link;
mod firm_shelf;
mod firm_sink;
mod gate;
mod link;
mod memory_link;
mod memory_shelf;
mod memory_sink;
mod messages;
mod open_gate;
mod plan;
mod queue;
mod reading;
mod refused;
mod shelf;
mod sink;
mod std_sink;
mod system_fault;
mod writing;

pub use crate::call::Call;
pub use crate::file_shelf::FileShelf;
pub use crate::firm_link::FirmLink;
pub use crate::firm_shelf::FirmShelf;
pub use crate::firm_sink::FirmSink;
pub use crate::gate::{Gate, Say};
pub use crate::link::Link;
pub use crate::memory_link::MemoryLink;
pub use crate::memory_shelf::MemoryShelf;
pub use crate::memory_sink::MemorySink;
pub use crate::open_gate::OpenGate;
pub use crate::reading::{fill, read_whole};
pub use crate::refused::Refused;
pub use crate::shelf::Shelf;
pub use crate::sink::Sink;
pub use crate::std_sink::StdSink;
pub use crate::writing::{write_all, write_file};
