//! The outside: where bytes come from and where they go. Three traits, of sources, sinks and shelves of files; forms of
//! them in memory and over the system; and the loops that read or write a whole text.
#![tactic(auto)]

mod copying;
mod fault;
mod folder_shelf;
mod memory_shelf;
mod memory_sink;
mod memory_source;
mod named;
mod shelf;
mod sink;
mod source;
mod standard_sink;
mod standard_source;
mod stops;
mod sure_shelf;
mod sure_sink;
mod sure_source;
mod transfers;

pub use fault::IoFault;
pub use folder_shelf::DirShelf;
pub use memory_shelf::MemShelf;
pub use memory_sink::MemSink;
pub use memory_source::MemSource;
pub use named::Named;
pub use shelf::Shelf;
pub use sink::Sink;
pub use source::Source;
pub use standard_sink::StdSink;
pub use standard_source::StdSource;
pub use sure_shelf::SureShelf;
pub use sure_sink::SureSink;
pub use sure_source::SureSource;
pub use transfers::{Unread, deliver, read_file, read_source};
