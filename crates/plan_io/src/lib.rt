//! Texts that come in and texts that go out, each over an object that counts its faults.
//!
//! Promises of `read_whole` that it answers the whole text, or that the shelf's count of faults rose,
//! or that the text is too long; of `write_whole` that all was written, or that exactly the first so
//! many bytes were, and the sink's count rose. Begin at `Shelf` and `Sink`, whose words are in
//! `specs/Causes.antt`. Stands on std and `thiserror`. What a real file or stream holds is left open.
#![tactic(auto)]

mod counts;
mod fail_list;
mod failed;
mod file_shelf;
mod gate;
mod held_texts;
mod mem_shelf;
mod mem_sink;
mod out_sink;
mod reading;
mod shelf;
mod sink;
mod sure_shelf;
mod sure_sink;
mod text_list;
mod writing;

pub use failed::Failed;
pub use file_shelf::FileShelf;
pub use gate::{Gate, MAX_WORKERS, NoGate, Standing};
pub use mem_shelf::MemShelf;
pub use mem_sink::MemSink;
pub use out_sink::OutSink;
pub use reading::{ReadWhole, read_whole};
pub use shelf::Shelf;
pub use sink::Sink;
pub use sure_shelf::SureShelf;
pub use sure_sink::SureSink;
pub use writing::{WriteFault, write_whole};
