//! Networks as texts: which text spells which network, the reader that says so or tells the first fault,
//! and the writer of the canonical text, which spells its network.
//! Begin at `read_network`, whose contract is in the words of `specs/Spelling.antt`, with the grammar in
//! `specs/Grammar.antt`, and at `write_network` and `NetworkFile::well_formed`, with `specs/Writing.antt` and
//! `specs/WellFormed.antt`. Stands on `snd_reader` for tokens and the forms that grammars are made of.
#![tactic(auto)]

mod draft;
mod file;
pub mod laws;
mod limits;
mod lists;
mod part;
mod readers;
mod reading;
mod record;
mod resolve;
mod sections;
mod verdicts;
mod well_formed;
mod writing;

pub use file::{DemandRecord, LinkRecord, NetworkFile, NodeRecord};
pub use limits::MAX_NAME_BYTES;
pub use reading::read_network;
pub use snd_reader::{Name, TextFault, Wanted};
pub use writing::write_network;
