//! Model texts: which demands, links and paths a plan has to do with.
//!
//! Promises of `read_model` that it gives a model exactly where the text spells it, and else the first
//! fault with its place; of `write_model` that it writes the canonical text, which spells the model.
//! Begin at `read_model`, whose words are in `specs/Spelling.antt`, and at the model table in
//! `specs/Table.antt`. Stands on `snd_lexer` and `snd_reader`. Which models can be planned is left to
//! the crates above.
#![tactic(auto)]

mod draft;
mod file;
mod keys;
pub mod laws;
mod pairs;
mod reading;
mod setting;
mod values;
mod verdicts;
mod writing;

pub use file::ModelFile;
pub use keys::{KEYS, Key};
pub use reading::read_model;
pub use setting::Setting;
pub use snd_reader::{TextFault, Wanted};
pub use values::{
    CapacityModel, DemandModel, FixedChargeModel, HopModel, LinkModel, PathModel, RoutingModel,
    SurvivabilityModel,
};
pub use writing::write_model;
