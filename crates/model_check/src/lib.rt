//! The instance that a network file and a model file stand for.
//!
//! Promises that an instance that is answered is what the two files stand for, in grains and in the
//! order of the file, and that a refusal is the first one in its order. Begin at `to_instance`, whose
//! words are in `specs/Reading.antt` and `specs/Refusals.antt`; which values of a model are planned
//! stands in `specs/Profile.antt`. Stands on `plan_base`, and on the types of `snd_network` and
//! `snd_model`. Reading the texts is left to those two.
#![tactic(auto)]

mod fault;
pub mod laws;
mod profile;
mod shared;
mod top;
mod valuing;

pub use fault::CheckFault;
pub use top::to_instance;
