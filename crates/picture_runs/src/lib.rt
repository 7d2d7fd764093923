//! Pictures of plans, from words to a status and one text.
//!
//! Promises that a run draws exactly the plans that are valid, with the light that is asked for, and refuses as the
//! verifier does. Begin at `picture_run`, whose words are in `specs/PictureRuns.antt`. Stands on `run_ends`,
//! `option_words` for what the words give, and `plan_picture`; nothing here searches.
#![tactic(auto)]

mod running;
mod words;

pub use command_texts::Status;
pub use running::picture_run;
