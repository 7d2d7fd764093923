//! What the words behind a command give to its names and options, read by clap.
//!
//! Promises for each name and option the word that it is given, exactly where the words give each name one and nothing
//! two. Begin at `given_in`; what words give is in `specs/Given.antt`, which has no word of clap. Stands on `clap` alone,
//! writes none of its texts, and has no word for help or the version.
#![tactic(auto)]

mod line;
mod reading;

pub use reading::given_in;
