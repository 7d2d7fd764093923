//! How a run of a program about named texts ends, whatever the program does with them.
//!
//! A program is its usage line and its work. Promises, of any: that its status says what was begun and written, that each
//! answer has its cause, and that it has no other ends unless something outside fails. Begin at `specs/Ends.antt`;
//! `proofs/Ending.antt` has the lemmas for the top call of a program, `proofs/Finding.antt` those for what it finds.
//! Stands on `command_texts`; what the program does is left to the crates above.
#![tactic(auto)]

mod program;
mod unread;
mod words;

pub use program::{code_of, end_of_run};
pub use unread::{misread, usage};
pub use words::words_given;
