//! For rows of the gate alone, no command uses it: one pool behind a lock, the seats of those who work on it at once, and
//! their work.
//!
//! Promises that each holding of the lock is one event of the machine, whoever makes the call and when; that whenever
//! the lock is free the pool is in a sound state of the search that the hub's type names, in which each answer was given;
//! and that the pool of an ended hub has accepted just what all seats have booked. Of a worker that ends, and not for want
//! of memory, it says that some state of that search has nothing left to do, which is no fact about this hub's pool. Begin
//! at `Hub`, what lies under its lock is `Kept`. Stands on `pool_desk` for what a call does, and on `search_worker` for what a
//! worker does, which no lock covers. That workers run at the same time, and that a wait ends, no contract says.
#![tactic(auto)]

mod hub;
mod kept;
mod naming;
mod office;
mod seat;
mod shared;
mod working;

pub use hub::Hub;
pub use kept::Kept;
pub use naming::Naming;
pub use seat::Seat;
pub use working::work;
