//! What the pool keeps of a node: the node itself, the place of its round, and the region of an open leaf; and the state
//! of a search, which has all nodes.
//!
//! Promises that each change of a node is the one that the events of `search_machine` make of it, and that none but a new
//! node takes memory. Begin at `PoolNode` and `PoolRound`; what they keep beside a node of the machine stands in
//! `specs/Rounds.antt`. How a `SearchState` shows the machine's state stands in `specs/SearchStates.antt`. Stands on
//! `plan_base`, `link_steps`, `arc_restrict`, `path_pricing`, `column_pool`, `proof_tree`, `cut_values`, `bound_assembly`,
//! `branch_tree`, `dual_versions` and `search_machine`. Which node changes, and when, is left to `pool_core`.
#![tactic(auto)]

mod ground;
mod node;
mod rank;
mod reason;
mod round;
mod search_state;
mod shared;
mod slot;

pub use ground::{Ground, Plot};
pub use node::PoolNode;
pub use rank::{Rank, lesser};
pub use reason::Reason;
pub use round::PoolRound;
pub use search_state::SearchState;
pub use slot::{Slot, first_free, free_count, give_back, holder};
