//! Networks of a line and lists of a word, for programs whose files of rows are about small networks.
//!
//! A row is `NAME DIRECTION NODES : LINK, LINK, .. : DEMAND, DEMAND, ..`, where DIRECTION is `directed`, `undirected` or
//! `bidirected`, a LINK is `SOURCE TARGET PRE ROUTING` and then, for each module, `/ CAPACITY COST`, and a DEMAND is `SOURCE TARGET LOAD`
//! and, where the arcs of its path are limited, `/ LIMIT`; `-` stands for no demand.
//! Beside them: what modules cost and which simple paths there are, found by trying, for the plain twins of these programs.
//! Begin at `network_of`. Stands on `plan_base` and `link_steps`, serves programs for the gate alone, and promises nothing
//! but that a table is that of its instance.
#![tactic(auto)]

mod costs;
mod lists;
mod networks;
mod numbers;
mod tables;
mod walks;

pub use costs::module_costs;
pub use lists::{list_of, path_of, prices_of};
pub use networks::{Network, find, network_of};
pub use numbers::numbers_of;
pub use tables::table_of;
pub use walks::{has, simple_paths};
