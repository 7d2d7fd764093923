//! Made cases, whose answers are compared with what plain twins tell.

mod columns;
mod comparing;
mod limits;
mod links;
mod listing;
mod networks;
mod trying;

pub(crate) use columns::tell_columns;
pub(crate) use links::tell_links;
pub(crate) use networks::tell_networks;
