//! The columns of a demand.

ghost use Rattle.std.specs.Prelude.{◌≡◌, ◌<◌, length};

use crate::asking::Question;
use crate::telling::tell_path;
use column_pool::{Added, ColumnPool};
use gate_networks::path_of;
use plan_base::DemandId;
use std::alloc::Global;

/// Adds whether the path of a word becomes a column or is one.
fn tell_added(
    alloc: Global,
    pool: &mut ColumnPool,
    demand: DemandId,
    word: &str,
    text: &mut String,
) -> Option<()>
    requires { demand.0 < length pool.old }
    ensures { length pool.new ≡ length pool.old }
{
    let path = path_of(alloc, word)?;
    match pool.add(demand, &path).ok()? {
        Added::New => text.push_str(" new").ok(),
        Added::There => text.push_str(" there").ok(),
    }
}

/// Adds the columns of a demand in their order.
fn tell_all(pool: &ColumnPool, demand: DemandId, text: &mut String) -> Option<()>
    requires { demand.0 < length pool.now }
{
    for place in 0..pool.count(demand) {
        tell_path(pool.column(demand, place), text)?;
    }
    Some(())
}

/// Adds for each path from the third word on whether it becomes a column or is one.
fn tell_each(
    question: Question<'_>,
    pool: &mut ColumnPool,
    demand: DemandId,
    text: &mut String,
) -> Option<()>
    requires { demand.0 < length pool.old }
    ensures { length pool.new ≡ length pool.old }
{
    for word in question.row.split(' ').skip(3) {
        tell_added(question.alloc, pool, demand, word, text)?;
    }
    Some(())
}

/// Adds for each path whether it becomes a column or is one, and then the columns.
pub(crate) fn tell_columns(question: Question<'_>, text: &mut String) -> Option<()> {
    let demand = DemandId(question.number(2));
    if demand.0 >= question.inst.demands() {
        return None;
    }
    let mut pool = ColumnPool::new(question.alloc, question.inst).ok()?;
    tell_each(question, &mut pool, demand, text)?;
    tell_all(&pool, demand, text)
}
