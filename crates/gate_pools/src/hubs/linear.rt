//! Dialogues of two seats with one hub whose calls stand in one history.

ghost use Rattle.std.specs.Prelude.{◌≡◌, All, IfSome};

use super::calls::Common;
use super::ends::tell_plan;
use crate::calling::tell_published;
use linear_hub::{LinearHub, LinearSeat, Naming, work_linear};
use plan_io::NoGate;
use pool_core::Pool;
use search_worker::Office;
use std::alloc::Global;
use std::marker::Brand;
use std::sync::Wait;

/// Makes a call by a seat, and adds the answer. None where it is no call, and where memory is wanting.
fn tell_seat<N: Naming, R: Wait, W: Wait + Drop>(
    common: &Common<R>,
    hub: &LinearHub<N, W>,
    seat: &mut LinearSeat<N, W>,
    call: &str,
    text: &mut String,
) -> Option<()>
    requires { seat.old.pass.table_id ≡ hub.now.turns.table.shared.table_id }
    ensures { seat.new.pass.table_id ≡ hub.now.turns.table.shared.table_id }
{
    let Ok(()) = hub.may_call(seat) else {
        return None;
    };
    let (kind, rest) = call.split_once(' ').unwrap_or((call, ""));
    match kind {
        "prices" => {
            let slot = rest.parse::<u32>().ok()?;
            tell_published(hub.prices(common.rt, seat, slot).ok()?, text)
        }
        "read" => tell_published(seat.read(rest.parse::<u32>().ok()?).ok()?, text),
        "work" => {
            work_linear(common.rt, common.alloc, hub, seat, &NoGate).ok()?;
            text.push_str(" done").ok()
        }
        "calls" => write!(text, " {}", seat.calls()).ok(),
        _ => common.tell::<N, LinearHub<N, W>>(hub, seat, kind, rest, text),
    }
}

/// Two seats of one hub.
#[derive(Drop)]
struct Pair<'h, N: Naming, W: Wait + Drop> {
    hub: &'h LinearHub<N, W>,
    first: LinearSeat<N, W>,
    second: LinearSeat<N, W>,
    ghost first_of: { first.pass.table_id ≡ hub.now.turns.table.shared.table_id },
    ghost second_of: { second.pass.table_id ≡ hub.now.turns.table.shared.table_id },
}

/// The two seats of a hub.
fn two_seats<N: Naming, R: Wait + Drop>(
    hub: &LinearHub<N, R>,
    mut seats: Vec<LinearSeat<N, R>>,
) -> Option<(LinearSeat<N, R>, LinearSeat<N, R>)>
    requires { All (λ s. s.pass.table_id ≡ hub.now.turns.table.shared.table_id) seats.items }
    ensures { IfSome result (λ two. (two.0.pass.table_id ≡ hub.now.turns.table.shared.table_id) × (two.1.pass.table_id ≡ hub.now.turns.table.shared.table_id)) }
{
    let Some(second) = seats.pop() else {
        return None;
    };
    let Some(first) = seats.pop() else {
        return None;
    };
    Some((first, second))
}

/// Makes the call of a row by one of two seats, or lets one see what the other has seen, and adds the row and the answer.
fn tell_row<N: Naming, R: Wait, W: Wait + Drop>(
    common: &Common<R>,
    pair: &mut Pair<N, W>,
    row: &str,
    text: &mut String,
) -> Option<()>
    ensures { pair.new.hub.now ≡ pair.old.hub.now }
{
    write!(text, "{row}:").ok()?;
    let Pair { hub, first, second } = pair;
    match row.split_once(' ')? {
        ("0", "meet 1") => hub.meet(first, second),
        ("1", "meet 0") => hub.meet(second, first),
        ("0", call) => tell_seat(common, hub, first, call, text)?,
        ("1", call) => tell_seat(common, hub, second, call, text)?,
        _ => return None,
    }
    text.push_str("\n").ok()
}

/// Makes the calls of rows by the two seats of a hub, and gives the seats back.
fn told_by_two<N: Naming, R: Wait, W: Wait + Drop>(
    common: &Common<R>,
    hub: &LinearHub<N, W>,
    seats: Vec<LinearSeat<N, W>>,
    rows: &[&str],
    text: &mut String,
) -> Option<(LinearSeat<N, W>, LinearSeat<N, W>)>
    requires { All (λ s. s.pass.table_id ≡ hub.now.turns.table.shared.table_id) seats.items }
    ensures { IfSome result (λ two. (two.0.pass.table_id ≡ hub.now.turns.table.shared.table_id) × (two.1.pass.table_id ≡ hub.now.turns.table.shared.table_id)) }
{
    let (first, second) = two_seats(hub, seats)?;
    let mut pair = Pair { hub, first, second };
    for row in rows {
        tell_row(common, &mut pair, row, text)?;
    }
    Some((pair.first, pair.second))
}

/// Ends a hub with its two seats, and adds what the plan of its pool claims.
fn tell_end<N: Naming, R: Wait + Drop>(
    alloc: Global,
    hub: LinearHub<N, R>,
    first: LinearSeat<N, R>,
    second: LinearSeat<N, R>,
    text: &mut String,
) -> Option<()>
    requires two { hub.turns.callers ≡ 2 }
    requires first { first.pass.table_id ≡ hub.turns.table.shared.table_id }
    requires second { second.pass.table_id ≡ hub.turns.table.shared.table_id }
{
    let seats = vec![in alloc; first, second].ok()?;
    tell_plan(hub.end(seats), text)
}

/// Makes the calls of a dialogue on a pool, by two seats.
fn take_turns<N: Naming, R: Wait>(
    rt: &R,
    alloc: Global,
    pool: Pool,
    rows: &[&str],
    text: &mut String,
) -> Option<()>
    requires opening { pool ≡ N.opening }
    requires search { (pool.problem ≡ N.problem) × (pool.cuts ≡ N.cuts) × (pool.budget ≡ N.budget) }
{
    let demands = pool.instance().demands();
    let arcs = pool.instance().arcs();
    let Ok((hub, seats)) = LinearHub::<N, &R>::new(rt, alloc, pool, 2) else {
        return None;
    };
    let common = Common {
        rt,
        alloc,
        demands,
        arcs,
    };
    let (first, second) = told_by_two(&common, &hub, seats, rows, text)?;
    tell_end(alloc, hub, first, second, text)
}

/// Holds a dialogue with a hub for this pool, of these calls.
pub(crate) fn tell_dialogue<R: Wait>(
    rt: &R,
    alloc: Global,
    pool: Pool,
    calls: &[&str],
    text: &mut String,
) -> Option<()> {
    take_turns::<Brand, R>(rt, alloc, pool, calls, text)
}
