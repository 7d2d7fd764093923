//! Dialogues of several seats with one hub.

ghost use Rattle.std.specs.Prelude.{◌≡◌, ◌≤◌};
ghost use Rattle.plan_io.specs.declared.gate.TheConstants.{MAX_WORKERS};

use super::calls::Common;
use super::ends::tell_plan;
use crate::calling::{first_number, pool_of, tell_published};
use gate_networks::Network;
use plan_io::{MAX_WORKERS, NoGate};
use pool_core::Pool;
use pool_hub::{Hub, Naming, Seat, work};
use std::alloc::Global;
use std::marker::Brand;
use std::sync::Wait;
use std::sync::ledger::Blank;

/// Makes a call by a seat, and adds the answer. None where it is no call, and where memory is wanting.
fn tell_seat<N: Naming, R: Wait, W: Wait + Drop>(
    common: &Common<R>,
    hub: &Hub<N, W>,
    seat: &mut Seat<N>,
    call: &str,
    text: &mut String,
) -> Option<()> {
    let (kind, rest) = call.split_once(' ').unwrap_or((call, ""));
    match kind {
        "prices" => {
            let slot = rest.parse::<u32>().ok()?;
            tell_published(hub.prices(common.rt, slot).ok()?, text)
        }
        "read" => tell_published(seat.read(rest.parse::<u32>().ok()?).ok()?, text),
        "work" => {
            work(common.rt, common.alloc, hub, seat, &NoGate).ok()?;
            text.push_str(" done").ok()
        }
        _ => common.tell::<N, Hub<N, W>>(hub, seat, kind, rest, text),
    }
}

/// Makes the calls of rows one after the other, each by the seat whose number the row begins with, and adds the rows and
/// the answers.
fn tell_calls<N: Naming, R: Wait, W: Wait + Drop>(
    common: &Common<R>,
    hub: &Hub<N, W>,
    seats: &mut [Seat<N>],
    rows: &[&str],
    text: &mut String,
) -> Option<()> {
    for row in rows {
        let (number, call) = first_number(row)?;
        let seat = seats.get_mut(number as usize)?;
        write!(text, "{row}:").ok()?;
        tell_seat(common, hub, seat, call, text)?;
        text.push_str("\n").ok()?;
    }
    Some(())
}

/// Makes the calls of a dialogue on a pool, by so many seats.
fn take_turns<N: Naming, R: Wait>(
    rt: &R,
    alloc: Global,
    blank: Blank,
    pool: Pool,
    workers: u32,
    rows: &[&str],
    text: &mut String,
) -> Option<()>
    requires workers { (1 ≤ workers) × (workers ≤ MAX_WORKERS) }
    requires name { blank.name ≡ N.name }
    requires parts { (blank.parts ≡ N.parts) × (N.parts ≡ workers) }
    requires search { (pool.problem ≡ N.problem) × (pool.cuts ≡ N.cuts) × (pool.budget ≡ N.budget) }
    requires fresh { pool.accepted ≡ 0 }
{
    let demands = pool.instance().demands();
    let arcs = pool.instance().arcs();
    let (hub, mut seats) = Hub::<N, &R>::new(rt, alloc, blank, pool, workers).ok()?;
    let common = Common {
        rt,
        alloc,
        demands,
        arcs,
    };
    let told = tell_calls(&common, &hub, seats.as_mut_slice(), rows, text);
    // A hub ends with all its seats.
    if told.is_none() || seats.len() != workers as usize {
        return None;
    }
    tell_plan(hub.end(seats), text)
}

/// Holds a dialogue with the hub of these words, of these calls.
pub(crate) fn tell_dialogue<R: Wait>(
    rt: &R,
    alloc: Global,
    networks: &[Network],
    words: &str,
    calls: &[&str],
    text: &mut String,
) -> Option<()> {
    let (search, workers) = words.rsplit_once(' ')?;
    let workers = workers.parse::<u32>().ok()?;
    if workers == 0 || workers > MAX_WORKERS {
        return None;
    }
    let pool = pool_of(alloc, networks, search)?;
    let blank = Blank::new(u64::from(workers));
    take_turns::<Brand, R>(rt, alloc, blank, pool, workers, calls, text)
}
