//! The value, which callers use in turn.

ghost use Rattle.std.specs.Prelude.{◌≡◌, ◌≤◌, ◌<◌, ◌+◌, ◌++◌, [], ◌∷◌, length, IfOk};
ghost use Rattle.ticket_turns.specs.declared.limits.TheConstants.{MAX_CALLERS};
ghost use Rattle.ticket_turns.specs.Histories.{entry_of};
ghost use Rattle.ticket_turns.specs.Passes.{IsIdle, IsReady, IsInside, IsMaker, IsNewCaller, HasEntered, HasLeft, HasMet, HasTakenIn, IsAtEnd};

use crate::limits::MAX_CALLERS;
use crate::meaning::{Meaning, Said};
use crate::plays::{Copied, Draw, Glance, Hear, Law, Look, NewCaller, Raise, Serve, Together};
use crate::view::View;
use atomic_table::{Seat, Table};
use crossbeam_utils::Backoff;
use std::alloc::{AllocError, Global};
use std::sync::Wait;

/// A caller's own: what it knows, and in its turn the slot.
pub type Pass<D, C> = Seat<Option<D>, View<C>>;

/// The word of the tickets drawn.
const TICKETS: usize = 0;

/// The word of the ticket that is served.
const SERVING: usize = 1;

/// The word of the length of the history.
const COUNT: usize = 2;

/// The slot of the value.
const SLOT: usize = 0;

/// How often a caller looks whether another one has a ticket, before it draws its own all the same.
const LOOKS: u32 = 256;

/// A value in a slot, and tickets for it.
#[derive(Drop)]
pub struct Turns<D, C, M: Meaning<D, C>> {
    table: Table<Option<D>, View<C>, u64, Law<M>, Global>,
    callers: u64,
    ghost few: { callers ≤ MAX_CALLERS },
    ghost shaped: { (table.shared.table_id.words ≡ 3) × (table.shared.table_id.slots ≡ 1) × (table.shared.key ≡ callers) },
}

impl<D: Drop, C, M: Meaning<D, C>> Turns<D, C, M> {
    /// The value in a slot, and the pass from which those of the callers are split off.
    ///
    /// - Takes: a value to which the empty history leads; how many callers, 1 to `MAX_CALLERS`.
    /// - Errors: want of memory alone. The value is then gone.
    /// - Rule: docs/DEFINITIONS.md, "Histories".
    pub fn new(
        alloc: Global,
        value: D,
        callers: u32,
    ) -> Result<(Turns<D, C, M>, Pass<D, C>), AllocError>
        requires opening { M.leads [] value }
        requires callers { (0 < callers) × (callers ≤ MAX_CALLERS) }
        ensures callers { IfOk result (λ r. r.0.callers ≡ callers) }
        ensures maker { IfOk result (λ r. (r.1.table_id ≡ r.0.table.shared.table_id) × IsMaker callers 0 r.1) }
    {
        let callers = u64::from(callers);
        let mut slots = Vec::new(alloc);
        slots.push(Some(value))?;
        let Ok((table, maker)) = Table::new(alloc, &[0, 0, 0], slots, &callers) else {
            return Err(AllocError);
        };
        Ok((Turns { table, callers }, maker))
    }

    /// The pass of a new caller. Takes no memory.
    ///
    /// - Takes: the maker's pass; the new caller's number, which is how many callers were made before.
    /// - Rule: docs/DEFINITIONS.md, "Histories".
    pub fn caller(&self, maker: &mut Pass<D, C>, number: u32) -> Pass<D, C>
        requires table { maker.old.table_id ≡ self.now.table.shared.table_id }
        requires maker { IsMaker self.now.callers number maker.old }
        requires few { number < self.now.callers }
        ensures table { (maker.new.table_id ≡ maker.old.table_id) × (result.table_id ≡ maker.old.table_id) }
        ensures maker { IsMaker self.now.callers (number + 1) maker.new }
        ensures caller { IsNewCaller number result }
    {
        self.table.shared.split_seat::<NewCaller>(maker)
    }

    /// Looks until no caller has a ticket, or it has looked often enough. Who has a ticket may be kept from running where
    /// there are more callers than processors, and whoever draws behind it waits for it.
    fn hold_back(&self, pass: &mut Pass<D, C>)
        requires { pass.old.table_id ≡ self.now.table.shared.table_id }
        ensures { (pass.new.table_id ≡ pass.old.table_id) × (pass.new.id ≡ pass.old.id) × (pass.new.me ≡ pass.old.me) }
    {
        let shared = &self.table.shared;
        let backoff = Backoff::new();
        for _ in 0..LOOKS {
            let drawn = shared.load::<Glance>(pass, TICKETS);
            if shared.load::<Glance>(pass, SERVING) == drawn {
                return;
            }
            backoff.snooze();
        }
    }

    /// Draws a ticket, waits until it is served, and takes the value out of the slot.
    fn take_turn<R: Wait>(&self, rt: &R, pass: &mut Pass<D, C>) -> D
        requires table { pass.old.table_id ≡ self.now.table.shared.table_id }
        requires ready { IsReady pass.old }
        ensures same { (pass.new.table_id ≡ pass.old.table_id) × (pass.new.id ≡ pass.old.id) }
        ensures entered { HasEntered M.leads pass.old.me pass.new.me result }
        ensures inside { IsInside pass.new }
    {
        let shared = &self.table.shared;
        let ticket = shared.fetch_add::<Draw>(pass, TICKETS, 1);
        let backoff = Backoff::new();
        for _ in rt.forever() {
            if shared.load::<Look<M>>(pass, SERVING) == ticket {
                let Some(value) = shared.exchange(pass, SLOT, None) else {
                    unreachable!()
                };
                return value;
            }
            backoff.snooze();
        }
        unreachable!()
    }

    /// Draws a ticket, waits until it is served, and takes the value out of the slot. Takes no memory.
    ///
    /// - Takes: the pass of a caller that has calls left, between two turns.
    /// - Gives: the value, to which the history leads that the pass has now seen.
    /// - Rule: docs/DEFINITIONS.md, "Histories".
    pub fn enter<R: Wait>(&self, rt: &R, pass: &mut Pass<D, C>) -> D
        requires table { pass.old.table_id ≡ self.now.table.shared.table_id }
        requires ready { IsReady pass.old }
        ensures same { (pass.new.table_id ≡ pass.old.table_id) × (pass.new.id ≡ pass.old.id) }
        ensures entered { HasEntered M.leads pass.old.me pass.new.me result }
        ensures inside { IsInside pass.new }
    {
        self.hold_back(pass);
        self.take_turn(rt, pass)
    }

    /// Adds the call to the history, puts the value back into the slot, and serves the next ticket. Takes no memory.
    ///
    /// - Takes: a pass in its turn; a value to which the history leads with this call behind all that the pass has seen.
    ///   What was asked and answered is for the proof alone, which picks the call by it.
    /// - Rule: docs/DEFINITIONS.md, "Histories".
    pub fn leave<W: Said<C>, Q, A>(&self, pass: &mut Pass<D, C>, value: D, _asked: &Q, _answer: &A)
        requires table { pass.old.table_id ≡ self.now.table.shared.table_id }
        requires inside { IsInside pass.old }
        requires leads { M.leads (pass.old.me.0.seen ++ entry_of pass.old.me.0 W.call ∷ []) value }
        ensures same { (pass.new.table_id ≡ pass.old.table_id) × (pass.new.id ≡ pass.old.id) }
        ensures left { HasLeft W.call pass.old.me pass.new.me }
    {
        let shared = &self.table.shared;
        shared.fetch_add::<Raise<W>>(pass, COUNT, 1);
        let None = shared.exchange(pass, SLOT, Some(value)) else {
            unreachable!()
        };
        shared.fetch_add::<Serve>(pass, SERVING, 1);
    }

    /// The first pass takes in the other, and sees the whole history. Takes no memory.
    ///
    /// - Takes: two passes between two turns.
    /// - Rule: docs/DEFINITIONS.md, "Histories".
    pub fn take_in(&self, root: &mut Pass<D, C>, other: Pass<D, C>)
        requires tables { (root.old.table_id ≡ self.now.table.shared.table_id) × (other.table_id ≡ self.now.table.shared.table_id) }
        requires root { IsIdle root.old }
        requires other { IsIdle other }
        ensures same { (root.new.table_id ≡ root.old.table_id) × (root.new.id ≡ root.old.id) }
        ensures idle { IsIdle root.new }
        ensures taken { HasTakenIn M.leads root.old.me.0 other.me.0 root.new.me.0 }
    {
        let shared = &self.table.shared;
        shared.join_seat::<Together>(root, other);
        shared.load::<Hear<M>>(root, SERVING);
    }

    /// What the first pass has seen, the second one has seen too, and the whole history. Takes no memory.
    ///
    /// - Takes: any pass; one between two turns.
    /// - Rule: docs/DEFINITIONS.md, "Histories".
    pub fn meet(&self, from: &mut Pass<D, C>, to: &mut Pass<D, C>)
        requires tables { (from.old.table_id ≡ self.now.table.shared.table_id) × (to.old.table_id ≡ self.now.table.shared.table_id) }
        requires idle { IsIdle to.old }
        ensures from { (from.new.table_id ≡ from.old.table_id) × (from.new.id ≡ from.old.id) × (from.new.me ≡ from.old.me) }
        ensures same { (to.new.table_id ≡ to.old.table_id) × (to.new.id ≡ to.old.id) }
        ensures idle { IsIdle to.new }
        ensures met { HasMet M.leads from.old.me.0 to.old.me.0 to.new.me.0 }
        ensures rights { (to.new.me.0.parts ≡ to.old.me.0.parts) × (to.new.me.0.draws ≡ to.old.me.0.draws) }
    {
        let copy = self.table.shared.split_seat::<Copied>(from);
        self.take_in(to, copy);
    }

    /// The value, out of the slot: a history leads to it that begins with all that the pass has seen, and has no more calls
    /// than tickets were drawn. Takes no memory.
    ///
    /// - Takes: a pass between two turns that has taken in all others.
    /// - Rule: docs/DEFINITIONS.md, "Histories".
    pub fn close(self, root: Pass<D, C>) -> D
        requires table { root.table_id ≡ self.table.shared.table_id }
        requires idle { IsIdle root }
        requires all { root.me.0.parts ≡ self.callers }
        ensures { IsAtEnd M.leads self.callers root.me.0 result }
    {
        let Turns { table, callers: _ } = self;
        let mut closed = table.close_with(root);
        let Some(value) = closed.take(SLOT) else {
            unreachable!()
        };
        closed.free();
        value
    }
}
