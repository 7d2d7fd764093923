//! The rule of the table, and what each step tells of it.

ghost use Rattle.ticket_turns.specs.Rules.{Kept};
ghost use Rattle.ticket_turns.specs.Steps.{Draws, Glances, Hears, Looks, Raises, Serves, guest_of, joined, maker, maker_after, new_caller, spent};

use crate::meaning::{Meaning, Said};
use crate::view::View;
use atomic_table::{Join, Play, Split, TableRule};
use std::marker::PhantomData;

/// The rule, for values to which histories lead as M says.
pub struct Law<M> {
    of: PhantomData<M>,
}

impl<D, C, M: Meaning<D, C>> TableRule<Option<D>, View<C>, u64> for Law<M> {
    ghost holds = { λ callers. Kept M.leads callers };

    ghost first = { λ callers. maker callers };
}

/// A ticket is drawn.
pub(crate) struct Draw;

impl<D, C> Play<Option<D>, View<C>> for Draw {
    ghost then = { Draws };
}

/// A pass looks at a word, and goes on as it was.
pub(crate) struct Glance;

impl<D, C> Play<Option<D>, View<C>> for Glance {
    ghost then = { Glances };
}

/// A pass with a ticket looks which one is served, and takes the slot where it is its own.
pub(crate) struct Look<M> {
    of: PhantomData<M>,
}

impl<D, C, M: Meaning<D, C>> Play<Option<D>, View<C>> for Look<M> {
    ghost then = { Looks M.leads };
}

/// A pass without a ticket looks, and sees the whole history.
pub(crate) struct Hear<M> {
    of: PhantomData<M>,
}

impl<D, C, M: Meaning<D, C>> Play<Option<D>, View<C>> for Hear<M> {
    ghost then = { Hears M.leads };
}

/// The call that W names is added to the history.
pub(crate) struct Raise<W> {
    of: PhantomData<W>,
}

impl<D, C, W: Said<C>> Play<Option<D>, View<C>> for Raise<W> {
    ghost then = { Raises W.call };
}

/// The slot goes back, and the next ticket is served.
pub(crate) struct Serve;

impl<D, C> Play<Option<D>, View<C>> for Serve {
    ghost then = { Serves };
}

/// The maker makes a caller.
pub(crate) struct NewCaller;

impl<C> Split<View<C>> for NewCaller {
    ghost left = { maker_after };

    ghost right = { new_caller };
}

/// What a pass has seen is copied for a guest.
pub(crate) struct Copied;

impl<C> Split<View<C>> for Copied {
    ghost left = { λ v. v };

    ghost right = { guest_of };
}

/// A pass takes another one in.
pub(crate) struct Together;

impl<C> Join<View<C>> for Together {
    ghost both = { joined };

    ghost spent = { spent };
}
