//! Calls of a hub by a seat, whichever hub it is.

use crate::calling::{
    design_of, node_of, offer_of, raise_of, round_of, tell_answer, tell_gathered, tell_restriction,
};
use search_worker::{Office, Search};
use std::alloc::Global;
use std::sync::Wait;

/// What all seats of a dialogue have in common.
#[derive(Drop)]
pub(crate) struct Common<'r, R: Wait> {
    pub(crate) rt: &'r R,
    pub(crate) alloc: Global,
    pub(crate) demands: u32,
    pub(crate) arcs: u32,
}

impl<'r, R: Wait> Common<'r, R> {
    /// Makes a call of any hub by a seat that may make one, and adds the answer. None where it is no such call, and where
    /// memory is wanting.
    pub(crate) fn tell<N: Search, H: Office<N>>(
        &self,
        hub: &H,
        seat: &mut H::Seat,
        kind: &str,
        rest: &str,
        text: &mut String,
    ) -> Option<()>
        requires of { H.of hub.now seat.old }
        requires free { H.free seat.old }
        ensures of { H.of hub.now seat.new }
    {
        let (rt, alloc) = (self.rt, self.alloc);
        match kind {
            "open" => tell_answer(hub.open(rt, seat, node_of(rest)?).ok()?, text),
            "close" => tell_answer(hub.close(rt, seat, node_of(rest)?), text),
            "examine" => tell_answer(hub.examine(rt, seat, node_of(rest)?), text),
            "offer" => tell_answer(hub.offer(rt, seat, offer_of(alloc, rest)?), text),
            "better" => tell_answer(hub.better(rt, seat, design_of(alloc, rest)?), text),
            "ground" => match hub.ground(rt, seat, node_of(rest)?).ok()? {
                Some(rows) => tell_restriction(self.demands, self.arcs, &*rows, text),
                None => text.push_str(" no leaf").ok(),
            },
            "gather" => {
                let (node, version) = round_of(rest)?;
                tell_gathered(hub.gather(rt, seat, node, version).ok()?, text)
            }
            "settle" => {
                let (node, version) = round_of(rest)?;
                tell_answer(hub.settle(rt, seat, node, version, None), text)
            }
            "publish" => {
                let (node, version, prices) = raise_of(alloc, rest)?;
                let answer = hub.publish(rt, seat, node, version, &prices, None).ok()?;
                tell_answer(answer, text)
            }
            _ => None,
        }
    }
}
