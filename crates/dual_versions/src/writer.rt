//! The writer of a board.

ghost use Rattle.std.specs.Prelude.{◌≡◌, ◌<◌, [], ◌∷◌, ◌++◌, length, MatchResult};
ghost use Rattle.dual_versions.specs.Boards.{with_pending_shown};

use crate::published::Published;
use crate::rule::{Shows, TableWriter};
use crate::table::Put;
use core::mem::replace_with;
use std::alloc::AllocError;
use std::marker::Model;
use std::sync::Wait;

/// The one that puts entries on a board and shows them. Contracts see it as the board.
///
/// It keeps the handle `R`, since its end waits for readers.
pub struct BoardWriter<R: Wait + Drop> {
    pub(crate) writer: TableWriter,
    pub(crate) prices: usize,
    pub(crate) rt: R,
}

impl<R: Wait + Drop> Model for BoardWriter<R> {
    ghost use Rattle.std.specs.Prelude.{length, drop, map};
    ghost use Rattle.dual_versions.specs.Boards.{Board};
    ghost use Rattle.dual_versions.specs.Rows.{pair_of};
    ghost use Rattle.dual_versions.specs.Views.{IsBoard, tables_of, known_by};

    ghost Value = { Board };

    ghost view = { λ s. record {
      slots = length s.writer.desk.shown.value.rows.items;
      prices = s.prices;
      tables = tables_of (known_by s.writer.desk.place) s.writer.desk.shown.value;
      pending = map pair_of (drop s.writer.behind s.writer.log.items);
    } };

    ghost invariant = { λ s. IsBoard s.prices (known_by s.writer.desk.place) s.writer.desk.shown.value (drop s.writer.behind s.writer.log.items) };
}

impl<R: Wait + Drop> Drop for BoardWriter<R> {
    fn drop(self) {
        let BoardWriter {
            writer,
            prices: _,
            rt,
        } = self;
        drop(writer.take(&rt));
    }
}

impl<R: Wait + Drop> BoardWriter<R> {
    /// Makes an entry pending.
    ///
    /// - Takes: a slot of the board, and as many prices and rates as its rows have room for.
    /// - Errors: want of memory alone. Then nothing changed.
    #[tactic(auto, using(crate::proofs::Puts::puts_more, crate::proofs::Puts::pairs_more))]
    pub fn put(&mut self, slot: u32, what: Published) -> Result<(), AllocError>
        requires slot { slot < self.old.slots }
        requires prices { length what.prices ≡ self.old.prices }
        ensures { MatchResult result (λ _. self.new ≡ record self.old { pending = self.old.pending ++ (slot, what) ∷ [] }) (λ _. self.new ≡ self.old) }
    {
        let number = self.writer.published().number.saturating_add(1);
        let put = Put {
            number,
            slot: slot as usize,
            what,
        };
        match self.writer.append(put) {
            Ok(()) => Ok(()),
            Err(_) => Err(AllocError),
        }
    }

    /// Shows all pending entries at once, in the order of their puts, as the next table. Where none is pending nothing
    /// changes. It may wait for readers. Takes no memory.
    pub fn show(&mut self)
        ensures { self.new ≡ with_pending_shown self.old }
    {
        replace_with(self, (), |board, _| (board.shown(), ()))
    }

    /// As `show`.
    fn shown(self) -> BoardWriter<R>
        ensures { result ≡ with_pending_shown self }
    {
        let BoardWriter { writer, prices, rt } = self;
        if !writer.has_pending_operations() {
            return BoardWriter { writer, prices, rt };
        }
        let (writer, _) = writer.publish_as::<Shows, R>(&rt);
        BoardWriter { writer, prices, rt }
    }

    /// Spends the writer. It may wait for readers, which from then on are not let in. Takes no memory.
    pub fn end(self) {
        drop(self)
    }
}
