//! Dialogues of a writer and the readers of a board.

ghost use Rattle.std.specs.Prelude.{◌≡◌};

use crate::calling::{first_number, raise_of, tell_published};
use dual_versions::{BoardReader, BoardWriter, Published, board};
use std::alloc::Global;
use std::sync::Wait;

/// The writer of a board, with how many slots the board has and how many prices an entry has.
#[derive(Drop)]
struct Writer<R: Wait + Drop> {
    board: BoardWriter<R>,
    slots: u32,
    prices: u32,
    ghost slots_are: { board.slots ≡ slots },
    ghost prices_are: { board.prices ≡ prices },
}

impl<R: Wait + Drop> Writer<R> {
    /// Puts an entry of a slot.
    fn tell_put(&mut self, alloc: Global, rest: &str, text: &mut String) -> Option<()> {
        let (slot, rest) = first_number(rest)?;
        let (node, version, prices) = raise_of(alloc, rest)?;
        if slot >= self.slots || prices.as_slice().len() != self.prices as usize {
            return None;
        }
        let what = Published {
            node,
            version,
            prices,
        };
        self.board.put(slot, what).ok()?;
        text.push_str(" pending").ok()
    }

    /// Shows what is pending.
    fn tell_shown(&mut self, text: &mut String) -> Option<()> {
        self.board.show();
        text.push_str(" shown").ok()
    }
}

/// Adds what a reader reads of a slot, or the number of the last table that it has seen.
fn tell_reader(reader: &mut BoardReader, call: &str, text: &mut String) -> Option<()> {
    match call.strip_prefix("read ") {
        Some(slot) => {
            let slot = slot.parse::<u32>().ok()?;
            tell_published(reader.read(slot).ok()?, text)
        }
        None => write!(text, " {}", reader.seen()).ok(),
    }
}

/// Makes the call of a row, and adds the row and the answer.
fn tell_call<R: Wait + Drop>(
    alloc: Global,
    writer: &mut Writer<R>,
    readers: &mut [BoardReader],
    row: &str,
    text: &mut String,
) -> Option<()> {
    write!(text, "{row}:").ok()?;
    let (kind, rest) = row.split_once(' ').unwrap_or((row, ""));
    match kind {
        "put" => writer.tell_put(alloc, rest, text)?,
        "show" => writer.tell_shown(text)?,
        number => {
            let reader = readers.get_mut(number.parse::<usize>().ok()?)?;
            tell_reader(reader, rest, text)?;
        }
    }
    text.push_str("\n").ok()
}

/// Makes the calls of rows one after the other.
fn tell_calls<R: Wait + Drop>(
    alloc: Global,
    writer: &mut Writer<R>,
    readers: &mut [BoardReader],
    rows: &[&str],
    text: &mut String,
) -> Option<()> {
    for row in rows {
        tell_call(alloc, writer, readers, row, text)?;
    }
    Some(())
}

/// The writer and the readers of a new board, of three words: how many slots it has, how many readers, and how many prices
/// an entry has.
fn board_of<R: Wait + Drop>(
    rt: R,
    alloc: Global,
    words: &str,
) -> Option<(Writer<R>, Vec<BoardReader>)> {
    let (slots, words) = first_number(words)?;
    let (readers, prices) = first_number(words)?;
    let prices = prices.parse::<u32>().ok()?;
    if slots == 0 || slots > 64 || readers == 0 || readers > 64 {
        return None;
    }
    let (board, readers) = board(rt, alloc, slots, readers, prices).ok()?;
    let writer = Writer {
        board,
        slots,
        prices,
    };
    Some((writer, readers))
}

/// Holds a dialogue on the board of these words, of these calls.
pub(crate) fn tell_dialogue<R: Wait>(
    rt: &R,
    alloc: Global,
    words: &str,
    calls: &[&str],
    text: &mut String,
) -> Option<()> {
    let (mut writer, mut readers) = board_of(rt, alloc, words)?;
    tell_calls(alloc, &mut writer, readers.as_mut_slice(), calls, text)?;
    let Writer {
        board,
        slots: _slots,
        prices: _prices,
    } = writer;
    board.end();
    text.push_str("end:\n").ok()
}
