//! A board is made.

ghost use Rattle.std.specs.Prelude.{◌≡◌, ◌≤◌, [], ◌∷◌, None, length, replicate, All, IfOk};
ghost use Rattle.dual_versions.specs.Rows.{blank};

use crate::published::Published;
use crate::reader::BoardReader;
use crate::row::Row;
use crate::rule::{OneList, TableWriter, View};
use crate::table::Table;
use crate::writer::BoardWriter;
use left_right::reader::Factory;
use plan_base::{BranchId, Prices};
use std::alloc::{AllocError, Global};
use std::sync::Wait;

/// A row without an entry, with room for this many prices and rates.
fn empty_row(alloc: Global, node: BranchId, prices: usize) -> Result<Row, AllocError>
    ensures { IfOk result (λ row. row ≡ blank node prices) }
{
    let prices = Prices::from_vec(vec![in alloc; 0; prices]?);
    let what = Published {
        node,
        version: 0,
        prices,
    };
    Ok(Row { shown: false, what })
}

/// A table without entries.
#[tactic(auto, using(crate::proofs::RowLists::rows_more))]
fn empty_table(
    alloc: Global,
    node: BranchId,
    slots: usize,
    prices: usize,
) -> Result<Table, AllocError>
    ensures number { IfOk result (λ table. table.number ≡ 0) }
    ensures rows { IfOk result (λ table. table.rows.items ≡ replicate slots (blank node prices)) }
{
    let mut rows = Vec::new(alloc);
    for _ in 0..slots {
        rows.push(empty_row(alloc, node, prices)?)?;
    }
    Ok(Table { number: 0, rows })
}

/// So many readers, which have seen nothing.
fn readers_of(
    alloc: Global,
    factory: &Factory<Table, View, OneList>,
    count: u32,
) -> Result<Vec<BoardReader>, AllocError>
    ensures count { IfOk result (λ readers. length readers.items ≡ count) }
    ensures fresh { IfOk result (λ readers. All (λ r. r ≡ []) readers.items) }
{
    let mut readers = Vec::new(alloc);
    for _ in 0..count {
        let reader = factory.reader()?;
        readers.push(BoardReader { reader, number: 0 })?;
    }
    Ok(readers)
}

/// The writer of a board with so many slots, and so many readers. One table is shown, without entries, which no reader
/// has seen.
///
/// - Takes: the handle that the writer waits with; 1 to 64 slots; 1 to 64 readers; how many prices and rates each entry
///   will have.
/// - Errors: want of memory alone, also where a reader gets no place.
pub fn board<R: Wait + Drop>(
    rt: R,
    alloc: Global,
    slots: u32,
    readers: u32,
    prices: u32,
) -> Result<(BoardWriter<R>, Vec<BoardReader>), AllocError>
    requires slots { (1 ≤ slots) × (slots ≤ 64) }
    requires readers { (1 ≤ readers) × (readers ≤ 64) }
    ensures slots { IfOk result (λ made. made.0.slots ≡ slots) }
    ensures prices { IfOk result (λ made. made.0.prices ≡ prices) }
    ensures tables { IfOk result (λ made. made.0.tables ≡ replicate slots None ∷ []) }
    ensures none_pending { IfOk result (λ made. made.0.pending ≡ []) }
    ensures readers { IfOk result (λ made. length made.1.items ≡ readers) }
    ensures fresh { IfOk result (λ made. All (λ r. r ≡ []) made.1.items) }
{
    let root = BranchId(0);
    let first = empty_table(alloc, root, slots as usize, prices as usize)?;
    let second = empty_table(alloc, root, slots as usize, prices as usize)?;
    let writer: TableWriter = TableWriter::new(alloc, first, second, readers as usize)?;
    match readers_of(alloc, writer.factory(), readers) {
        Ok(all) => {
            let writer = BoardWriter {
                writer,
                prices: prices as usize,
                rt,
            };
            Ok((writer, all))
        }
        Err(error) => {
            drop(writer.take(&rt));
            Err(error)
        }
    }
}
