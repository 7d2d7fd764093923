//! What threads may share or hand over.

use crate::table::CutTable;

fn is_shared<T: Send + Sync>(_value: &T) {}

fn is_table_shared(table: &CutTable) {
    is_shared(table);
}
