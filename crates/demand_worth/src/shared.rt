//! What workers share is shared safely.

use crate::surcharges::Surcharges;
use crate::worth_row::WorthRow;

fn is_shared<T: Send + Sync>(_value: &T) {}

fn are_shared(surcharges: &Surcharges, row: &WorthRow) {
    is_shared(surcharges);
    is_shared(row);
}
