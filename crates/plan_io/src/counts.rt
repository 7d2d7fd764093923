//! Counts of begins, of bytes and of faults. Each stands still at its last value.

ghost use Rattle.std.specs.Prelude.{◌≡◌, ◌+◌, ◌^◌, ◌≤◌, min};
ghost use Rattle.plan_io.specs.Causes.{CountsUp, one_fault_more};

/// The last value of a count of begins or of bytes taken.
pub const COUNT_END: u64 = 1 << 63;

/// The count, one greater while it is below its end.
pub fn counted_up(count: u64) -> u64
    ensures { CountsUp count result }
{
    if count < COUNT_END { count + 1 } else { count }
}

/// So many bytes more, cut at the end of the count.
pub fn taken_more(taken: u64, count: usize) -> u64
    ensures { result ≡ min (taken + count) (2 ^ 63) }
{
    taken.saturating_add(count as u64).min(COUNT_END)
}

/// One fault more.
pub fn fault_more(faults: u64) -> u64
    ensures more { result ≡ one_fault_more faults }
    ensures later { faults ≤ result }
{
    faults.saturating_add(1)
}
