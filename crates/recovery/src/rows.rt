//! Rows: one for each number, in the order of the numbers.

ghost use Rattle.std.specs.Prelude.{◌≡◌, ◌≢◌, ◌<◌, ◌≤◌, ◌-◌, ◌==◌, ℕ, if◌then◌else◌, length, IfSome, IfNone};
ghost use Rattle.std.specs.List.{All, AllPairs};
ghost use Rattle.recovery.specs.Rows.{Linked, IsAfter, IsLast, row_at};

/// The row of a number.
#[derive(Clone, Copy)]
pub struct Row {
    pub number: u64,
    pub slot: usize,
    /// The place right after a row of the same slot, or 0, behind which all of the slot's rows before this one
    /// are skipped.
    pub back: usize,
    pub skipped: bool,
}

/// The place of a number, counted from 0.
pub fn place_of(rows: &[Row], number: u64) -> Option<usize>
    requires { AllPairs (λ r s. r.number < s.number) rows.now }
    ensures found { IfSome result (λ i. (i < length rows.now) × ((row_at rows.now i).number ≡ number)) }
    ensures none { IfNone result (All (λ r. r.number ≢ number) rows.now) }
{
    let at = rows.partition_point(|row| row.number < number);
    if at < rows.len() && rows[at].number == number {
        Some(at)
    } else {
        None
    }
}

/// The place right after the last row of a slot that is not skipped, or 0, from a place behind which all are.
pub fn last_unskipped(rows: &[Row], from: usize) -> usize
    requires linked { Linked rows.now }
    requires within { from ≤ length rows.now }
    ensures { (slot : ℕ) → IsAfter slot rows.now (length rows.now) from → IsLast slot rows.now result }
{
    let mut last = from;
    'rows: while last > 0 && rows[last - 1].skipped {
        last = rows[last - 1].back;
    }
    last
}

/// The number of the row before a place, or None at 0.
pub fn number_before(rows: &[Row], last: usize) -> Option<u64>
    requires { last ≤ length rows.now }
    ensures { result ≡ (if last == 0 then None else Some (row_at rows.now (last - 1)).number) }
{
    if last == 0 {
        return None;
    }
    Some(rows[last - 1].number)
}
