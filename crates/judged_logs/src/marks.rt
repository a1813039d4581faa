//! Numbers noted under others, the first of each.

ghost use Rattle.std.specs.Prelude.{◌≡◌, ◌==◌, ℕ, Some, OnOk, if◌then◌else◌};
ghost use Rattle.std.specs.BTreeMap as tree;
ghost use Rattle.std.specs.Ordering.{is_eq, nat_cmp};
ghost use Rattle.judged_logs.specs.Keeping.{IsNoted};

use octets::Memory;
use std::collections::BTreeMap;

// Puts a number under another.
fn put(table: &mut BTreeMap<u64, u64>, number: u64, by: u64) -> Result<(), Memory>
    ensures { OnOk result ((q : ℕ) → tree.get nat_cmp table.new q
        ≡ (if is_eq (nat_cmp number q) then Some by else tree.get nat_cmp table.old q)) }
{
    let _had = table.insert(number, by)?;
    Ok(())
}

/// Notes a number under another, unless one is noted there.
pub fn note(table: &mut BTreeMap<u64, u64>, number: u64, by: u64) -> Result<(), Memory>
    ensures { OnOk result (IsNoted (λ q. number == q) by table.old table.new) }
{
    match table.get(&number) {
        Some(_) => Ok(()),
        None => put(table, number, by),
    }
}
