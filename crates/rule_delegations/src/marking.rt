//! Files that are come upon from the top file.

ghost use Rattle.std.specs.Prelude.{◌≡◌, ◌<◌, ℕ, Some, IfOk, OnOk, length};
ghost use Rattle.rule_delegations.specs.Forests.{AreDistinct, link_at};
ghost use Rattle.rule_delegations.specs.Marks.{AreMarked, Grows, IsMarked};

use crate::RuleRef;
use crate::forest::Forest;
use octets::Memory;
use std::alloc::Global;

// Marks a file and keeps it at the end of the order, unless it is marked already.
fn mark(marks: &mut Vec<bool>, order: &mut Vec<u32>, file: u32) -> Result<(), Memory>
    requires { file < length marks.old.items }
    ensures grows { OnOk result (Grows (λ other. other ≡ file) marks.old.items order.old.items marks.new.items
        order.new.items) }
    ensures marked { OnOk result (IsMarked marks.new.items file) }
{
    if marks[file as usize] {
        return Ok(());
    }
    order.push(file)?;
    marks[file as usize] = true;
    Ok(())
}

// Marks the file below a rule, if there is one.
fn mark_below(
    forest: &Forest,
    place: RuleRef,
    marks: &mut Vec<bool>,
    order: &mut Vec<u32>,
) -> Result<(), Memory>
    requires { length marks.old.items ≡ length forest.now }
    ensures grows { OnOk result (Grows (λ file. link_at forest.now place ≡ Some file) marks.old.items order.old.items
        marks.new.items order.new.items) }
    ensures marked { OnOk result ((file : ℕ) → link_at forest.now place ≡ Some file → IsMarked marks.new.items file) }
{
    match forest.below(place) {
        Some(file) => mark(marks, order, file),
        None => Ok(()),
    }
}

// Marks the files below the rules of a file.
fn mark_all_below(
    forest: &Forest,
    file: u32,
    marks: &mut Vec<bool>,
    order: &mut Vec<u32>,
) -> Result<(), Memory>
    requires { length marks.old.items ≡ length forest.now }
    ensures grows { OnOk result (Grows
        (λ other. (at : ℕ) × (link_at forest.now (record { file = file; rule = at }) ≡ Some other))
        marks.old.items order.old.items marks.new.items order.new.items) }
    ensures marked { OnOk result ((at other : ℕ)
        → link_at forest.now (record { file = file; rule = at }) ≡ Some other → IsMarked marks.new.items other) }
{
    for at in 0..forest.rules(file).len() {
        let place = RuleRef {
            file,
            rule: at as u32,
        };
        mark_below(forest, place, marks, order)?;
    }
    Ok(())
}

/// Whether each file is come upon from the top file, which there must be. Each file is looked at once.
pub(crate) fn come_upon(alloc: Global, forest: &Forest) -> Result<Vec<bool>, Memory>
    requires some { 0 < length forest.now }
    requires distinct { AreDistinct forest.now }
    ensures { IfOk result (λ marks. AreMarked forest.now marks.items) }
{
    let mut marks = vec![in alloc; false; forest.files().len()]?;
    let mut order = Vec::new(alloc);
    mark(&mut marks, &mut order, 0)?;
    let mut at = 0;
    while at < order.len() {
        mark_all_below(forest, order[at], &mut marks, &mut order)?;
        at += 1;
    }
    Ok(marks)
}
