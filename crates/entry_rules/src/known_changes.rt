//! What is known of changes between the trees of two targets.

ghost use Rattle.std.specs.Prelude.{◌≡◌, List, IfOk, IfSome, IsTrue};
ghost use Rattle.std.specs.List.{AllByRecursion};
ghost use Rattle.std.specs.Option.{option_copied};
ghost use Rattle.tree_paths.specs.Changes.{AreChanged};
ghost use Rattle.tree_paths.specs.Readings.{Trees};
ghost use Rattle.tree_paths.specs.Roots.{root_ended};
ghost use Rattle.tree_paths.specs.States.{map_at};
ghost use Rattle.rule_files.specs.declared.rules.RuleFile.{RuleFile};
ghost use Rattle.entry_rules.specs.Learning.{AreWhole, Hold, IsFirst, IsLesson, IsRow, IsTaught};

use crate::Fault;
use crate::known_paths::{KnownPaths, MANY, first_known};
use crate::roots::{Roots, is_pair};
use crate::unmet::append_files;
use known_signers::same_items;
use octets::{Items, Memory, Octets};
use root_metadata::KeyIds;
use rule_delegations::Rules;
use rule_files::RuleFiles;
use std::alloc::Global;

// The most rows.
const MOST_ROWS: usize = 1024;

/// Signers, and the first of some changed paths that they do not meet.
#[derive(Drop)]
pub struct FirstUnmet {
    pub(crate) signers: KeyIds,
    pub(crate) first: Option<Octets>,
}

/// The trees of two targets whose states are whole, and what was found of the paths at which they differ.
#[derive(Drop)]
pub struct KnownChange {
    pub(crate) roots: Roots,
    pub(crate) found: Option<FirstUnmet>,
}

/// Such a row with the rule files by which it was found.
#[derive(Drop)]
pub struct Taught {
    pub(crate) files: RuleFiles,
    pub(crate) row: KnownChange,
}

/// What an entry taught.
#[derive(Drop)]
pub struct Lesson {
    pub(crate) taught: Option<Taught>,
}

/// What is known of changes by some rule files, at most 1,024 rows. Where there is no room for one more, or one of other
/// rule files comes, all are let go first.
#[derive(Drop)]
pub struct KnownChanges {
    pub(crate) files: RuleFiles,
    pub(crate) rows: Items<KnownChange>,
}

impl Lesson {
    /// Nothing was learned.
    pub fn none() -> Lesson
        ensures { (trees : Trees) → IsLesson trees result }
    {
        Lesson { taught: None }
    }
}

fn has_pair(rows: &[KnownChange], roots: &Roots) -> bool
    ensures { IsTrue result → (trees : Trees) (files : List RuleFile) → AllByRecursion (IsRow trees files) rows.now
        → AreWhole trees roots.now }
{
    'rows: for row in rows {
        if is_pair(&row.roots, roots) {
            return true;
        }
    }
    false
}

// What a row has of these signers and this pair of trees.
fn found_in<'k>(row: &'k KnownChange, signers: &KeyIds, roots: &Roots) -> Option<&'k FirstUnmet>
    ensures { IfSome (option_copied result) (λ found. (trees : Trees) (files : List RuleFile) → IsRow trees files row.now
        → IsFirst trees files signers.now roots.now found.first) }
{
    if !is_pair(&row.roots, roots) {
        return None;
    }
    let found = row.found.as_ref()?;
    if !same_items(found.signers.as_slice(), signers.as_slice()) {
        return None;
    }
    Some(found)
}

fn find_row<'k>(rows: &'k [KnownChange], signers: &KeyIds, roots: &Roots) -> Option<&'k FirstUnmet>
    ensures { IfSome (option_copied result) (λ found. (trees : Trees) (files : List RuleFile)
        → AllByRecursion (IsRow trees files) rows.now → IsFirst trees files signers.now roots.now found.first) }
{
    'rows: for row in rows {
        if let Some(found) = found_in(row, signers, roots) {
            return Some(found);
        }
    }
    None
}

impl KnownChanges {
    /// Nothing is known. It takes no memory.
    pub fn new(alloc: Global) -> KnownChanges
        ensures { (trees : Trees) → Hold trees result }
    {
        KnownChanges {
            files: RuleFiles::new(alloc),
            rows: Items::new(alloc),
        }
    }

    /// Whether the trees of two targets are known to be whole.
    pub(crate) fn are_whole(&self, roots: &Roots) -> bool
        ensures { IsTrue result → (trees : Trees) → Hold trees self.now → AreWhole trees roots.now }
    {
        has_pair(self.rows.as_slice(), roots)
    }

    /// The first of the paths at which two trees differ that the signers do not meet, where it is known.
    pub(crate) fn first(
        &self,
        rules: &Rules,
        signers: &KeyIds,
        roots: &Roots,
    ) -> Option<&Option<Octets>>
        ensures { IfSome (option_copied result) (λ first. (trees : Trees) → Hold trees self.now
            → IsFirst trees rules.now signers.now roots.now first) }
    {
        let found = find_row(self.rows.as_slice(), signers, roots)?;
        if !same_items(self.files.as_slice(), rules.files()) {
            return None;
        }
        Some(&found.first)
    }

    fn keep(&mut self, alloc: Global, taught: Taught)
        ensures { (trees : Trees) → Hold trees self.old → IsTaught trees taught → Hold trees self.new }
    {
        let Taught { files, row } = taught;
        if !same_items(self.files.as_slice(), files.as_slice()) {
            self.files = files;
            self.rows = Items::new(alloc);
        } else if self.rows.len() >= MOST_ROWS {
            self.rows = Items::new(alloc);
        }
        let _kept = self.rows.push(row);
    }

    /// Keeps what an entry taught, unless memory is wanting.
    pub(crate) fn take(&mut self, alloc: Global, lesson: Lesson)
        ensures { (trees : Trees) → Hold trees self.old → IsLesson trees lesson → Hold trees self.new }
    {
        match lesson.taught {
            Some(taught) => self.keep(alloc, taught),
            None => {}
        }
    }
}

// What is found of a change between the trees of two targets; of its paths only where they were looked for.
fn taught_by(
    alloc: Global,
    known: &KnownPaths,
    rules: &Rules,
    signers: &KeyIds,
    roots: &Roots,
    paths: &[Octets],
    fault: &Option<Fault>,
) -> Result<Taught, Memory>
    ensures { IfOk result (λ taught. (trees : Trees) → AreWhole trees roots.now
        → AreChanged (map_at (root_ended trees roots.now.from)) (map_at (root_ended trees roots.now.to)) paths.now
        → IsTaught trees taught) }
{
    let mut files = RuleFiles::new(alloc);
    append_files(alloc, &mut files, rules.files())?;
    if is_of_reference(fault) {
        let row = KnownChange {
            roots: *roots,
            found: None,
        };
        return Ok(Taught { files, row });
    }
    let first = first_known(known, alloc, rules, signers, paths)?;
    let signers = signers.copy()?;
    let row = KnownChange {
        roots: *roots,
        found: Some(FirstUnmet { signers, first }),
    };
    Ok(Taught { files, row })
}

// Whether a fault is that of a reference, so that no path was looked for.
fn is_of_reference(fault: &Option<Fault>) -> bool {
    matches!(fault, Some(Fault::RefRule { .. }))
}

/// What a change between the trees of two targets teaches, which are whole and differ at exactly these paths, and by
/// which an entry has this fault. Nothing where there are fewer than 64 paths.
pub(crate) fn lesson_of(
    alloc: Global,
    known: &KnownPaths,
    rules: &Rules,
    signers: &KeyIds,
    roots: &Roots,
    paths: &[Octets],
    fault: &Option<Fault>,
) -> Lesson
    ensures { (trees : Trees) → AreWhole trees roots.now
        → AreChanged (map_at (root_ended trees roots.now.from)) (map_at (root_ended trees roots.now.to)) paths.now
        → IsLesson trees result }
{
    if paths.len() < MANY {
        return Lesson::none();
    }
    Lesson {
        taught: taught_by(alloc, known, rules, signers, roots, paths, fault).ok(),
    }
}
